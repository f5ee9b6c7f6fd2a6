//! The text of chains: two certificates with the class between them.
//!
//! A chain holds the bytes of a middle class, a certificate for a first class and the middle one, and a certificate for the
//! middle class and a last one; so both can be checked from the first and the last class alone. Both certificates have the
//! text of version 2, and may have lemmas; the third line of a chain says how many lines the first one has, those of its
//! lemmas among them. This layer stands on `pv_cert`, which reads and writes certificates, on `pv_steps`, whose lemmas and
//! steps it counts, on `pv_class`, which reads the middle class, and on `pv_format` and `pv_token`, of whose formats it makes
//! its own. `specs/` says what the first three lines are (`Heads`, of lines at the front of a text, `Fed`), what the text of
//! a chain is (`Chains`), and why a text is none (`BadChains`).
//!
//! The layer above uses the clauses of `read_chain`: what it gives is the chain of which the text is the one spelling, or the
//! fault of the text (`Answers`), and no other answer is right (`Tells`); that of `write_chain`, which writes the spelling of
//! any chain; and that each text is the spelling of one chain at most or has one fault at most (`law_once`, `law_faults`, or
//! `proofs/Cited`). So what is written of a chain that fits is read again. `Reading` is private to this crate.
#![tactic(auto)]

mod chain;
mod head;
mod laws;
mod lines;
mod parts;
mod read;
mod write;

pub use chain::{Chain, ChainFault};
pub use laws::{law_faults, law_once};
pub use read::read_chain;
pub use write::write_chain;
