//! Chains of certificates: made of two certificates, and checked from the first and the last class alone.
//!
//! This layer stands on `pv_chain`, which reads and writes the text of chains, on `pv_sections` for what is said of a section on two
//! methods, on `pv_check`, which decides that by rules, on `pv_rules`, whose rules are the axioms and the accepted ones of a
//! certificate's lemmas (`ByLemmas` of `pv_lemmas`), on `pv_report` for the pair of classes, partners, the least graph of two methods'
//! roots and the words of lines, and on those below them. `specs/` says how lines call the three classes (`Stages`), why certificates
//! are no links and a text is no chain for two files (`Flaws`), which sections belong together and what is said of them (`Findings`):
//! each of the two by the axioms and the lemmas of its own certificate. It says what the lines are (`Lines`), when there is a chain of
//! three files and two certificates (`Composed`), and what is said of two files and a chain (`Ruled`).
//!
//! The layer above uses the clauses of `compose`: the text and the status are those of the bytes that were fetched
//! (`ComposesFetched` of `specs/Reading`), and there is a chain, which is theirs (`ChainsFetched`), exactly where the status says so;
//! that of `check_chain`: the text and the status are those of the bytes that were fetched (`ChainRulesFetched`), whatever the workers;
//! and that a line `.. equivalent` is true of the first and the last class (`law_equivalent`, or `link_meaning` of `proofs/Cited`).
//! `Made` is private to this crate.
#![tactic(auto)]

mod chain;
mod classes;
mod composition;
mod digest;
mod finding;
mod flaw;
mod laws;
mod line;
mod links;
mod report;
mod roots;
mod stage;

pub use chain::LONGEST_CHAIN;
pub use composition::{Composition, compose};
pub use finding::LinkFinding;
pub use flaw::{BadLink, ChainFlaw, TextFlaw};
pub use laws::{law_composed, law_equivalent};
pub use report::check_chain;
pub use stage::Stage;
