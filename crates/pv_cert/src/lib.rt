//! The text of certificates.
//!
//! This layer stands on `pv_format` and `pv_token`, of whose formats it makes its own, on `pv_graph`, whose operations it
//! spells, and on `pv_steps`, whose steps and lemmas it spells. `specs/` says the names of operations (`Names`), the words
//! of an operation (`Parameters`, `Operations`), of facts, reasons and sets (`Reasons`, `Sets`), of each row of the table of
//! steps (`StepLines`) and of the variables of lemmas (`Variables`), the lines of a lemma and of a section, which steps may
//! stand in them, and how lines are read one after the other (`Lines`, `Reading`), why they can't be (`Faults`), the text of
//! a certificate with how it is read (`Certificates`), and why a text is none (`BadCerts`). A format holds its laws, so
//! these stand beside the definitions; what a reader has to believe are the spellings.
//!
//! A text has a version (`Version`): version 2 has lemmas before the sections, and steps that use them; version 1 has
//! neither. `read_cert` reads a text of version 2 and `read_cert_1` one of version 1 (`Answers`): the clause `exact` says
//! that what is given is the certificate of which the text is the one spelling, or the fault of the text, and `only` that
//! no other answer is right, but for out of memory. `write_cert` writes the spelling of any certificate in version 2.
//! `law_once`, `law_faults` and `law_either` say that in each version a text is the spelling of one certificate that fits
//! or has one fault (`Laws`); so what is written of a certificate that fits is read again.
#![tactic(auto)]

mod cert;
mod certificate;
mod laws;
mod line;
mod lists;
mod operation;
mod read;
mod reason;
mod step;
mod table;
mod write;
mod writing;
mod writing_steps;

pub use cert::{Cert, CertFault, Section, Version};
pub use certificate::{read_cert, read_cert_1};
pub use laws::{law_either, law_faults, law_once};
pub use write::write_cert;
