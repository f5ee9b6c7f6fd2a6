//! The report on the sections of a certificate for two class files.
//!
//! This layer stands on `pv_cert`, which reads certificates, on `pv_check`, which decides sections by rules, on `pv_rules`,
//! whose rules are the axioms and the accepted ones of a certificate's lemmas (`ByLemmas` of `pv_lemmas`), on `pv_report` for
//! the pair of classes, partners, the least graph of two methods' roots and the words of lines, on `pv_token` for
//! numbers and digests, on `pv_base` and `pv_pieces` for the workers by which `pv_check` and `pv_report` run pieces at once,
//! and on those below them. Certificates are of version 2, and each section of one may use the lemmas that it states.
//! `specs/` says why a certificate is not one for two files (`Flaws`), what is said of a section by the axioms and these
//! lemmas (`Findings`), what the lines are (`Lines`), and what the report is (`Ruled`). Of the lemmas themselves nothing is
//! said: one that isn't accepted has no uses, so a section that uses it is rejected.
//!
//! The layer above uses the clause of `rule`: the text and the status are those of the bytes that were fetched (`RulesFetched` of
//! `specs/Reading`), whatever the workers; those of `show`: the answer is that of `judge`, and the certificate, if any, shows it
//! without lemmas (`CertifiesFetched` of `specs/Certified`); and, of `proofs/Cited`, that a method and its partner have the same meaning where a
//! section on them is accepted (`accepted_meaning`). That `rule` accepts what `show` makes is a law (`law_certified`). The rest of
//! `Reading` is private to this crate.
#![tactic(auto)]

mod certificate;
mod digest;
mod finding;
mod flaw;
pub mod laws;
mod line;
mod report;
mod shown;

pub use certificate::LONGEST_CERT;
pub use finding::Finding;
pub use flaw::Flaw;
pub use line::bad_certificate;
pub use report::rule;
pub use shown::{Shown, show};
