//! The report on differences between two class files.
//!
//! This layer stands on `pv_refute`, which runs two programs on tries, on `pv_report` for the pair of classes, partners and
//! the words of lines, on `pv_insn` for the calls in a code, and on those below them. `specs/` says when a code has a call
//! (`Calls`), what is said of a method (`Findings`), what the lines are (`Lines`), and what the report is (`Refuted`). The two
//! files are read into a pair; then what is said of each method is found; and then the lines are made.
//!
//! The layer above uses the clause of `refute_all`: the text and the status are those of the bytes that were fetched
//! (`RefutesFetched` of `specs/Reading`), and there is one of each (`law_refuted`). A line `differs ..` is true: the two methods
//! end with different outcomes on the input that it gives, and no report says `equivalent` of them (`law_differs`). No line of the
//! report says `equivalent` at all (`no_equivalent` of `proofs/Cited`).
#![tactic(auto)]

mod calls;
mod finding;
mod laws;
mod line;
mod report;

pub use finding::{Finding, RunLimits};
pub use laws::{law_differs, law_refuted};
pub use report::refute_all;
