//! The report on two class files.
//!
//! This layer stands on `pv_build`, which converts two methods into one graph, on `pv_alike`, which makes the least graph of their
//! roots, on `pv_counted`, which clears it of tokens that end because of counted loops, on `pv_prove`, which searches for a proof that
//! the roots are equal, on `pv_certify`, which gives the steps of that proof, and on those below them; that a root has the outcomes of
//! its method is a law of `pv_outcomes`. `pv_token` shows names and writes numbers.
//! `specs/` says which method is the partner of another (`Partners`), what the least graph of two methods' roots is
//! (`Roots`), by which axioms, within which limits and in which graphs a search may find them equal (`Options`), what is said of a method
//! with these options (`Verdicts`), what the lines are (`Lines`), what a report is (`Report`), and which numbers the statuses have
//! (`Statuses`). The two files are read into a pair; then all verdicts are made, by the least graphs and one table of axioms, which is
//! made when the first search needs it; and then the lines.
//!
//! The layer above uses the clause of `judge`: the text and the status are those of the bytes that were fetched, with these options
//! (`Judging`), and there is one of each (`law_judged`). It uses that two methods have the same meaning
//! where the roots of their least graph have the same values, as they do where the verdict is `Equivalent` (`least_meaning` of
//! `proofs/SameMeanings`), and that a line determines its method (`law_lines`). The report on a certificate uses the parts too: the
//! pair (`read_pair`), partners (`partner_of`), the least graph of two methods' roots (`least_roots`), and what lines are made of.
#![tactic(auto)]

mod judged;
mod laws;
mod line;
mod pair;
mod pairs;
mod partners;
mod report;
mod status;
mod verdict;
mod waiting;

pub use laws::{law_judged, law_lines};
pub use line::{push_cause, push_fault, push_method, push_verdict, side_word};
pub use pair::{BadClass, Fetched, Pair, class_in, read_pair};
pub use partners::partner_of;
pub use pv_certify::{AxiomSet, Limits};
pub use report::{Answer, Report, bad_class, judge};
pub use status::Status;
pub use verdict::{Detail, Graphs, Side, Verdict, has_code, least_roots};
