//! Differences between two methods, shown by runs.
//!
//! Two programs of one descriptor are run on tries, one after the other, until both end on one of them with different
//! outcomes. `specs/Tries` says what a try is: a world that knows the lengths of four arrays and nothing else, and an
//! input whose arguments are chosen by the digits of the try's number. `specs/Differences` says what is found: the first
//! try on which the two differ, or that they differ on none.
//!
//! This layer stands on `pv_machine`, whose `run` gives the outcome of a method that ends within so many steps, and on
//! those below it. The layer above uses the clauses of `refute`, and the laws: that methods which differ on a try don't
//! have the same meaning (`law_differences`).
#![tactic(auto)]

pub mod laws;
mod outcome;
mod refuting;
mod tries;

pub use refuting::{Found, refute};
pub use tries::{try_input, try_world};
