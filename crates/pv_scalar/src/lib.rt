//! The axioms on numbers, choices and tokens, and their laws.
//!
//! This layer stands on `pv_pattern`, which says what an axiom and its law are. `specs/Table` is the table:
//! for ints and, with a number higher by 100, for longs the laws of sums, products and bits, shifts by
//! constants and divisions by 1 and -1; comparisons, conversions and references; folds of constants; choices
//! and tokens. `scalar_axioms` gives it. `law_scalar_axioms` says that each entry holds in every well-formed
//! world, for every input and at every index, where its conditions do, and `law_scalar_names` that each can be
//! asked of `pv_pattern::instance`.
#![tactic(auto)]

pub mod laws;
mod table;

pub use table::scalar_axioms;
