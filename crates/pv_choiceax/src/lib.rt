//! The axioms on operations over choices, on choices under choices, on truths and on conversions, and their laws.
//!
//! Compilers differ in these: one asks a test once and another in each arm, one narrows a truth before a choice and
//! another after it, one writes `x < 1` for `x <= 0`.
//!
//! This layer stands on `pv_pattern`, which says what an axiom and its law are, and on `pv_scalar` for the words in which
//! a table is written and for the laws of terms over numbers. `specs/Table` is the table: an operation that needs the
//! values of all its kids goes into a choice at any of them; then what holds of a choice under another by any test, of
//! tests for 0, of truths, of the low half of a long and of narrowings. `choice_axioms` gives it. `law_choice_axioms` says
//! that each entry holds in every well-formed world, for every input and at every index, without conditions, and
//! `law_choice_names` that each can be asked of `pv_pattern::instance`.
#![tactic(auto)]

pub mod laws;
mod table;

pub use table::choice_axioms;
