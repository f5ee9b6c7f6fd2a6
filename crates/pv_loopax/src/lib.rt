//! The loop axioms and their laws.
//!
//! This layer stands on `pv_pattern`, which says what an axiom and its law are. `specs/Table` has the axioms
//! on `theta`, `eval`, `pass` and `shift` of a depth, those by which `shift` and `eval` go over an operation to
//! its kids among them, and `loop_axioms` gives them. `law_loops` says that each entry holds in every
//! well-formed world, for every input and at every index, where its conditions do, and `law_loop_names` that
//! each can be asked of `pv_pattern::instance`.
#![tactic(auto)]

pub mod laws;
mod table;

pub use table::loop_axioms;
