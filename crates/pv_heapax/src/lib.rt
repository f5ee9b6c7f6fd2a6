//! The heap axioms and their laws.
//!
//! This layer stands on `pv_pattern`, which says what an axiom and its law are. `specs/Table` has the axioms
//! on reads and writes of static fields, fields and elements: a read after a write to the same place, or to
//! another one, and a write after a write. `heap_axioms` gives them. `law_heap_axioms` says that each entry
//! holds in every well-formed world, for every input and at every index, where its conditions do, and
//! `law_heap_names` that each can be asked of `pv_pattern::instance`.
#![tactic(auto)]

pub mod laws;
mod table;

pub use table::heap_axioms;
