//! Axioms over graphs: patterns, conditions, and what an instance of an axiom is.
//!
//! `pattern` has the types. `specs/Patterns` holds the forms of patterns, conditions and axioms that
//! definitions speak of, and `specs/Seen` says which of them a value of the types is; `specs/Numbers` has
//! the numbers of the operations, `specs/Instances` when two nodes are an instance of an axiom, and
//! `specs/Laws` what an axiom's law is. `specs/Conditions` has axioms without one of their conditions.
//!
//! `instance` and `instance_now` say whether two nodes are an instance of an axiom whose left side binds all
//! that the axiom names (`specs/Binding`): each name is found at its first place in the left side
//! (`specs/Found`). `open_instance` says whether they are one whatever stands for the variables of the graph
//! (`IsOpenInstance`). `add_axioms` makes axioms of the rows of a table, which are
//! constants (`specs/Tables`).
//!
//! A layer that looks for instances also uses `op_number`, the number of an operation (`specs/Numbers`), by which it
//! finds the nodes that a pattern may stand at; `head_name` and `fixed_op` of operations; and `folded`, `kind_type` and
//! `field_type` of what a side makes of constants and types.
#![tactic(auto)]

mod folding;
mod instances;
pub mod laws;
mod names;
mod numbers;
mod pattern;
mod stands;
mod table;

pub use folding::{field_type, folded, kind_type};
pub use instances::{instance, instance_now, open_instance};
pub use names::{NameId, fixed_op, head_name};
pub use numbers::{OP_NUMBERS, op_number};
pub use pattern::{Atom, Axiom, By, Each, Head, Pattern, Side};
pub use table::{Row, Term, add_axioms};
