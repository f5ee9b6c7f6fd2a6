//! Whether both sides of an instance stand in one class already.
//!
//! This layer stands on `pv_instances`, which fills in the sides of axioms, and on `pv_classes`, which finds the class of an
//! operation over classes by one look-up. It only reads: no node is made, and nothing is joined.
//!
//! The definition that it meets is where a side stands (`StandsIn` of `pv_heights/specs/Sides`): a hole in the class of its node, and an
//! operation in the class of a node with it over kids of the classes in which its parts stand. Where the classes are a congruence, a
//! side stands in one class, or in none.
//!
//! The layer above uses `both_stand`, which tells whether there is one class in which both sides of an instance stand
//! (`BothStand`). Where this holds of each match, none joins more, and the search is at its end. `class_of_side` gives a node of the class in which
//! one side stands (`specs/Standing`).
//!
//! The rest is private to this crate: filled sides, part by part (`specs/Parts`).
#![tactic(auto)]

mod parts;
mod sides;

pub use sides::{both_stand, class_of_side};
