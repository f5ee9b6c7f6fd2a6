//! Instances of axioms, made as nodes of a graph.
//!
//! This layer stands on `pv_axioms`, which has the axioms, and on `pv_heights`, which says what a side of an axiom is
//! with its names filled in (`filled`), and which node is a side (`IsSide`).
//!
//! The definition that it meets is the sort of a filled side, where each kid of a family and each variable has one
//! (`specs/Sorted`, `IsSorted`). Each axiom keeps it: where the left side has a sort, the right side can be filled in
//! and has that sort too (`law_sorts`, `specs/Laws`). The classes of a search keep one sort each, with all inductions, and a
//! side that stands in a class has the sort of that class (`law_class_sorts`, `specs/Classes`). So what is made for a
//! match always fits, and its sides are of one sort.
//!
//! The layer above uses `add_instance`: both sides stand at nodes of one sort, the graph keeps its nodes, and each new
//! one is a part of a side (`specs/Made`, `MadeInstance`). `make_pattern` makes one side of an axiom, `fill` fills it in,
//! `make` makes a filled side, and `add_fitting` adds one node of which it is known that it fits.
//!
//! The rest is private to this crate. `specs/Parts` is what is made of parts one after another. That axioms keep sorts is a
//! test that computes (`specs/Fits`), by what a left side tells of its variables, symbols and constants (`specs/Facts`).
#![tactic(auto)]

mod filling;
mod instances;
pub mod laws;
mod making;
mod params;
mod side;

pub use filling::fill;
pub use instances::{Instance, Sides, add_instance, make_pattern};
pub use making::{add_fitting, make};
pub use params::Params;
pub use side::{Filled, Hole};
