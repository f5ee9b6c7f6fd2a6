//! Witnesses of conditions on classes, made as nodes of a graph.
//!
//! An axiom may ask of the class of a variable that it is settled, or that a depth isn't free in it (`Condition`). A match
//! asks this of a class; an instance of the axiom needs a node of which it holds. The class need not have one: it may have
//! only a node whose operation hands the condition on from its kids, where it holds of the classes of the kids.
//!
//! This layer stands on `pv_heights`, which says when a class is settled (`Settled`) and when a depth isn't free in it
//! (`NotFree`), and on `pv_instances` for nodes that fit. The layer above uses `witnesses` (`specs/Witnesses`,
//! `AreWitnesses`): for each class of which the condition holds it gives a node of which it holds, a copy (`Copy`) of a node of
//! that class, with its sort; and each node that it adds is such a copy. It starts by marks of nodes of which the condition
//! holds (`specs/Conditions`, `AreStarts`), which `marks` finds. Class numbers and marks are those of the first nodes, so
//! that witnesses of one condition can be made after those of another (`specs/Numbered`). That an instance needs one
//! witness at most for each variable is a law (`law_asked`, `specs/Asked`).
//!
//! The rest is private to this crate. `supports` lists for each such class a node by which the condition holds, in an order in
//! which each rests on earlier ones (`specs/Supports`). A node is looked at again where a class of its kids gets its support
//! (`parents`), so beside once at the beginning no node is looked at more often than it has kids. Then the witnesses are made in the order of the
//! supports (`specs/Table`): a marked node is its own witness, another one is made again over the witnesses of its kids' classes.
#![tactic(auto)]

mod condition;
pub mod laws;
mod making;
mod marking;
mod supports;

pub use condition::Condition;
pub use making::witnesses;
pub use marking::marks;
