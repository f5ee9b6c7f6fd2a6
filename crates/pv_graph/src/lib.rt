//! Graphs of operations.
//!
//! This layer stands on `pv_value`. A graph is a list of nodes with their sorts; each node is an
//! operation over kids, which are numbers of nodes. Cycles may stand in its base, through thetas,
//! which are begun without kids and tied to them later; once all are tied, the base is sealed.
//!
//! `specs/` says which sorts fit an operation (`Ops`, `sort_over`), what a graph is (`Graphs`,
//! `IsGraph`, an invariant of `Graph`), what is free, settled and on a spine, and the rule on cycles
//! (`Walks`), what a node unfolds to (`Unfold`), and what each call requires and ensures (`Calls`).
//! What a node means is defined in the crate above.
//!
//! The layers above use the clauses of `Graph`: `add` gives the least number of a node (`Added`),
//! `theta`, `tie` and `seal` say exactly what they change (`Begun`, `Tied`, `Sealed`), an error leaves
//! the graph as it was, `of_base` makes the sealed graph of a list of nodes (`IsBase`), and `free`,
//! `settled` and their other forms answer exactly `Free` and `IsSettled`: `free_marks` and
//! `settled_marks` for all nodes at once, `free_now` and `settled_now` on a prepared graph, and
//! `free_growing` while nodes are added and thetas tied. `meets_variable` answers exactly `MeetsVariable`. `laws` has the laws (`Laws`), each as the
//! contract of a function that does nothing.
//!
//! `Index`, `Kept`, `Known`, `Reach`, `SortCode` and `Base` are private to this crate: how a node finds
//! its number, what a graph keeps, how the nodes that reach others are found, from these back along the
//! places at which they are kids, by a list of work, and how the sorts of a base are found so: for each
//! sort, back from the operations that give it to the nodes that take it.
//!
//! `free_growing` keeps marks of the first nodes for each depth (`Known`). Where a theta is begun, no
//! earlier node has a kid from there on, and that stays so until an earlier theta is tied. So a tie
//! leaves the marks of the nodes before the last such place that isn't after its theta. Only later nodes
//! are searched again, and only once a depth is asked for: where the thetas of a loop are tied after those
//! of the loops inside it, a node is searched again once for each loop around it, for each such depth.
#![tactic(auto)]

mod base;
mod fault;
mod graph;
mod index;
mod known;
pub mod laws;
mod node;
mod prepared;
mod reach;
mod sort;

pub use fault::GraphFault;
pub use graph::Graph;
pub use node::{Kids, Node, NodeId, Op, OpSort};
