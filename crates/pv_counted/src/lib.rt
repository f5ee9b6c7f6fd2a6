//! Counted loops, and the tokens that may go because of them.
//!
//! This layer stands on `pv_alike`, on `pv_graph` and `pv_denote` for graphs and what their nodes mean, on
//! `pv_value` and on the kit's `indexmap`. A loop that adds 1 to an int in each iteration, and goes on
//! while that int is below a bound that the loop doesn't change, meets the bound: a step of 1 leaves no
//! int out, and the greatest int is below no bound. `specs/Counted` says which passes are such a loop's
//! and are counted (`CountsUp`, `IsCounted`), and `specs/Cleared` what the graph is in which a unit
//! stands in place of each token that is settled with these assumed (`IsClearing`, `IsCleared`).
//!
//! The layer above uses `counted`, which lists exactly the counted nodes of a least graph, ascending
//! (`AreCounted`), and `clear`, which gives exactly the cleared graph (`IsCleared`), whose roots have the
//! values that they had (`RootsKeep`). Out of memory is the one error of both. And it uses the laws of
//! `laws` (`specs/Laws`), each the contract of a function that does nothing: a counted node has a value
//! at every index, clearing keeps the values of all nodes, and the counted nodes are the least set of
//! their kind.
//!
//! The rest is private to this crate. `recognized` takes a loop to its parts (`specs/Recognized`), `loops`
//! lists the loops that count up, and `rounds` finds of these first what is counted without any other,
//! then what is counted with these assumed, and so on (`specs/Rounds`). `clearing` puts the units in
//! place (`specs/Replaced`), and `folding` makes equal nodes one, until no two are equal
//! (`specs/Folding`), since the base of a graph has no two equal nodes; what a node unfolds to stays,
//! and that is all that a least graph speaks of.
#![tactic(auto)]

mod clearing;
mod counting;
mod folding;
mod keys;
pub mod laws;
mod loops;
mod recognized;
mod rounds;

pub use clearing::clear;
pub use counting::counted;
