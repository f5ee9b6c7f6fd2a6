//! Nodes of a graph that stand for expressions.
//!
//! This layer stands on `pv_graph` and `pv_equations`. The equations of a method speak of expressions, in
//! which the theta of a slot that a loop carries is a name. A conversion adds nodes to an open graph, and
//! a list of `Names` says which node each name is: `begin_name` begins its theta without kids, and once
//! the loop is made, the theta is tied to them. Every other operation has the least node over its kids, so
//! `specs/Reads` can say which expression a node stands for, and two expressions are equal as written
//! exactly where they are read by one node.
//!
//! The layers above use the laws of `laws`: a node stands for one expression (`law_once`); what nodes
//! stand for stays as the graph grows and thetas are tied (`law_stand`); once each name has its kids, a
//! node unfolds as its expression (`law_tying`), as the root of a method must; and while a loop is made
//! whose inner loops are tied, `Graph::free_growing` tells whether the depth of the loop is free in an
//! expression (`law_free`). The contracts of `over`, `both`, `begin_name`, `out` and `token_out` say, for whatever the
//! kids stand for, what the new node stands for and its sort, and that the graph only grows (`specs/Terms`).
#![tactic(auto)]

pub mod laws;
mod names;
mod terms;

pub use names::{Named, Names};
pub use terms::{begin_name, both, out, over, token_out};
