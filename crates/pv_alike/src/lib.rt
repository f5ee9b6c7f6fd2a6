//! The least graph of two nodes.
//!
//! This layer stands on `pv_graph`, on `pv_denote` for what nodes mean, on `pv_value` and on the kit's
//! `indexmap`. `least` gives, for two nodes of a sealed and well-made graph, in which cycles may stand,
//! their least graph (`specs/Least`, `IsLeast`): each root unfolds as its node, no two nodes unfold
//! equally, and the nodes are exactly those that are reached, numbered by their first visits, from the
//! first root and then from the second, a node before its kids and kids from left to right
//! (`specs/Visits`). It is a sealed and well-made graph, of which all nodes are the base.
//!
//! The layer above uses the clauses of `least`: that the graph is least (`IsLeastOf`), that its two
//! roots are one exactly where the nodes unfold equally, and that each root has exactly the values of
//! its node (`MeansAs`). Out of memory is the one error. And it uses the laws of `laws` (`specs/Laws`),
//! each the contract of a function that does nothing: two nodes have one least graph, no graph with
//! such roots has fewer nodes, it keeps the rule on cycles, and nodes that unfold equally have one sort.
//! Roots of two graphs have one least graph exactly where they unfold as each other, so that what is
//! said of it, as the verdict on two methods, doesn't depend on the graph in which they were made.
//!
//! How it is found (`specs/Algorithm`, `specs/Partition`): `bottom_up` orders the nodes so that each comes
//! after its kids, and a theta after its first (`specs/BottomUp`), by a list of work for each node. There
//! is such an order, since each cycle takes the second kid of some theta. `classes` starts with one class
//! of all thetas. In each pass, `numbering` numbers all nodes in that order by keys (`specs/Keys`): a theta
//! by its class and the number of its first kid, any other by its operation over the numbers of its kids;
//! then thetas of one class stay together where they have one depth and kids of equal numbers. So loops
//! that begin with different values are told apart in one pass, also where each begins with what the one before it
//! left. A pass that makes no more classes is the last: its numbers are equal exactly where nodes unfold
//! equally. `quotient` makes a node for each number (`specs/Quotient`), `visit` finds the order of first
//! visits, with a stack in place of recursion, and `renumber` copies the nodes of that order, each over
//! the places of its kids (`specs/Renumbered`).
#![tactic(auto)]

mod alike;
mod bottom_up;
mod classes;
mod found;
mod keys;
pub mod laws;
mod numbering;
mod order;
mod quotient;
mod renumber;
mod rooted;
mod visit;
mod waiting;

pub use alike::least;
pub use rooted::Least;
