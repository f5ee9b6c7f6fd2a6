//! What the nodes of graphs mean.
//!
//! This layer stands on `pv_graph` and `pv_value`. `specs/` says what a node means in a world, at an
//! input and an iteration of the loops around it, with some fuel (`Denote`), the same as a relation
//! (`Means`), which values a sort has (`Typed`), what the nodes of a graph mean (`Meaning`), and what
//! finite trees mean (`TreeValues`); `Given` and `Words` are private to this crate.
//!
//! `den` evaluates a node: its clause `value` is the definition of `Denote`. The layers above use
//! that clause, and the laws of `laws` (`Laws`), which speak of the values that some fuel gives.
#![tactic(auto)]

mod call_ops;
mod evaluation;
mod heap_ops;
mod iterations;
pub mod laws;
mod nodes;
mod part;
mod scalars;
mod setting;
mod stop;
mod strict;
mod word;

pub use nodes::den;
pub use word::{Operands, Word, gives, takes};
