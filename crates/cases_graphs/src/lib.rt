//! Cases of the layers of graphs: graphs, their meaning, least graphs, axioms, loops and decision trees.
//!
//! Each module has the lines or the steps of one layer; `rules` tests what some calls require (`specs/Rules`), and
//! `settings` reads what a line says of a world and a heap. It stands on `cases_words` and on these layers.
#![tactic(auto)]

pub mod axioms;
pub mod bases;
pub mod graphs;
pub mod leasts;
pub mod loops;
pub mod meanings;
pub mod rules;
pub mod settings;
pub mod trees;
