//! Cases of the search: matches of axioms over classes of nodes, and rounds.
//!
//! `searching` has the lines of searches and their steps, `joined` a line of matches over classes that are joined by hand, and `counting`
//! those of counted loops. They stand on `nodes` and `methods`, which make least graphs, on `tables` for the axioms, on `gates` for a
//! gate that counts, and on `showing`, which writes matches and nodes. Below are `cases_words`, `cases_graphs` and `cases_methods`, and of
//! the program `pv_build`, `pv_alike`, `pv_counted`, `pv_endings`, `pv_match` and `pv_rounds`.
#![tactic(auto)]

pub mod counting;
mod gates;
pub mod joined;
mod methods;
mod nodes;
pub mod searching;
mod showing;
mod tables;
