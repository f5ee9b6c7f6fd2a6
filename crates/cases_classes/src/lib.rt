//! Cases of classes of nodes, and of inductions.
//!
//! `classes` has the lines, and `showing` writes joins and blocks. It stands on `cases_words`, on `cases_graphs`, which
//! makes graphs and reads operations, and on `pv_classes` and `pv_induct`.
#![tactic(auto)]

pub mod classes;
mod showing;
