//! Paths through joins.
//!
//! This layer stands on `pv_value` alone. A join makes two nodes equal, and joins come one after another.
//! A path from one node to another crosses joins, each from its first node to its second or back. The
//! definition that this layer meets is `Leads` (`specs/Paths`).
//!
//! The layer above uses `Forest`: it takes the joins in order (`push`), and gives a path between two nodes that
//! are linked by joins before a given one, through those joins alone (`path`). So what is said of an
//! equality rests only on what was joined before it. For each node it gives the top of its tree as it was before a
//! given join (`tops`): nodes have one top where the joins before that one link them (`AreTops`).
//!
//! `specs/Trees` is private to this crate. A forest has a tree for each class of linked nodes, in which each
//! node but the top has a link upwards, made by a join. On the way up each link is newer than the one before, so
//! the links made by the first joins are the trees as they were after these. A path splits at the newest join
//! between its ends.
#![tactic(auto)]

mod forest;

pub use forest::{Forest, Way};
