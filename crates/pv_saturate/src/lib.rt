//! Matches, decoded, and made as instances over nodes.
//!
//! This layer stands on `pv_match`, which finds matches, on `pv_instances`, which makes instances of axioms as nodes, and on
//! `pv_witness`, which has the witnesses of conditions on classes. A match has classes; an instance needs nodes.
//!
//! The definition that it meets is `IsInstanceOf` (`pv_heights/specs/Rounds`): two nodes that are the sides of a match over a copy
//! of some node of each of its classes, as a round owes one for each match.
//!
//! `decode` takes a match that is given by the number of its axiom, a list of parameters and its classes, and says what the names of
//! the left side stand for (`specs/Decoding`): it is the match that was found but for what its left side doesn't name
//! (`IsSameMatch`). So all matches, decoded, are all matches (`proofs/Matching`, `decoded_are_all`).
//!
//! `choose` takes a node for each variable of a match: the witness where the axiom asks a condition of its class, the constant
//! where it stands for constants, and else a node of the class (`specs/Choice`). The layer above uses `add_match`, which makes
//! both sides over these nodes (`specs/Added`, `AddedMatch`). It needs to know of the match what matching finds: that its
//! left side stands in a class, that its conditions have witnesses, and that the classes of its variables for constants hold them. A
//! match with the tables of its witnesses (`specs/Tables`) has all that (`can_choose` and `left_stands`).
//!
//! What is made is also an instance of the axiom as a certificate names it, where the graph has no node twice and the conditions
//! hold of the witnesses (`proofs/Certifying`, `certified`). `proofs/Cited` has the lemmas that other crates cite.
//!
//! The rest is private to this crate: `left` finds what a left side names, `telling` what each name stands for by its own parameters
//! (`specs/Told`), and `operation` the operation of a family by its number and its parameter (`specs/Operations`).
#![tactic(auto)]

mod adding;
mod choice;
mod decoding;
mod left;
mod operation;
mod telling;

pub use adding::{MatchNodes, add_match};
pub use choice::{Witnesses, choose};
pub use decoding::{Decoded, decode};
