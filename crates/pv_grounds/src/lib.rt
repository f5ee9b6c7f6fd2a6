//! Joins and blocks keep their grounds where a graph grows. There is no code here but functions that state laws.
//!
//! This layer stands on `pv_classes`, which says what joins and blocks rest on (`JoinsGround`, `BlockGround`), on `pv_explain`, which
//! says what is given in a graph (`IsGiven`), and on `pv_rounds` and `pv_induct`, which say what a round owes (`AddsAll`), joins
//! (`JoinsAll`) and closes (`Inducts`). A section of a certificate is made of joins that have their grounds in the last graph of a
//! search (`IsGrounded` of `pv_explain`), but the joins were made in the graphs before it.
//!
//! The layer above uses the laws. What rests on what is given in a graph rests on it in each graph that grew from this one
//! (`law_grounds_stay`, `specs/Grounds`). New classes are grounded, and a round keeps them so (`law_round`, `specs/Rounds`); so all
//! joins of a search have their grounds in its graph. The proofs have the first for whatever may be given (`proofs/Staying`). And what
//! rests so is the same (`law_same`, `specs/Same`): nodes of the least graph that a search put into one class have the same values where
//! the nodes that count as ending have values (`proofs/Holding` has this of each join, inside the inductions around it). It takes searches
//! (`Search`, `Looked` of `pv_rounds`) from here too.
#![tactic(auto)]

pub mod laws;

pub use pv_rounds::{Looked, Search};
