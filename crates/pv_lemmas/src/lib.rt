//! Lemmas of certificates: equalities over variables that are proved once and used often.
//!
//! A lemma has steps of its own, over a graph that begins with its variables; they add nodes and show that two nodes
//! are equal. A later lemma and a section use it: with nodes in the place of the variables, the two sides are equal.
//!
//! This layer stands on `pv_steps`, in which a step rests on rules (`Rule`), and on `pv_axioms`, which has the axioms,
//! also whatever stands for variables (`OpenInstance`). `specs/` says when a lemma is accepted (`Lemmas`): each of its
//! steps is right, whatever stands for its variables, and what a use of it is; `ByLemmas` are the axioms and the accepted
//! lemmas as rules. The law (`laws`) is that these rules are sound (`AreSound` of `pv_steps`), so an accepted section that
//! uses lemmas makes its roots the same.
//!
//! The layer above tests lemmas and their uses by `variables_graph` and `settled_variables`, the graph with which a lemma
//! begins and its settled variables, and by `Known`, a lemma with the graph after its steps (`IsKnown`): `is_used` is yes
//! exactly where two nodes are its sides (`IsUse`).
//!
//! The proof of the law is by expansion (`proofs/`): the nodes of a lemma, with the nodes of a use in the place of its
//! variables, are put after those of the graph in which it is used. There each step of the lemma is right, and what it
//! states holds. `specs/Asked` is private: how `under` finds, from the sides down, what each node of a lemma has to be.
#![tactic(auto)]

mod known;
pub mod laws;
mod under;
mod vars;

pub use known::{Known, Place};
pub use vars::{settled_variables, variables_graph};
