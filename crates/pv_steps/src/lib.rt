//! The steps of a certificate, when they are right, and what an accepted section shows.
//!
//! A section is a list of steps over a graph with two roots. Steps add nodes, and state that nodes are
//! equal: by an axiom or a lemma, by facts that earlier steps stated, or as kids of one operation are equal (a
//! congruence). Blocks are opened and closed: an induction over the iterations of a depth, inside which its
//! pairs are equal, and a block for a root, inside which some nodes are assumed to end. A section is
//! accepted where each step is right and the last one states that the roots are equal.
//!
//! This layer stands on `pv_graph` and `pv_denote`, which say what nodes mean, and on `pv_alike`, whose least
//! graph of two nodes a section is about. `step` has the types, those of lemmas too, and `specs/` what the layers above cite:
//! - `Steps`: the blocks that are open after some steps, the equalities that a step states, and which of them
//!   are visible.
//! - `Right`: when a step is right. The axioms and the lemmas (`Rule`) are a relation that this takes (`Instances`).
//! - `Accepted`: when a section is accepted (`Derives`), and with which number it is rejected (`Rejects`).
//! - `Facts`: what an equality says inside the blocks around it.
//! - `Laws`: where the rules are sound, an accepted section makes its roots the same, that is, they have the
//!   same values in every world, for every input and at every index; and so are the two nodes of which the
//!   graph is the least. No section is both accepted and rejected, and none is rejected with two numbers.
//!
//! A clause of a function can't speak of all relations, so the laws are the lemmas `accepted_same`,
//! `accepted_least`, `accepted_not_rejected` and `rejected_once` of `proofs/Laws`. The layer above, which has
//! the axioms, makes clauses of them.
#![tactic(auto)]

mod step;

pub use step::{Congruence, Fact, Lemma, Reason, Step, Var};
