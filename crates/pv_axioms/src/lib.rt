//! The axioms of all tables, by their numbers, and what an accepted section that uses them shows.
//!
//! This layer stands on `pv_scalar`, `pv_loopax`, `pv_heapax` and `pv_choiceax`, which have the tables and the laws of
//! their axioms, and on `pv_steps`, in which the axioms are a relation. `specs/Entries` puts the tables together: the
//! core is the first three (`core_axioms`), and all four are `axioms`. It makes that relation of all of them: two nodes
//! are the sides of an instance of the axiom with a number (`Instance`; `ByAxioms` as a relation of rules, of which no
//! lemma is one). So there is one theory, whichever axioms a search goes by: those of the core, or all.
//!
//! `Axioms` holds the tables: `tables` shows them, which one after the other are `axioms`; `axiom` gives exactly the
//! entry with a number, and `instance_of` says whether two nodes are an instance of it (`open_instance_of` whether they
//! are one whatever stands for the variables of the graph). The laws are clauses of
//! functions that do nothing (`laws`): each number stands once in the tables; the core and all axioms are what a search
//! asks of its table (`AreAxioms`); the axioms are sound (`AreSound` of `pv_steps`); so an accepted section makes its
//! two roots the same, and over the least graph of two nodes it makes these the same; and a section is not both
//! accepted and rejected, nor rejected with two numbers. The layers above also use the lemmas `sound` of
//! `proofs/Sound` and `same_instance` of `proofs/SameNodes`: graphs of the same nodes have the same instances.
#![tactic(auto)]

mod axioms;
pub mod laws;

pub use axioms::Axioms;
