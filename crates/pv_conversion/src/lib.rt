//! The root of a method's equations has the values with which runs end.
//!
//! This layer stands on `pv_denote`, which says what values a node of a graph has, and on `pv_equations`,
//! whose flows and equations it speaks of. `specs/Runs` says what a run of a flow does from block to block,
//! and `Outcomes` gives the outcome of a run, and what is asked of a machine whose steps the blocks stand
//! for. There is no code. The layers that build graphs need none of this: they show which expressions their
//! nodes stand for, and this layer says what these are worth.
//!
//! The law is the contract of `laws`. `law_conversion`: a node that unfolds as the root has the values with
//! which runs end, and no others. For a machine whose steps the blocks stand for, the lemma `graph_machine`
//! of `proofs/Law` says the same of the machine, and `pv_outcomes`, which knows the instructions, cites it.
//!
//! To believe an answer `equivalent` nobody has to read these definitions: its statement speaks of the
//! machine alone.
#![tactic(auto)]

pub mod laws;
