//! A method ends with the outcomes that its equations have.
//!
//! This layer stands on `pv_machine`, whose runs it speaks of, on `pv_runs`, which makes a method a flow of
//! blocks and says what each block computes, and on `pv_equations`, whose law tells what a node is worth
//! that unfolds as the root of a flow's equations. `specs/Matches` says when a state of the machine in the
//! middle of a block is as the block has computed. From there the proofs follow the machine: one action,
//! the action that ends a block, the run of a block, and the runs from block to block. There is no code.
//!
//! The law is the contract of `laws`. `law_method`: a node that unfolds as the root of a method's equations
//! has the outcomes with which the method ends, and no others. It is what the layer above uses, which
//! compares methods by their graphs; the layers that build graphs need none of this.
//!
//! To believe an answer `equivalent` nobody has to read these definitions: its statement speaks of the
//! machine alone.
#![tactic(auto)]

pub mod laws;
