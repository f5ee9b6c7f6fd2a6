//! The blocks of a method, its loops, and what each loop carries.
//!
//! This layer stands on `pv_flow`, which finds the blocks that are reached, on `pv_loops`, which makes a forest of the loops between
//! them, and on `pv_runs`, whose definitions say which slots a block writes. It knows no node of a graph.
//!
//! `laid_out` (`structure`) gives the blocks and the forest of a structured method, or the cause for which a method
//! isn't structured: `specs/Structure` says which are, and `specs/Reasons` what the call answers. `slots_carried` (`carrying`) gives for each loop
//! the slots that a block of it writes: each block is walked once, and a loop carries what its members write (`AreCarried` in
//! `specs/Carried`). `IsRoutine` in `specs/Routine` is what it asks of a method: that its blocks and its forest are those of its program.
//!
//! The layer above, `pv_build`, uses both calls, and cites the laws in `proofs/Cited`: what the headers of a forest are, and that the trees of a method's
//! equations give something.
#![tactic(auto)]

mod carrying;
mod structure;

pub use carrying::{Writes, slots_carried};
pub use structure::{Layout, laid_out};
