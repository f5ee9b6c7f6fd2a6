//! The blocks of a method with typed frames: runs of instructions that are entered at the first and left
//! at the last alone, and where each is left.
//!
//! This layer stands on `pv_frame`, whose `Typed` it reads: what each instruction does, and which are
//! reached. `specs/Exits` has the exits of instructions in the order of their tests, `specs/Blocks` what a
//! block and the flow of a program are, and `specs/Answers` what there is to answer. The layers above use
//! `blocks`: it is Ok with the flow exactly where at most `MOST_BLOCKS` are reached, and else names the cause
//! `Blocks`. `Flow::edges` gives for each block the blocks to which its exits go (`specs/Edges`).
//!
//! `specs/Laws` has what follows for every flow, which the layers above use too:
//!
//! - `law_blocks`: in a block each instruction goes on to the next one alone, and only the first may be a
//!   target.
//! - `law_cover`: each instruction that is reached stands in exactly one block, and no other in any.
//! - `law_one`: a program has one flow.
//! - `law_exits`: the edges between blocks are those of the code.
//! - `law_edges`: block 0 is the entry, each edge goes to a block of the list, and each block is reached
//!   along edges from the entry.
//!
//! Places are marked where blocks begin (`begin`), those that are reached are numbered in order (`head`),
//! and then each becomes a block with the exits of its last instruction (`exit`, `flow`). That takes
//! linear time. `specs/Finding` says what each of these finds, and is private to this crate.
#![tactic(auto)]

mod begin;
mod block;
mod edge;
mod exit;
mod flow;
mod head;
mod laws;

pub use block::{Block, Exit, Flow};
pub use flow::{MOST_BLOCKS, blocks};
pub use laws::{law_blocks, law_cover, law_edges, law_exits, law_one};
