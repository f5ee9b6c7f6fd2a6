//! Pieces at once: how the work of a phase is cut into pieces, and what they are run by.
//!
//! This layer stands on `std` alone. A phase goes over items that nobody changes. It cuts them into consecutive pieces whose
//! lengths differ by at most one (`specs/Cut`, `bounds`, `piece_of`), and runs these at once. What the pieces answer is put together by
//! their numbers, and by nothing else, so that a phase gives what one piece that does all gives. `Workers` is what a phase is run by:
//! the runtime, which starts threads, the gate, which each piece passes before its work on an item, and the number of pieces.
//!
//! The layers above use the clauses of `bounds` and `piece_of`, and from `proofs/Cited` that the pieces of a cut, one after another, are
//! the whole. No definition of an answer names workers or pieces.
#![tactic(auto)]

mod cut;
mod workers;

pub use cut::{bounds, piece_of};
pub use workers::Workers;
