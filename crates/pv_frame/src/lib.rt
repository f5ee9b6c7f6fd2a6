//! Typed frames of methods, and the causes for which methods are refused.
//!
//! A method's code is read into what its instructions do (`Action`), by one table from an
//! instruction and what it names in the constant pool (`specs/Actions`), so that the layers above
//! know neither opcodes nor the pool. A `Program` is those actions with the method's type and its
//! limits (`specs/Programs`). Operand stacks and locals are one text for numbers and for sorts
//! (`specs/Stacks`, `specs/Effects`); frames are the sorts before each instruction, and agree along
//! each edge (`specs/Frames`). `specs/Causes` has the causes in their order.
//!
//! Frames are inferred from the entry along edges, place by place: `specs/Inferring` says what holds
//! of the frames so far. It, `Acting`, `Stops` and `Rows` are private to this crate.
//!
//! This layer stands on `pv_value`, `pv_list`, `pv_pool`, `pv_insn` and `pv_class`. The layers above use
//! `infer`: it is Ok exactly where the method is accepted, with its program and the frames that have
//! the fewest unknown locals, and else names the first cause and its address (`specs/Answers`). They
//! take from here too what a move takes from a stack (`Part`), the sorts of numbers, types and kinds, and
//! those that actions ask for.
#![tactic(auto)]

mod acting;
mod action;
mod cause;
mod effect;
mod flow;
mod frame;
mod inference;
mod plain;
mod program;
mod sort;
mod spreading;
mod stack;
mod stop;
mod typed;
mod used;

pub use action::{Action, Comparison, Move, Test};
pub use cause::{Cause, CauseKind, Refused};
pub use effect::{
    asked_sorts, parameter_sorts, sort_of, sort_of_kind, sort_of_type, takes, value_sort,
};
pub use frame::Frame;
pub use inference::{LONGEST_CODE, MOST_SLOTS, infer};
pub use program::Program;
pub use sort::Sort;
pub use stack::{Part, fits, has_room, is_wide};
pub use typed::Typed;
pub use used::Use;
