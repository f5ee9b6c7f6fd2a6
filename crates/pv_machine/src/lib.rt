//! The machine: how methods run, how they end, and when two have the same meaning (JVMS 2.6, 6.5).
//!
//! `specs/Machine` is the definition, by cases on what instructions do (`pv_frame`'s actions): values
//! of the operand stack, of which a long is one, locals, and the heap. A method ends with a return or
//! with the first throw; a call that isn't in the table of the world leaves it as it is. `specs/Runs`
//! says what runs keep: a method with typed frames is never stuck but at such a call, and ends in one
//! way. `specs/Callees` says what a run is over callees that are any partial function, and that the
//! meaning of methods in worlds, each with finitely many replies, carries over to these. `laws` has all
//! this as contracts.
//!
//! The code computes the definition: `Program::new` gives the program of a method exactly where
//! `pv_frame` accepts it, `start` and `step` are the definition's, and `run` gives the outcome exactly
//! where the method ends within n steps (`specs/Programs`, `specs/Steps`). Contracts see a program as
//! `pv_frame`'s, and a state as the definition's with the number of values for which its operand stack
//! has memory (`specs/InMemory`). After `State::reserve` a step of a run takes no memory, unless it
//! calls, accesses a field or writes the heap. `Operands`, `Moves`, `Storing` and `Doing` of `specs/`
//! are private to this crate.
//!
//! This layer stands on `pv_value`, `pv_class`, `pv_insn` and `pv_frame`. An action is done in two
//! parts: what it does with its operands is found without changing the state (`actions`, `access`,
//! `branches`, `operations`), and then done as a whole (`effect`), so that the state stays where memory
//! runs out.
#![tactic(auto)]

mod access;
mod actions;
mod branches;
mod effect;
pub mod laws;
mod locals;
mod machine;
mod moves;
mod operations;
mod program;
mod stack;
mod state;
mod types;

pub use machine::{run, step};
pub use program::Program;
pub use state::{State, start};
