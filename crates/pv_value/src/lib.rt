//! Values of the virtual machine: names, numbers and the operations on them, heaps, worlds, inputs
//! and descriptors.
//!
//! This layer stands on `pv_list` alone, which has lists. `specs/` holds what the values mean:
//!
//! - `Operations`: the 33 operations on ints and longs, what each takes and gives, and its value
//!   (JVMS 6.5). `scalar` meets it.
//! - `Heaps`: a heap is a finite map from locations to numbers other than 0. `Heap` is seen as that
//!   map, and `Heap::law_ranges` says that its numbers are in the ranges of their types.
//! - `Worlds`: a world is five tables. `World` has a call for each reader and each change.
//! - `Narrowing`: how the heap keeps a value of a type, and what is read as a type. `JType::narrow`,
//!   `Num::as_type`, `Heap::read_as`, `Heap::write_as` and the places of `World` meet it.
//! - `Inputs`: what fits a descriptor.
//! - `Descriptors`: the grammar of JVMS 4.3, by which a text is a descriptor of at most one type
//!   (`Once`), which the functions of `Spelled` find too. `read_field_type` and `read_descriptor`
//!   find the type of each text that the grammar has, and find none in any other, in a stack that
//!   doesn't grow with the text. The grammar sets no limit on the dimensions of an array or the
//!   number of parameters: that is the caller's.
//!
//! - `Receivers`: the symbol under which a call on a receiver is looked up, and its type. `receiver_sym`
//!   and `Descriptor::with_receiver` meet it.
//!
//! `laws` has the laws of these definitions as contracts. `Reading`, `HeapOrder` and `HeapTables`
//! are for the proofs of this crate. The layers above see a name as its bytes, a list of numbers or
//! types as a list, a heap as its map and a world as its tables.
#![tactic(auto)]

mod descriptor;
mod heap;
mod int;
pub mod laws;
mod long;
mod memory;
mod name;
mod narrowing;
mod number;
mod operation;
mod outcome;
mod receiver;
mod tables;
mod world;

pub use descriptor::{Descriptor, JType, read_descriptor, read_field_type};
pub use heap::{Heap, Kind, Loc};
pub use memory::Memory;
pub use name::{Name, Sym};
pub use number::Num;
pub use operation::{ScalarOp, scalar};
pub use outcome::{Fault, Input, Outcome, Val};
pub use receiver::{Form, MARK, receiver_sym};
pub use tables::{Booleans, Homes, Lengths, Literals};
pub use world::{Call, CallKey, Calls, World};
