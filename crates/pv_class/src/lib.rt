//! Class files (JVMS 4).
//!
//! This layer stands on `pv_format`, which has grammars of bytes and readers of single items, on
//! `pv_pool`, which reads the constant pool, on `pv_list`, which has lists, and on `pv_value`, which
//! reads descriptors. It reads a class file front to back (JVMS 4.1, 4.5 to 4.7.3): it keeps the pool
//! and the methods with their Codes, and of all else it tests what `ClassFiles` asks.
//!
//! `specs/` holds what this meets, in the terms of the standard:
//! - a class file by the spelling of its items and what they must be (`Items`, `ClassFiles`);
//! - the fault of every other file, that of the first item that fails (`ClassFaults`), by the grammar
//!   of class files (`Grammars`, `Checks`, `ClassGrammar`), in which each test holds the law that it
//!   tells its fact (`CheckLaws`).
//!
//! Methods keep their places by name and descriptor, by which reading sees that no two are the same: `Methods::place_of`
//! gives the place of a method (`Places`).
//!
//! The proofs join the spelling to the grammar by what a grammar spells (`Spells` of `pv_format`), put
//! together as the grammar is; `takes_class` and `class_taken` of `proofs/ClassAgrees` say that both mean
//! the same files. The layers above
//! use the clauses `exact` and `only` of `read_class`: its answer is right, and no other is
//! (`Answers`). They use that a file has one answer (`answer_once` of `proofs/Outcomes`), and that its
//! codes are of bytes (`class_bytes` of `proofs/CodeBytes`). `Reading` and `Deciding` are private to
//! this crate.
#![tactic(auto)]

mod class;
mod code;
mod fault;
mod file;
mod items;
mod member;
mod methods;
mod reading;
mod room;
mod seen;
mod signature;
mod table;

pub use class::{LONGEST_FILE, read_class};
pub use fault::{ClassFault, PoolWord};
pub use file::{ACC_STATIC, ACC_SYNCHRONIZED, ClassFile, Code, Method};
pub use methods::Methods;
pub use pv_pool::{Entry, Pool};
