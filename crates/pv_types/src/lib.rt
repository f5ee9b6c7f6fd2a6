//! What a world tells of types: of which class an object is, and which references fit an array.
//!
//! This layer stands on `pv_value`, whose worlds it reads, and on `pv_list`. A fact is an entry of a world's table of calls, under a symbol that
//! no class file has, so that a method's meaning in all worlds is its meaning for all types of objects. `specs/Facts` has the symbols, when a fact
//! holds, and what changes where one is told.
//!
//! The layers above use `is` and `fits`, which decide a fact, `is_sym` and `fits_sym`, under which conversion asks for it, and `cast_text` and `store_text`, the
//! literals whose objects a failed cast and a failed store throw. `set_is` and `set_fits` tell a fact; after that it holds, and every other call is as it was
//! (`laws`). No command tells facts: the machine and the blocks ask for them.
#![tactic(auto)]

mod facts;
pub mod laws;
mod symbols;

pub use facts::{fits, is, set_fits, set_is};
pub use symbols::{cast_text, fits_sym, is_sym, store_text};
