//! Class files from listings.
//!
//! A listing is a text with a line for each method, label and instruction of a class. This layer stands on `pv_listing`, whose
//! format says which line a text spells, on `pv_pool` and `pv_class` for the spelling of a class file, and on the kit's
//! `indexmap`. `specs/` says what the class of a listing is:
//! - which entries its lines need in the constant pool, each once and in the order in which it is needed first (`Needs`);
//! - where labels stand (`Labels`), and the bytes of instructions (`Codes`);
//! - which line may stand where and what it adds to the class so far (`Listings`);
//! - which instructions the lines of a method are, with their addresses and the places of their targets (`Instructions`);
//! - the bytes of the class, or the number of the first line that has no reading (`Classes`).
//!
//! `assemble` gives exactly that (`class_of_text`), and `assemble_lines` the same of lines that were read already (`class_of_lines`),
//! unless memory runs out. A listing is taken a line by line: `next` of `draft` is a line's part
//! in the class so far, and it meets the definition of the same name. An entry of the pool is looked up by its bytes, and a label by its
//! name, so the work grows with the length of the text. What no `usize` or int counts, as the address after 2^63 bytes, is answered as
//! out of memory.
#![tactic(auto)]

mod assembler;
mod class;
mod code;
mod draft;
mod fault;
mod labels;
mod laws;
mod opcode;
mod pool;
mod seen;
mod stop;

pub use assembler::{assemble, assemble_lines};
pub use fault::AsmFault;
pub use laws::{
    law_class, law_codes, law_labels, law_line_codes, law_lines, law_methods, law_once,
};
