//! The lines of listings: texts of which a class file is made.
//!
//! This layer stands on `pv_format` and `pv_token`, of whose formats it makes its own, on `pv_value`, `pv_pool` and
//! `pv_class` for what is a name and a descriptor, and on `pv_insn`, whose table of opcodes says what is written after each
//! mnemonic. `specs/` says the mnemonics (`Mnemonics`), the words of a listing (`WordReading`, `Words`), what is written after a
//! mnemonic (`Operands`), and the lines (`Lines`): the class, the head of a method, a label, an instruction, the end of a method. A format holds
//! its laws (`Further` has what is made here of smaller formats), so what a reader has to believe are the spellings.
//!
//! `read_line` reads a line without its line feed: its clause says that it gives what the format of lines reads, which is the
//! line whose one spelling the text is, or none. Which line may stand where is the business of the layer that reads a
//! whole listing.
#![tactic(auto)]

mod line;
mod mnemonic;
mod name;
mod number;
mod operands;
mod reading;

pub use line::{First, Line, Operands, Title};
pub use mnemonic::{Kind, kind_of, opcode_of};
pub use reading::read_line;
