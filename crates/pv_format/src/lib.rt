//! Formats of texts, and grammars of bytes: what a value is spelled as, and how it is read again.
//!
//! This layer stands on `pv_value`, for what it says when memory runs out, and on `byteorder`. A format (`specs/Formats`) says which values have a spelling, what that is and how a
//! text is read, and it holds the laws that these agree: what is spelled is read again, nothing else is read, and each
//! spelling is a proper text of its kind. A `Format` is for a whole text, and a `Front` for what stands at the front of
//! one; the kind of text is any, as a word of bytes, a line of words or a text of lines. `specs/Combinators` and
//! `specs/Choices` make formats of formats: one symbol, one after the other, lists, pairs, a choice by the first symbol,
//! parts with a separator between them, the lines of a text, one of several names. Each of their laws is composed there
//! once and for all (`FormatLaws`, `SplitLaws`, `ChoiceLaws`), so that what an upper layer says of its own spellings is
//! proved where it is made. Where a text is at fault, and at which place, is the business of the layer that reads it.
//!
//! A grammar (`specs/Grammars`) is for bytes whose items say what comes after them, and for readers that name the first
//! item at fault. It is data over any type of faults: an item of so many bytes, a test with what it tells (`Test`), how
//! many bytes are left. Once and for all grammars: `read` (`specs/GrammarReading`) gives what the grammar takes, or the fault
//! by which it stops, and nothing else (`read_law` of `proofs/GrammarReadings`); it reads part by part
//! (`proofs/GrammarParts`); and what it takes spells an item, if its parts do. `Spells` of `proofs/Spellings` says so of a
//! grammar, the text of an item, what the item must meet and what is read of it, and is composed as the grammar is;
//! `IsTexts` of `proofs/GrammarTexts` says it by any relation of texts and values. An upper layer defines its grammar, says
//! in the contract of a reader that it gives what `read` gives, and joins the grammar to its own spelling of items by one of
//! these. A grammar that checks nothing (`IsFree` of `specs/FreeGrammars`) only stops where the bytes end, and then there are
//! more bytes with which it takes them all (`complete` of `proofs/FreeGrammars`). What such a grammar takes are its items one
//! after the other, and it stops where the bytes end within one (`proofs/GrammarItems`).
//!
//! The code cuts texts: `words_of` and `lines_of` read by the formats `parts blank` and `lines`, and `cut_at` cuts once
//! (`specs/Splits`). It reads single items of bytes, as `u16_at` (`specs/ByteReading`), and has the form of answer of every
//! reader of bytes: a value, or `Stopped`, which says that the bytes have a fault or that memory ran out (`Gives` of
//! `specs/Stopping`). Upper layers use these clauses, and cite `proofs/Cited`.
#![tactic(auto)]

mod front;
mod split;
mod stopped;

pub use front::{run_at, u8_at, u16_at, u32_at, u64_at};
pub use split::{cut_at, lines_of, words_of};
pub use stopped::Stopped;
