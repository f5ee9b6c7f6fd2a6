//! Tokens: numbers, texts and digests as words of a line.
//!
//! This layer stands on `pv_format`. A token (`specs/Words`) is a format whose spellings are words: no byte up to the
//! blank. `specs/Tokens` has those of numbers, of texts as they are shown and of digests; what they spell is defined by
//! the standard library's `decimal`, by percent-encoding after the URL Standard, and by hexadecimal digits
//! (`specs/Spellings`). A phrase is words at the front of a line, a sentence all words of a line, and `specs/Lines` makes
//! a line of a sentence.
//!
//! `Token` is the trait of what is one word: its `read` is exactly the reading of its format, and its `push` appends
//! exactly the spelling. `Number`, `Int`, `Long` and `Digest` are tokens; `take`, `read_each` and `read_pairs` read words
//! of any token, and `push`, `push_each` and `push_pairs` write them, each after a blank. `read_shown` and `push_shown`
//! do the same for texts, for which they need memory. `push_decimal` appends a number of any size, which the lines of
//! reports have among other words.
#![tactic(auto)]

mod digest;
mod number;
mod phrase;
mod text;
mod token;

pub use digest::Digest;
pub use number::{Int, Long, Number, push_decimal};
pub use phrase::{push, push_each, push_pairs, read_each, read_pairs, take};
pub use text::{push_shown, read_shown};
pub use token::Token;
