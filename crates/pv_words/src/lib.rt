//! The words of a command: its flags, its options and its arguments.
//!
//! This layer stands on `clap`, which walks over the words, on `pv_token` for numbers, and on `pv_value` and `pv_list`.
//! The definitions that it meets are `Give` (`specs/Words`) and `IsNumber` (`specs/Numbers`). The word that names the
//! command is not among the words.
//!
//! The layer above uses `read_words`. For a `Shape`, which has the names of the flags and options and the number of
//! arguments, it gives exactly the flags, options and arguments that the words give, and None where they give none
//! (`Reads`). Out of memory is the one error. `number_in` reads the number that is the value of an option, and `u64_in` one of up to twenty digits. `command_line` gives the
//! words of the program's command line, and `command_words` those after the program's name (`after_name`). `laws` says
//! what some words give, and that words give one thing at most.
//!
//! Where clap by itself would do something else:
//!
//! - It would take `--help`, `--version`, and the first word as the name of the program. These are turned off. The
//!   command has no subcommand, so `help` is a word like others. Names are not abbreviated, and no option or flag stands
//!   twice, because clap does both only where it is asked to.
//! - A positional with a fixed number of values must have them in a row. So that options and flags may stand between
//!   arguments, the command of clap has one positional that takes a word at each use, any number of times. The number
//!   of arguments is tested after clap.
//! - It takes an empty value or one that begins with `-` after `--NAME=`, and `-` after `--NAME`. Values are tested
//!   after clap. It takes no other word that begins with `-` as the value of `--NAME`: it reads such a word as a flag.
//! - A flag that isn't given has a value for clap all the same, `false`. That of a flag that is given is `true`.
//! - It takes an empty word and `-` as arguments. These are tested after clap too.
//! - `--` after `--NAME` ends the options for clap as well, and then it refuses the words, because the option has no
//!   value.
//! - It looks for the characters of a word like `-x` among its short flags, and refuses the word because it has none.
//!   A word that is not UTF-8 may have no character, so the proof needs that each word is UTF-8 (`law_texts`).
#![tactic(auto)]

mod command;
pub mod laws;
mod line;
mod number;
mod texts;
mod words;

pub use line::{command_line, command_words};
pub use number::{number_in, u64_in};
pub use words::{Shape, Words, read_words};
