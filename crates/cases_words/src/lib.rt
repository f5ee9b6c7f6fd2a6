//! What lines of cases say: names for bytes, numbers, and answers; and the calls of `pv_value`.
//!
//! `bench` reads the words of a line, `answers` writes what a call answers, and `values` reads and writes names,
//! numbers, places and outcomes. The libraries of cases stand on this one, and the program `cases` on all of
//! them. It stands on `pv_value`.
#![tactic(auto)]

pub mod answers;
pub mod bench;
pub mod values;
