//! Drawings of the least graph of two methods: what the program `graphs` does.
//!
//! This layer stands on `pv_report`, which reads two class files into a pair, finds the partner of a method and makes the least
//! graph of two methods' roots, on `pv_drawings`, which writes a graph as a text, on `pv_words` and `pv_token` for the words of
//! the command line, on `pv_base`, from which the files come and to which the text goes, and on those below them. `specs/` says
//! which words ask for what (`Requests`), what is said of the bytes of two files (`Drawn`), and what the program says, asks and
//! answers (`Run`).
//!
//! `main` uses the clauses of `run`: what is said and with which status (`answered`), what is asked of the files (`asked`), and that
//! nothing changes there (`held`). The bytes of two files determine the text and the status, since two methods have one least graph
//! (`law_drawn`). `Reading` is private to this crate.
#![tactic(auto)]

mod answer;
mod laws;
mod request;
mod top;

pub use answer::{Signature, draw};
pub use laws::law_drawn;
pub use pv_report::Status;
pub use request::Form;
pub use top::run;
