//! Cases of the layers of methods: frames, flows, the machine, and the roots of methods.
//!
//! Each module has the lines of one layer; `coded` reads a class file and the place of a method that has a code, which these
//! layers and those of `cases_search` require. It stands on `cases_words`, `cases_files`, `cases_graphs` and on these layers.
#![tactic(auto)]

pub mod coded;
pub mod flows;
pub mod frames;
pub mod machine;
pub mod roots;
