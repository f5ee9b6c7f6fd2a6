//! Cases of the layers that read class files, and of those that make them: pools, classes, codes and listings.
//!
//! Each module has the lines of one layer; `samples` makes class files of methods, and `spelling` is the way back
//! from instructions to bytes. It stands on `cases_words` and on the layers up to `pv_class` and `pv_maker`.
#![tactic(auto)]

pub mod classes;
pub mod codes;
pub mod listings;
pub mod pools;
pub mod samples;
pub mod spelling;
