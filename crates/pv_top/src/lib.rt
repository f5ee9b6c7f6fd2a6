//! The commands of the validator.
//!
//! This is the highest layer: `main` calls `run`. It stands on `pv_words`, which reads the words of a command by its shape, on
//! `pv_report`, which says what there is to say of two files, on `pv_sections`, which says it of a certificate for them and
//! gives the certificate of what is shown, on `pv_links`, which makes chains of certificates and says it of them, on `pv_migrate`, which makes certificates of version 1 ones of version 2, on `pv_differences`, which says what runs of their methods show, on `pv_maker`, which makes classes of random methods, on `pv_base`, from
//! which the files come and to which the text goes, and on those below them. `specs/` says which words are a command, what it fetches and under which names it places something (`Words`),
//! what the promise is (`Promise`), and what a command answers and `run` leaves (`Run`). A command is a variant of `Command`:
//! what it is follows by cases from its rows in `AreOf`, `fetches`, `placed_names`, `IsAnswer` and `IsPlaced`, and `run` has one
//! sequence for all.
//!
//! `main` uses the clauses of `run`: each whole line `.. equivalent` that the sink took is true (`equivalent`), what is said
//! and with which status (`answered`), and what was asked of the outside (`asked`, `held`). `Commands` and `Fetching` are
//! private to this crate.
#![tactic(auto)]

mod top;
mod words;

pub use pv_report::Status;
pub use top::run;
pub use words::{Command, DEFAULT_BUDGET, DEFAULT_ROUNDS, DEFAULT_STEPS, DEFAULT_TRIES};
