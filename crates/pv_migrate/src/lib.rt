//! Certificates of version 1 are made certificates of version 2.
//!
//! This layer stands on `pv_cert`, which reads certificates of version 1 and writes those of version 2, on `pv_sections` for the longest
//! text of a certificate, the flaws of one and the line that says them, on `pv_report` for what was fetched and what is answered, on
//! `pv_token` for numbers, and on those below them. `specs/Migrated` says what is placed for a text (`IsMigrated`), and what is said of
//! it and how that went (`Migrated`).
//!
//! The layer above uses the clauses of `migrate`: the text and the status are those of the bytes that were fetched (`SaysFetched` of
//! `specs/Reading`), and there is a certificate, which is theirs (`RewritesFetched`), exactly where the status says so. That the
//! certificate is read again in version 2, and is the same one, is a law (`law_kept`), and that a text has one answer is another
//! (`law_once`). No digest is compared with a file, and no section is checked. The rest of `Reading` is private to this crate.
#![tactic(auto)]

mod laws;
mod migration;

pub use laws::{law_kept, law_once};
pub use migration::{Migration, migrate};
