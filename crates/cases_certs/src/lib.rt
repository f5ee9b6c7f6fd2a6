//! Cases of certificates.
//!
//! `certs` has the lines of `pv_cert`, and `sections` those of `pv_check`. It stands on `cases_words`, `cases_files` and on
//! these layers.
#![tactic(auto)]

pub mod certs;
pub mod sections;
