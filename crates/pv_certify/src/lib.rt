//! The steps of a section for two roots that met.
//!
//! Where two searches found that two roots meet, this layer writes why: steps that derive that the roots are equal, for a section of
//! a certificate. It stands on `pv_prove`, whose searches they are, with the grounds of their joins (`HaveMade`) and the way in which
//! the roots met (`MeetIn`), on `pv_explain`, which turns joins into steps, and on `pv_trim`, which leaves out what nothing needs. The
//! definition that it meets is `Derives` of `pv_steps`, which a checker decides.
//!
//! Roots that are one node need no steps. Roots that the plain search joined are explained by its joins alone. Of roots whose kids met
//! the tokens are explained by the plain search, and the other kids by the search with endings, inside a block that assumes these to
//! end.
//!
//! The layer above uses `certify`: the steps derive (`derives`), each is the last or is cited by a later one (`lean`), and each has a
//! spelling (`spelled`). It takes the search itself (`find` of `pv_prove`, with its limits and its table) from here too.
#![tactic(auto)]

mod steps;

pub use pv_prove::{AxiomSet, Found, Limits, Outcome, axioms_in, find};
pub use steps::certify;
