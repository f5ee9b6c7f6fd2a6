//! Which nodes a search has to match again.
//!
//! This layer stands on `pv_match`, whose `rematch` takes over the matches that are known from an earlier look and looks at the touched
//! nodes alone, and on `pv_pattern` for the left sides. `touched` gives nodes with which `rematch` can do so (`CanTakeOver` of `pv_match`), where the
//! known matches were all matches at the earlier look (`specs/Earlier`).
//!
//! Whether an axiom matches at a node depends on the classes of its kids, and on the classes below them as far as the left side looks: on
//! which nodes they have, and on what holds of them. So a node is touched where it is new, or where one of these classes changed: it has
//! other nodes than at the earlier look, or another mark. No record is kept of what a round did: the class numbers and the marks of both
//! looks are compared (`changed`). From the classes that changed it goes up to classes that hold a node with a kid in them (`near`), as
//! many steps as the left sides of the table look down, which is computed from the table (`looks`).
//!
//! `specs/Looks` says how far down a pattern looks, and `specs/Far` what stayed. That a match at an untouched node was one at the earlier look is
//! shown in the proofs (`proofs/Before`), and so is that each known match is one still (`proofs/Onward`).
#![tactic(auto)]

mod changed;
mod looks;
mod near;
mod nodes;
mod since;

pub use nodes::touched;
pub use since::Since;
