//! A section of a certificate, as it is written.
//!
//! This layer stands on `pv_steps`, which says when steps are right, and on `pv_axioms`. The definition that it meets is
//! `AllRight` of `pv_steps`: a `Writer` begins with a sealed graph and takes one step after another, each of which is right
//! after those before it, so it can't hold a wrong step (`specs/Written`, `IsWritten`). It keeps the graph that its
//! node steps make.
//!
//! The layer above, which turns what a search joined into steps, uses these calls. `node` gives the number of an operation over
//! kids, and adds the node where there is none. `push` takes any other right step. `axiom`, `flip`, `chain` and
//! `congruence` take the steps that state one equality, and give the fact that names it. What facts show stays, as
//! long as the blocks around them are open (`IsLater`, `GoesOn`).
#![tactic(auto)]

mod writer;

pub use writer::Writer;
