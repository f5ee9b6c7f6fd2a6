//! Rounds of a search.
//!
//! A search has a graph that grows from a least graph, and classes of its nodes that are closed under congruence and all inductions. A round
//! adds an instance of each match that isn't known from the round before, joins its two sides, and closes the classes again.
//!
//! This layer stands on `pv_match`, which lists all matches, on `pv_saturate` and `pv_witness`, which make the instance of a match
//! and the nodes that its conditions need, on `pv_standing`, which says whether a match joins more, and on `pv_classes` and
//! `pv_induct` for the classes. The definition that it meets is `Reached` of `pv_heights`: what a search has after k rounds, which is what
//! is joined at height k of the terms. That the classes are those is shown over `pv_closings`.
//!
//! The layer above uses `Search` (`specs/Searching`): `new` begins over a least graph (`Begins`), by a table of some of the axioms
//! (`AreAxioms` of `pv_axioms`); `look` says that there are more matches than the budget, that none joins more, or gives the list
//! (`Looks`); and `grow` makes a round by that list (`GoesOn`), after which the search stands one height further on. So the last look
//! needs no round.
//!
//! A round keeps the matches that it went by, with the class numbers and the marks of the classes then (`Last`, `specs/Last`). The next look
//! takes them over, and looks at the nodes alone that `pv_touched` gives, by `rematch` of `pv_match`; where more than half of the nodes are new it looks at all of them. That they can be taken over is a part of what a
//! search is (`WasLast` in `IsSearch`), and so is that both sides of each stand in one class, as that round joined them or found them joined: the next
//! round leaves out those whose classes have the same numbers still.
//!
//! The rest is private to this crate. `decoded` decodes the matches (`specs/Decoded`), `known` leaves out those that are known (`specs/Known`), and
//! `standing` tests whether both sides of each stand in one class (`specs/Standing`). Which conditions they ask (`asking`, `specs/Asking`) says which tables of witnesses are made (`tables`,
//! `specs/Tables`), each once a round. `owed` adds the instances one after another (`specs/Owed`), and `joining` joins their sides
//! (`specs/Joining`).
#![tactic(auto)]

mod asking;
mod decoded;
mod joining;
mod known;
mod last;
mod owed;
mod search;
mod standing;
mod tables;

pub use last::Last;
pub use owed::Owed;
pub use search::{Looked, Search};
