//! The matches of axioms over the classes of a graph's nodes.
//!
//! This layer stands on `pv_pattern`, which says what an axiom is, on `pv_classes` for the classes, on `pv_marks` for what holds of a
//! class, on `pv_pieces` for how nodes are cut into pieces that run at once, and on `pv_base` for the gate. The definition that it meets
//! is that of `pv_heights`: `matches` gives a list of all matches (`AreAllAt`), each once and in order, or says that there are more than
//! a limit (`AtLeastAt`). `specs/AllMatches` says so of the program's `Match`, with its parameters (`specs/Parameters`). `specs/Reading`
//! says which left sides are read; each axiom's is (`law_table`).
//!
//! The functions of this crate speak of class numbers: `specs/Standing` says when a side of an axiom stands in a class, `specs/Matches`
//! what a match is, and `specs/All` which matches start at some nodes. That these are the matches of `pv_heights` is shown in the proofs.
//! `law_pieces` says that the matches at two pieces of the nodes are those at both.
//!
//! `rematch` gives what `matches` does, where matches are known from an earlier look. `specs/Rematching` says when they can be taken over
//! (`CanTakeOver`): each is a match still, with the class of now for each of its classes, and each match that is none of them starts at a touched
//! node. So it looks at the touched nodes alone, and puts the known matches beside those that start there. A list of all matches can be taken over while
//! nothing is touched (`law_known`).
//!
//! How it goes: of the nodes of a class that have one form, which is an operation over the classes of kids, the first is kept (`kept`). They all
//! match the same patterns, and when classes are closed many are of one form, so without this the work would multiply. The nodes that are kept are
//! grouped by their classes and the numbers of their operations (`members`), and the axioms by those of their heads (`rules`). A left
//! side is read along a node and the classes of its kids (`reader`), which gives bindings (`binding`): a node for each name, and a class
//! for each variable. A binding of the whole left side whose conditions hold is a match (`matching`). The nodes at which a left side may
//! begin are cut into consecutive pieces, which run at once over the same graph, classes and table (`finder`). Each gathers its matches
//! in a set, so each is there once, and stops as soon as its set has one more than the limit. Its set becomes an ordered list, in which
//! each match is once (`gathered`). The lists are merged in the order of the pieces, two at a time. Since pieces are consecutive, their lists
//! interleave in few runs, and a run is moved as a whole after few comparisons (`merge`, `together`).
//! No clause names workers or pieces: the answer is the same for every number of them.
#![tactic(auto)]

mod all;
mod binding;
mod finder;
mod found;
mod gathered;
mod heads;
mod kept;
pub mod laws;
mod matching;
mod members;
mod merge;
mod reader;
mod renumbered;
mod rules;
mod shown;
mod together;

pub use all::{matches, rematch};
pub use found::{Match, Matches, Param};
