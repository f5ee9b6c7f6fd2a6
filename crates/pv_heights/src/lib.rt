//! What the verdict of a search is, and why a search on nodes finds it. There is no code here but functions that state laws.
//!
//! This layer stands on `pv_axioms` and the crates below it. The verdict on the two roots of a least graph, by a table of axioms and
//! limits on rounds and matches, is defined over terms, whatever a program does. A term is a node of the graph or an operation over terms.
//! At height 0 the terms are the nodes, and those are joined that congruence and inductions join. The next height has the
//! right sides of all matches too, and joins both sides of each. `specs/` says this in the order to read:
//! - `Systems`: things with an operation and kids, and which of them are joined (`Joined`), inductions one in another included.
//! - `Filled`, `Sides`, `Conditions`: the side of an axiom with its names filled in, in which class of things it stands, and which
//!   classes are settled, or have a depth that isn't free in them.
//! - `Matches`: matches, when two are one, and how many there are.
//! - `Terms`, `Heights`: the terms of each height, and what is joined there.
//! - `Verdicts`: the least height that decides, and the verdict (`IsVerdict`).
//!
//! A search works on the nodes of a graph that grows, with a class number for each node:
//! - `Rounds`, `Searches`: what a round adds and joins (`IsRound`), what a search has after some rounds (`Reached`), and what two
//!   searches, one of which counts some nodes as ending, answer (`Answers`).
//! - `Closing`: how a closing with inductions runs.
//! - `SameClasses`: two systems with the same classes. The terms of a height and the nodes of a search are such a pair, which is what the
//!   proofs show, height by height.
//!
//! The laws (`laws`, `Laws`) are what the layers above use. A round by a list of all matches, with the joins of its pairs and a closing
//! with all inductions, takes a search to the next height (`law_rounds`). A list of all matches, each once, is as long as there are
//! matches, and no match joins more exactly where both sides of each listed one stand in one class (`law_matches`). What two
//! searches answer is the verdict (`law_search`), and a question has one verdict (`law_verdict`), so a line that is printed for it is
//! determined. `proofs/Cited` has the lemmas that proofs of other crates cite, and `proofs/Examples` small questions with their verdicts.
#![tactic(auto)]

pub mod laws;
