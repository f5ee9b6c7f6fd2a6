//! All inductions over the iterations of loops, each with its block.
//!
//! This layer stands on `pv_classes`, which has the classes of nodes, their joins and blocks, and says what these rest
//! on (`Grounds`), and on `pv_graph`. Two thetas of one depth are equal where their first kids are, and where
//! their second kids are equal if the thetas are; and so for many pairs at once. That is an induction over the
//! iterations of loops of this depth. Inside it stand its pairs, all that is joined outside, and inductions over greater
//! depths, but no kids of thetas, evals, passes and shifts of its depth are compared.
//!
//! The definition that it meets is `Joined` (`specs/Joined`): what may be joined by what is given, by equal kids, and by
//! inductions, one inside another to any depth.
//!
//! The layer above uses the one clause of `induct` (`specs/Inducts`): the classes after it are exactly those of `Joined`; each
//! new join has its ground, and each induction its block; where joins were of nodes of one sort, they still are, and so
//! are the pairs of inductions; and the answer says whether anything was joined.
//!
//! The rest is private to this crate. `level` closes the classes and looks for an induction at each depth above the fixed ones,
//! until there is none. At first a part of the thetas of the depth (`theta`) is made of those with joined first
//! kids. Inside an induction with all pairs of all parts, a part is split by the classes of the second kids
//! (`part`, `first`), until no part is split. What is left is the greatest induction over the depth. `Levels`, `Parts`,
//! `Thetas` and `Seen` are the definitions of that: how classes grow at a level, how parts are split, the thetas
//! of a graph, and the map by which the first of each part is found.
#![tactic(auto)]

mod first;
mod inductions;
mod level;
mod part;
mod theta;

pub use inductions::induct;
