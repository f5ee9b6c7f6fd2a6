//! From joins to a section of a certificate.
//!
//! This layer stands on `pv_classes`, which says what joins and blocks rest on (`JoinsGround`), on `pv_paths` for paths
//! through joins, on `pv_endings` for the kids of a root and the nodes that it waits for, and on `pv_writer`, which takes right
//! steps alone. The definition that it meets is `Derives` of `pv_steps`.
//!
//! A certificate has a graph of its own, into which the nodes of the search that are needed are copied (`copy_nodes`; `specs/Copies`).
//! For each join a line says by which fact the copies of its two nodes are equal (`specs/Lines`). A line is stated
//! by an axiom, or by the kids, which earlier lines link. Lines on a path are put together by flips and chains. A level is the outside
//! of all inductions, or the inside of one, with the lines of its joins (`specs/Levels`). `explain_all` copies the nodes that are
//! needed, states each join that is needed once, and gives a reason for each pair of nodes that is asked for (`specs/Pairs`). Which
//! joins are needed is marked first, from the last one back (`needed_joins`; `specs/Needed`): those on the paths between the nodes of the
//! pairs, and those on which a marked one rests. A join by an induction rests on joins that link the nodes which its block names, and
//! their kids, as far as all joins before it do: then they link all that the joins inside the block need (`proofs/Thinning`).
//! So the marked joins, in order, have their grounds without the others. Then the nodes are marked (`needed_nodes`;
//! `specs/Named`): those that a marked join names, those that the block of its induction names, with all joins and blocks inside
//! it, and, from the last node back, the kids of each marked one.
//!
//! A join by an induction cites a block. Outside the block each of its pairs is stated at iteration 0; inside it, where the
//! pairs are known, its joins have lines of their own, and so has each pair one iteration later (`specs/Iterations`). The
//! block is written once at a level, for all its pairs. Blocks may lie in blocks: joins and blocks are stated by
//! functions that call each other, down to the innermost block.
//!
//! The layer above uses two calls (`specs/Sections`). `section`: a search that joined two nodes gives a section that derives their
//! equality. `ending_section`: two searches joined the kids of two roots, a plain one the tokens and one with endings the others. They
//! give a section that derives that the roots are equal, with an ending block (`specs/Endings`).
#![tactic(auto)]

mod axiom;
mod conclude;
mod copy;
mod ending;
mod follow;
mod induction;
mod iteration;
mod joins;
mod kids;
mod level;
mod marks;
mod named;
mod needed;
mod source;

pub use conclude::section;
pub use ending::{BothSearches, RootPair, ending_section};
pub use source::Search;
