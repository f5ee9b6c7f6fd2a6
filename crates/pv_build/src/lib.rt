//! From a method to the root of its graph.
//!
//! This layer stands on `pv_layout`, which finds a method's blocks, its loops and what each carries, on `pv_block`, which
//! runs a block on nodes, on `pv_decide`, whose trees say by which exits a block is reached, on `pv_fold`, which folds a tree, and on
//! `pv_terms`, which ties thetas.
//!
//! The blocks are taken in the order of the forest, in which those of a loop stand together, one
//! after another (`building`). What is held where a block is entered is what the method is given (`starting`), or
//! slot by slot the fold (`entering`) of the tree of the region that the block is in, over what holds at the exits
//! of earlier blocks (`giving`), taken out of the loops that they leave (`taking`). At the header of a loop each slot
//! that the loop carries becomes a theta (`opening`); after its last block it is known whether the loop
//! is left, and the thetas are tied (`closing`). The root is over the folds of the trees of the method's ends
//! (`ending`). `specs/Stages` has the invariant, `IsStage`: what is made of a method stands for what the equations
//! say, each theta has its kids or is one of an open loop, and no node from before a loop leads into it. The other
//! files of `specs/` but for `Unfolded`, `Conversion` and `Reasons` are private to this crate too.
//! `proofs/Lib` lists the lemmas pass by pass, in this order; `proofs/Words` brings them the words of which they speak.
//!
//! The layer above uses `convert`: its root unfolds as whatever solves the equations of the method's flow
//! says (`IsRootOf` in `specs/Conversion`), so that by the law of `pv_outcomes` it has the outcomes of the
//! method; or it gives the cause why the method has no root, those of `pv_frame` before those of its blocks.
#![tactic(auto)]

mod building;
mod closing;
mod conversion;
mod ending;
mod entering;
mod giving;
mod method;
mod opening;
mod slot;
mod source;
mod starting;
mod taking;

pub use conversion::convert;
