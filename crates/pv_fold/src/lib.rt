//! The fold of a decision tree into a graph.
//!
//! This layer stands on `pv_decide`, whose trees it folds, and on `pv_terms`, whose operations add nodes to an
//! open graph. `specs/Fold` says what is given for the leaves and tests of a tree, and what the nodes made
//! stand for. The layer above uses the contract of `fold`: whatever the nodes that are given stand for, each
//! node made stands for what the tree gives there (`ReadsFold`), is of the sort of what was given
//! (`FoldKeepsSort`), and the graph only grows.
#![tactic(auto)]

mod folding;

pub use folding::fold;
