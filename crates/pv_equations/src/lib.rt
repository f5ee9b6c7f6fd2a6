//! What the values in a method are, as equations.
//!
//! This layer stands on `pv_graph`, as whose nodes expressions unfold, and takes from `pv_loops` what heads
//! the loops around a block (`Heads`). It speaks of a method as a flow (`specs/Flow`): blocks with tests and
//! exits, and the loops around them, whatever the instructions are. `Exp` has the expressions in which the
//! loops' thetas are names, `Equations` says which expression each slot at each block is, and `Root` gives
//! the root of a method. There is no code: a crate that builds graphs of methods shows that its nodes unfold
//! as the equations say. That such a node has the values with which runs end is the law of `pv_conversion`.
//!
//! The laws are the contracts of `laws`. `law_equations`: the equations have one solution. `law_trees` and
//! `law_free` are what code that builds a graph needs to show that its trees, and its tests for free depths,
//! are those of the equations. The layers above use them, and the lemmas of `proofs/Cited` on walks through
//! a region.
//!
//! To believe an answer `equivalent` nobody has to read these definitions: its statement speaks of the
//! machine alone. They are what the lines `unknown ..` of a report speak of.
#![tactic(auto)]

pub mod laws;
