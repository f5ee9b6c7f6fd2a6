//! The nodes that a root waits for: the passes and the ends of calls on the spine of its token in which no depth of a loop is
//! free. These are the nodes that a certificate may assume to end, and those that count as ending in a search.
//!
//! This layer stands on `pv_steps`, whose `MayBeAssumed` (`specs/Right`) says which nodes these are for a token, and on
//! `pv_graph`. The definitions that it meets are in `specs/Endings`: `IsEnding` takes the token from the root.
//!
//! The layers above use `endings`, which lists all of them in order (`AreEndingsOf`), `waits_for`, which tests whether given nodes
//! are among them (`WaitsFor`), and `root_parts` for the kids of a root (`IsRootOver`).
//!
//! The rest is private to this crate. `spine` marks the nodes on the spine of a token by a list of work (`specs/Spine`), and `waiting`
//! tests one node (`specs/Waiting`) on a prepared graph. So both calls prepare a graph once, walk over the spine once, and look 16 times at
//! most at each node.
#![tactic(auto)]

mod listing;
mod root;
mod spine;
mod testing;
mod waiting;

pub use listing::endings;
pub use root::{RootParts, root_parts};
pub use testing::waits_for;
