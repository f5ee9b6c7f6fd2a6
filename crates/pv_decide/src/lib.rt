//! Decision trees: by which exits walks through a region of a method get to a target, and after which tests.
//!
//! This layer stands on `pv_flow`, which has the blocks of a method and their exits, on `pv_loops`, which has
//! the forest of its loops, and on the equations of `pv_equations`, whose trees it makes without their
//! values. The layer above uses `Trees`: `Trees::new` keeps what all walks through the blocks of a method
//! need, and `walk` gives the tree of a region, the whole method or a loop, for a target: a block, the edges
//! back to the header, the ends of the method, its returns, or whether the loop is left.
//!
//! A tree has leaves, which name a block and one of its exits, tests, which name a block and one of its tests,
//! `Nothing` where no walk gets to the target, and `Dead` where neither the target nor an end of the method is
//! ahead at all. A tree serves all slots of the equations. `specs/Folds` says what folding it gives, where it
//! is known what leaves and tests give; `specs/Walks` says what they give in the equations, the token `never` at
//! `Dead` among it; and `IsTreeOf` of `specs/Trees` is the contract of `walk`: folded so, the tree is the tree
//! of the equations, for each flow of equations over these blocks and loops, all values with the trees of the
//! equations, and each slot. `IsSound` says which nodes there are: each names earlier ones alone, the last is the
//! root, leaves are exits to the target or ends that are looked for, and leaves and tests are of blocks of the
//! region, and before the target where that is a block, so that values can be found block by block. What is
//! asked of a flow and its forest is `AreForWalks`.
//!
//! A walk goes over the blocks from the last to the first, in the order that the forest hands out, in which an
//! edge goes to a later block, or back to the header of a loop around its own. So when it comes to a block, it
//! has the place in the tree of each block to which the walk may go on: the chain of a block is made once, and
//! nothing recurses (`walking`). `landing` says where an exit gets to, seen from the region, and `reaching`
//! sweeps over the blocks from which no end of the method is known to be ahead, until nothing changes. A walk
//! takes time in proportion to the blocks of the method and the exits of the region, each of which is looked up
//! among at most 16 headers, and for each sweep to the exits of blocks from which no end is ahead.
//! `specs/Placing`, `specs/Landings` and `specs/Reaching` say what these find, and are private to this crate.
#![tactic(auto)]

mod aim;
mod landing;
mod reaching;
mod site;
mod tree;
mod trees;
mod walking;

pub use aim::Scope;
pub use tree::{Region, Target, Tree, TreeNode};
pub use trees::Trees;
