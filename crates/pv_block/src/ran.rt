//! What a block leaves: its tests, and what is held at its exits.

use crate::held::Cell;
use pv_graph::NodeId;
use pv_list::Listed;

/// What is held where a block begins, or where it goes on to another: the operand stack with its top
/// first, the locals, the heap and the token.
#[derive(Debug, Drop)]
pub struct State {
    pub stack: Listed<Cell>,
    pub locals: Listed<Cell>,
    pub heap: NodeId,
    pub token: NodeId,
}

/// What is held where the method ends.
#[derive(Clone, Copy, Debug)]
pub struct Ending {
    pub token: NodeId,
    pub fault: NodeId,
    /// The value that is returned; unit where none is, or where the method throws.
    pub result: NodeId,
    pub heap: NodeId,
}

/// How a block is left.
#[derive(Debug, Drop)]
pub enum Leaving {
    /// On to the block that begins at this place.
    Goes(u32, State),
    Returns(Ending),
    Throws(Ending),
}

/// The tests of a block, each an int that is 1 where the block is left by the exit of its place, and its
/// exits, one more than tests.
#[derive(Debug, Drop)]
pub struct Ran {
    pub tests: Vec<NodeId>,
    pub exits: Vec<Leaving>,
}
