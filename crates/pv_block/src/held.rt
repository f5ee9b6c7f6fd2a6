//! What is held in a block.

use pv_frame::Sort;
use pv_graph::NodeId;
use pv_list::Listed;

/// A place of the operand stack or a local: its sort, and the node of its value. Where the sort isn't
/// known, no value is, and the node is unit.
#[derive(Clone, Copy, Debug)]
pub struct Cell {
    pub sort: Sort,
    pub node: NodeId,
}

/// What a block has computed before an instruction, with the top of the stack first, and the nodes of
/// unit, of no fault, and of the token where the block begins.
#[derive(Debug, Drop)]
pub(crate) struct Held {
    pub(crate) stack: Listed<Cell>,
    pub(crate) locals: Listed<Cell>,
    pub(crate) heap: NodeId,
    pub(crate) token: NodeId,
    pub(crate) unit: NodeId,
    pub(crate) clear: NodeId,
    pub(crate) start: NodeId,
}
