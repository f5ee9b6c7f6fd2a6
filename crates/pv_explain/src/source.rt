//! What a search made, and its copy.

use pv_classes::{Block, Join};
use pv_graph::{Graph, NodeId};

/// What a search made: its graph, the blocks of the inductions that its joins cite, and its joins, in order.
#[derive(Clone, Copy)]
pub struct Search<'a> {
    pub graph: &'a Graph,
    pub blocks: &'a [Block],
    pub joins: &'a [Join],
}

/// A graph, and for each of its nodes the copy in the certificate's graph, if it has one.
#[derive(Clone, Copy)]
pub(crate) struct Source<'a> {
    pub(crate) graph: &'a Graph,
    pub(crate) map: &'a [Option<NodeId>],
}
