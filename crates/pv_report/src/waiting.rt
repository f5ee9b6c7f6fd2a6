//! The nodes for which a root waits: those that count as ending in a search.

ghost use Rattle.std.specs.Prelude.{IfOk, IsTrue};
ghost use Rattle.pv_endings.specs.Endings.{AreEndingsOf};
ghost use Rattle.pv_report.specs.Waiting.{IsOverUnit};

use pv_endings::{endings, root_parts};
use pv_graph::{Graph, NodeId, Op};
use pv_value::Memory;
use std::alloc::Global;

/// The nodes for which a root waits, in order. Where its token is a unit there are none, and the graph isn't copied to look for them. Out
/// of memory is the one error.
pub(crate) fn endings_of(alloc: Global, graph: &Graph, root: NodeId) -> Result<Vec<NodeId>, Memory>
    ensures { IfOk result (λ nodes. AreEndingsOf graph.now root nodes.items) }
{
    if is_over_unit(graph, root) {
        return Ok(Vec::new(alloc));
    }
    endings(alloc, graph, root)
}

// Whether a node is a root over a unit.
fn is_over_unit(graph: &Graph, root: NodeId) -> bool
    ensures { IsTrue result → IsOverUnit graph.now root }
{
    match root_parts(graph, root) {
        Some(parts) if parts.token < graph.len() => {
            matches!(&graph.node(parts.token).op, Op::Unit)
        }
        _ => false,
    }
}
