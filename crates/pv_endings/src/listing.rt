//! All nodes that a root waits for, in order.

ghost use Rattle.std.specs.Prelude.{◌≡◌, ℕ, IfOk, true};
ghost use Rattle.std.specs.Bool.{OnFalse};
ghost use Rattle.pv_graph.specs.Reach.{IsMarked};
ghost use Rattle.pv_endings.specs.Endings.{AreEndingsOf};
ghost use Rattle.pv_endings.specs.Spine.{IsSpine};
ghost use Rattle.pv_endings.specs.Waiting.{AreWaitingOn, Waits};

use crate::root::root_parts;
use crate::spine::spine_of;
use crate::waiting::{is_marked, may_be, waits};
use pv_graph::{Graph, NodeId};
use pv_value::Memory;
use std::alloc::Global;

// Whether a marked node is a pass or the end of a call.
fn any_waits(graph: &Graph, spine: &[bool]) -> bool
    ensures { OnFalse result ((n : ℕ) → Waits graph.now n → IsMarked spine.now n → ⊥) }
{
    for n in 0..graph.len() {
        if waits(graph, n) && is_marked(spine, n) {
            return true;
        }
    }
    false
}

// The nodes that may be assumed to end for a token, whose spine is marked, on a prepared graph.
fn waiting_on(alloc: Global, graph: &Graph, spine: &[bool]) -> Result<Vec<NodeId>, Memory>
    requires { graph.now.is_prepared ≡ true }
    ensures { IfOk result (λ nodes. (token : ℕ) → IsSpine graph.now.nodes token spine.now → AreWaitingOn graph.now token nodes.items) }
{
    let mut nodes = Vec::new(alloc);
    for n in 0..graph.len() {
        if may_be(graph, spine, n) {
            nodes.push(n)?;
        }
    }
    Ok(nodes)
}

/// The closed passes and ends of calls on the spine of the token of a root, in order; none where the node is no root.
/// Its time is linear in the number of nodes and kids. Where there are passes or ends of calls on the spine it takes the memory of a copy of the
/// graph, to look up which are closed. Out of memory is the one error.
pub fn endings(alloc: Global, graph: &Graph, root: NodeId) -> Result<Vec<NodeId>, Memory>
    ensures { IfOk result (λ nodes. AreEndingsOf graph.now root nodes.items) }
{
    let _len = graph.len();
    let Some(parts) = root_parts(graph, root) else {
        return Ok(Vec::new(alloc));
    };
    let spine = spine_of(alloc, graph, parts.token)?;
    if !any_waits(graph, &spine) {
        return Ok(Vec::new(alloc));
    }
    let mut copy = graph.copy(alloc)?;
    copy.prepare(alloc)?;
    let nodes = waiting_on(alloc, &copy, &spine)?;
    Ok(nodes)
}
