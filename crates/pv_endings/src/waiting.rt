//! Whether a node may be assumed to end, on a prepared graph.

ghost use Rattle.std.specs.Prelude.{◌≡◌, ◌↔◌, ◌<◌, IsTrue, Some, length, slice_get, true};
ghost use Rattle.pv_graph.specs.Calls.{IsFree};
ghost use Rattle.pv_graph.specs.Reach.{IsMarked};
ghost use Rattle.pv_endings.specs.Waiting.{IsClosedBelow, MayBe, Waits};

use pv_graph::{Graph, NodeId, Op};

// Whether node n is a pass or the end of a call.
pub(crate) fn waits(graph: &Graph, n: NodeId) -> bool
    requires { n < length graph.now.nodes }
    ensures { IsTrue result ↔ Waits graph.now n }
{
    matches!(graph.node(n).op, Op::Pass(_) | Op::CallEnd(_))
}

// Whether no depth of a loop is free in node n.
fn is_closed(graph: &Graph, n: NodeId) -> bool
    requires prepared { graph.now.is_prepared ≡ true }
    requires there { n < length graph.now.nodes }
    ensures { IsTrue result ↔ IsClosedBelow graph.now n 17 }
{
    for depth in 1..17 {
        if graph.free_now(n, depth) {
            return false;
        }
    }
    true
}

// Whether node n is marked.
pub(crate) fn is_marked(marks: &[bool], n: NodeId) -> bool
    ensures { IsTrue result ↔ IsMarked marks.now n }
{
    matches!(marks.get(n as usize), Some(true))
}

// Whether node n waits, no depth is free in it, and it is marked.
pub(crate) fn may_be(graph: &Graph, spine: &[bool], n: NodeId) -> bool
    requires { graph.now.is_prepared ≡ true }
    ensures { IsTrue result ↔ MayBe graph.now spine.now n }
{
    if n >= graph.len() {
        return false;
    }
    waits(graph, n) && is_closed(graph, n) && is_marked(spine, n)
}
