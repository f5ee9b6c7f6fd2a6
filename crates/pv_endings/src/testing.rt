//! Whether a root waits for given nodes.

ghost use Rattle.std.specs.Prelude.{◌≡◌, ◌↔◌, ◌<◌, IfOk, IsTrue, length, true};
ghost use Rattle.std.specs.List.{AllByRecursion};
ghost use Rattle.pv_graph.specs.Calls.{IsSame};
ghost use Rattle.pv_steps.specs.Right.{MayBeAssumed};
ghost use Rattle.pv_endings.specs.Endings.{WaitsFor};
ghost use Rattle.pv_endings.specs.Waiting.{MayBe};

use crate::root::root_parts;
use crate::spine::spine_of;
use crate::waiting::may_be;
use pv_graph::{Graph, NodeId};
use pv_value::Memory;
use std::alloc::Global;

fn all_may_be(graph: &Graph, spine: &[bool], nodes: &[NodeId]) -> bool
    requires { graph.now.is_prepared ≡ true }
    ensures { IsTrue result ↔ AllByRecursion (MayBe graph.now spine.now) nodes.now }
{
    for n in nodes {
        if !may_be(graph, spine, *n) {
            return false;
        }
    }
    true
}

// Whether all nodes may be assumed to end for a token. It prepares the graph.
fn all_wait(
    alloc: Global,
    graph: &mut Graph,
    token: NodeId,
    nodes: &[NodeId],
) -> Result<bool, Memory>
    requires { token < length graph.old.nodes }
    ensures all { IfOk result (λ yes. IsTrue yes ↔ AllByRecursion (MayBeAssumed graph.old token) nodes.now) }
    ensures same { IsSame graph.old graph.new }
{
    graph.prepare(alloc)?;
    let _ = graph.len();
    let spine = spine_of(alloc, graph, token)?;
    Ok(all_may_be(graph, &spine, nodes))
}

/// Whether p is a root, and each of these nodes is a closed pass or end of a call on the spine of its token. The graph stays the
/// same, but it is prepared where p is a root. The time is linear in the number of nodes and kids where it wasn't prepared, and
/// else in those of the spine and in the length of `nodes`. Out of memory is the one error.
pub fn waits_for(
    alloc: Global,
    graph: &mut Graph,
    p: NodeId,
    nodes: &[NodeId],
) -> Result<bool, Memory>
    ensures all { IfOk result (λ yes. IsTrue yes ↔ WaitsFor graph.old p nodes.now) }
    ensures same { IsSame graph.old graph.new }
{
    let _ = graph.len();
    let Some(parts) = root_parts(graph, p) else {
        return Ok(false);
    };
    all_wait(alloc, graph, parts.token, nodes)
}
