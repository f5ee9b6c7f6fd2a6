//! Node steps: a new node of the graph.

ghost use Rattle.std.specs.Prelude.{◌≡◌, ◌↔◌, ◌<◌, ℕ, IfOk, IsTrue, false, length};
ghost use Rattle.std.specs.Bool.{OnTrue, OnFalse};
ghost use Rattle.std.specs.List.{AllByRecursion};
ghost use Rattle.pv_graph.specs.Graphs.{Graph};
ghost use Rattle.pv_steps.specs.Right.{AddsNode};
ghost use Rattle.pv_check.specs.Growth.{MayBeNext, NodeAdded};

use pv_graph::{Graph, GraphFault, NodeId, Op};
use pv_value::Memory;
use std::alloc::Global;

// The greatest number of a node; no graph has one more.
const MOST_NODE: u32 = 0xFFFF_FFFE;

// Whether all kids are less than n.
fn are_less(kids: &[NodeId], n: NodeId) -> bool
    ensures { IsTrue result ↔ AllByRecursion (λ k. k < n) kids.now }
{
    for kid in kids {
        if *kid >= n {
            return false;
        }
    }
    true
}

// Whether n is the number of nodes, a graph may have one more, and the kids are nodes.
fn may_add(graph: &Graph, n: NodeId, kids: &[NodeId]) -> bool
    ensures { IsTrue result ↔ MayBeNext graph.now n kids.now }
{
    n == graph.len() && n <= MOST_NODE && are_less(kids, n)
}

/// Adds the node of a right node step; where the step isn't right, the graph may have changed.
pub(crate) fn grow(
    alloc: Global,
    graph: &mut Graph,
    n: NodeId,
    op: &Op,
    kids: &[NodeId],
) -> Result<bool, Memory>
    requires { graph.old.is_open ≡ false }
    ensures yes { IfOk result (λ yes. OnTrue yes (NodeAdded graph.old graph.new n op.now kids.now)) }
    ensures no { IfOk result (λ yes. OnFalse yes ((new : Graph) → AddsNode graph.old n op.now kids.now new → ⊥)) }
{
    if op.is_variable() {
        return Ok(false);
    }
    if !may_add(graph, n, kids) {
        return Ok(false);
    }
    let op = op.copy(alloc)?;
    match graph.add(alloc, op, kids) {
        Ok(added) => { if added == n { Ok(true) } else { Ok(false) } }
        Err(GraphFault::Sort) => Ok(false),
        Err(GraphFault::Memory) => Err(Memory),
    }
}
