//! The cleared graph of a least graph.

ghost use Rattle.std.specs.Prelude.{◌≡◌, ◌<◌, ◌^◌, ◌↔◌, IsTrue, List, Some, false, length, slice_get, IfOk, vec_len};
ghost use Rattle.pv_graph.specs.declared.node.OpSort.{OpSort};
ghost use Rattle.pv_graph.specs.Graphs.{IsGraph, IsWellMade};
ghost use Rattle.pv_graph.specs.Calls.{AreSorts, IsBase, IsDistinct, LeavesNoSortOpen};
ghost use Rattle.pv_counted.specs.Cleared.{IsCleared, IsClearing, with_nodes};
ghost use Rattle.pv_counted.specs.Folding.{KidsAreNodes};
ghost use Rattle.pv_counted.specs.Laws.{RootsKeep};
ghost use Rattle.pv_counted.specs.Replaced.{AreReplaced, IsReplaced};

use crate::counting::counted;
use crate::folding::{TwoRoots, folded};
use pv_alike::{Least, least};
use pv_graph::{Graph, GraphFault, Kids, Node, NodeId, Op, OpSort};
use pv_value::Memory;
use std::alloc::Global;

// Whether a node is a token.
fn is_token(g: &Graph, n: NodeId) -> bool
    requires { n < length g.now.nodes }
    ensures { IsTrue result ↔ (slice_get g.now.sorts n ≡ Some OpSort.T) }
{
    matches!(g.sort(n), OpSort::T)
}

// What stands in place of a node: a unit, if the node is a marked token, and else its copy.
fn replaced(alloc: Global, g: &Graph, n: NodeId, marks: &[bool]) -> Result<Node, Memory>
    requires there { n < length g.now.nodes }
    requires long { length marks.now ≡ length g.now.nodes }
    ensures { IfOk result (λ node. IsReplaced g.now marks.now n node) }
{
    if is_token(g, n) && marks[n as usize] {
        return Ok(Node {
            op: Op::Unit,
            kids: Kids::new(alloc, &[])?,
        });
    }
    g.node(n).copy(alloc)
}

// The nodes with units in place of marked tokens.
fn all_replaced(alloc: Global, g: &Graph, marks: &[bool]) -> Result<Vec<Node>, Memory>
    requires { length marks.now ≡ length g.now.nodes }
    ensures replaced { IfOk result (λ nodes. AreReplaced g.now marks.now (length g.now.nodes) nodes.items) }
    ensures few { IfOk result (λ nodes. vec_len nodes < 2 ^ 32) }
{
    let mut nodes = Vec::new(alloc);
    for n in 0..g.len() {
        nodes.push(replaced(alloc, g, n, marks)?)?;
    }
    Ok(nodes)
}

// The nodes with units in place of the tokens that are settled with the counted nodes assumed.
fn cleared_nodes(alloc: Global, g: &Graph, counted: &[NodeId]) -> Result<Vec<Node>, Memory>
    requires { IsGraph g.now }
    ensures clearing { IfOk result (λ nodes. IsClearing g.now counted.now (with_nodes g.now nodes.items)) }
    ensures within { IfOk result (λ nodes. KidsAreNodes nodes.items) }
    ensures few { IfOk result (λ nodes. vec_len nodes < 2 ^ 32) }
{
    let settled = g.settled_marks(alloc, counted)?;
    let nodes = all_replaced(alloc, g, &settled)?;
    Ok(nodes)
}

// The sealed graph of nodes that have sorts.
fn based(alloc: Global, nodes: Vec<Node>) -> Result<Graph, Memory>
    requires distinct { IsDistinct nodes.items }
    requires cycles { LeavesNoSortOpen nodes.items }
    requires sorted { (sorts : List OpSort) × AreSorts nodes.items sorts }
    ensures { IfOk result (λ g. IsBase g nodes.items) }
{
    match Graph::of_base(alloc, nodes) {
        Ok(graph) => Ok(graph),
        Err(GraphFault::Memory) => Err(Memory),
        Err(GraphFault::Sort) => unreachable!(),
    }
}

/// The least graph of the roots after a unit was put in place of each token that is settled with the
/// counted nodes assumed. Each root keeps its values. Out of memory is the one error.
pub fn clear(alloc: Global, l: &Least) -> Result<Least, Memory>
    requires made { IsWellMade l.now.graph }
    requires sealed { l.now.graph.is_open ≡ false }
    requires first { l.now.first < length l.now.graph.nodes }
    requires second { l.now.second < length l.now.graph.nodes }
    ensures cleared { IfOk result (λ m. IsCleared l.now m) }
    ensures keeps { IfOk result (λ m. RootsKeep l.now m) }
{
    let counted = counted(alloc, l)?;
    let nodes = cleared_nodes(alloc, l.graph(), &counted)?;
    let start = TwoRoots {
        nodes,
        first: l.first(),
        second: l.second(),
    };
    let f = folded(alloc, start)?;
    let graph = based(alloc, f.nodes)?;
    least(alloc, &graph, f.first, f.second)
}
