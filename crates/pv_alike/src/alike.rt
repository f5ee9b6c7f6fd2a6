//! The least graph of two nodes.

ghost use Rattle.std.specs.Prelude.{◌≡◌, ◌<◌, ◌↔◌, List, false, length, IfOk};
ghost use Rattle.pv_graph.specs.declared.node.OpSort.{OpSort};
ghost use Rattle.pv_graph.specs.Calls.{IsDistinct, LeavesNoSortOpen, AreSorts, IsBase};
ghost use Rattle.pv_graph.specs.Graphs.{IsWellMade};
ghost use Rattle.pv_alike.specs.Least.{IsLeastOf, MeansAs, UnfoldEqually};

use crate::found::least_nodes;
use crate::rooted::Least;
use pv_graph::{Graph, GraphFault, Node, NodeId};
use pv_value::Memory;
use std::alloc::Global;

// The sealed graph of nodes that have sorts.
fn based(alloc: Global, nodes: Vec<Node>) -> Result<Graph, Memory>
    requires distinct { IsDistinct nodes.items }
    requires cycles { LeavesNoSortOpen nodes.items }
    requires sorted { (sorts : List OpSort) × AreSorts nodes.items sorts }
    ensures { IfOk result (λ g. IsBase g nodes.items) }
{
    match Graph::of_base(alloc, nodes) {
        Ok(graph) => Ok(graph),
        Err(GraphFault::Memory) => Err(Memory),
        Err(GraphFault::Sort) => unreachable!(),
    }
}

/// The least graph of two nodes of a sealed and well-made graph: exactly the nodes that are reached from
/// them, no two of which unfold equally, numbered by their first visits. Out of memory is the one
/// error. There is at most one pass more over the graph than it has thetas, and the time of each is
/// linear in the number of nodes and kids.
pub fn least(alloc: Global, g: &Graph, first: NodeId, second: NodeId) -> Result<Least, Memory>
    requires made { IsWellMade g.now }
    requires sealed { g.now.is_open ≡ false }
    requires first { first < length g.now.nodes }
    requires second { second < length g.now.nodes }

    ensures least { IfOk result (λ l. IsLeastOf g.now first second l) }
    ensures one { IfOk result (λ l. (l.first ≡ l.second) ↔ UnfoldEqually g.now.nodes first second) }
    ensures first_means { IfOk result (λ l. MeansAs l.graph.nodes l.first g.now.nodes first) }
    ensures second_means { IfOk result (λ l. MeansAs l.graph.nodes l.second g.now.nodes second) }
{
    let found = least_nodes(alloc, g, first, second)?;
    let graph = based(alloc, found.nodes)?;
    Ok(Least::new(graph, found.first, found.second))
}
