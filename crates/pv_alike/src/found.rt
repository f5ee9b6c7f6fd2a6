//! The search for the least graph: its nodes.

ghost use Rattle.std.specs.Prelude.{◌≡◌, ◌<◌, false, length, IfOk};
ghost use Rattle.pv_graph.specs.Graphs.{IsWellMade};
ghost use Rattle.pv_alike.specs.Least.{IsLeast};

use crate::bottom_up::bottom_up;
use crate::classes::numbered;
use crate::quotient::quotient;
use crate::renumber::renumbered;
use crate::visit::visited;
use pv_graph::{Graph, Node, NodeId};
use pv_value::Memory;
use std::alloc::Global;

/// The nodes of a least graph, and its two roots.
#[derive(Drop)]
pub(crate) struct Found {
    pub(crate) nodes: Vec<Node>,
    pub(crate) first: NodeId,
    pub(crate) second: NodeId,
}

/// The nodes of the least graph of two nodes.
pub(crate) fn least_nodes(
    alloc: Global,
    g: &Graph,
    first: NodeId,
    second: NodeId,
) -> Result<Found, Memory>
    requires made { IsWellMade g.now }
    requires first { first < length g.now.nodes }
    requires second { second < length g.now.nodes }
    ensures { IfOk result (λ f. IsLeast g.now.nodes first second f.nodes.items f.first f.second) }
{
    let order = bottom_up(alloc, g)?;
    let numbers = numbered(alloc, g, &order)?;
    let nodes = quotient(alloc, g, &numbers)?;
    let first = numbers.at(first);
    let second = numbers.at(second);
    let visits = visited(alloc, &nodes, first, second)?;
    Ok(Found {
        nodes: renumbered(alloc, &nodes, &visits)?,
        first: visits.place(first),
        second: visits.place(second),
    })
}
