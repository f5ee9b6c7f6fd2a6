//! Nodes under new numbers.

ghost use Rattle.std.specs.Prelude.{◌≡◌, ◌<◌, ◌^◌, length, IfOk};
ghost use Rattle.std.specs.List.{All, Contains};
ghost use Rattle.pv_alike.specs.Renumbered.{ArePlaces, IsClosed, IsCopy, IsRenumbered};

use crate::order::Order;
use pv_graph::{Kids, Node, NodeId};
use pv_value::Memory;
use std::alloc::Global;

// The places of nodes.
fn places(alloc: Global, order: &Order, nodes: &[NodeId]) -> Result<Kids, Memory>
    requires there { All (Contains order.now) nodes.now }
    requires small { length order.now < 2 ^ 32 }
    ensures { IfOk result (λ kids. ArePlaces order.now kids nodes.now) }
{
    let mut places = Vec::with_capacity(alloc, nodes.len())?;
    for n in nodes {
        places.push(order.place(*n))?;
    }
    Ok(Kids::from(places))
}

// A copy of a node over the places of its kids.
fn copy(alloc: Global, order: &Order, node: &Node) -> Result<Node, Memory>
    requires there { All (Contains order.now) node.now.kids }
    requires small { length order.now < 2 ^ 32 }
    ensures { IfOk result (λ copy. IsCopy order.now node.now copy) }
{
    Ok(Node {
        op: node.op.copy(alloc)?,
        kids: places(alloc, order, node.kids.as_slice())?,
    })
}

/// The nodes of an order, over the places of their kids.
pub(crate) fn renumbered(alloc: Global, nodes: &[Node], order: &Order) -> Result<Vec<Node>, Memory>
    requires closed { IsClosed nodes.now order.now }
    requires small { length order.now < 2 ^ 32 }
    ensures { IfOk result (λ copies. IsRenumbered nodes.now order.now copies.items) }
{
    let mut copies = Vec::new(alloc);
    for n in order.as_slice() {
        copies.push(copy(alloc, order, &nodes[*n as usize])?)?;
    }
    Ok(copies)
}
