//! An order in which each node comes after its kids, and a theta after its first.

ghost use Rattle.std.specs.Prelude.{◌≡◌, ◌<◌, ◌^◌, ◌∷◌, [], ℕ, length, IfOk, OnOk, MatchOption};
ghost use Rattle.std.specs.List.{range_with_len};
ghost use Rattle.pv_graph.specs.Graphs.{IsGraph};
ghost use Rattle.pv_graph.specs.Walks.{In};
ghost use Rattle.pv_graph.specs.Calls.{LeavesNoSortOpen};
ghost use Rattle.pv_graph.specs.Ops.{shape, is_theta};
ghost use Rattle.pv_alike.specs.Partition.{earlier_kids};
ghost use Rattle.pv_alike.specs.BottomUp.{HasKids, Lacks, IsUpward, IsBottomUp, Settles, IsSettling};

use crate::order::Order;
use crate::waiting::Waiting;
use pv_graph::{Graph, Node, NodeId, Op};
use pv_value::Memory;
use std::alloc::Global;

/// Whether an operation is a theta.
pub(crate) fn is_theta(op: &Op) -> bool
    ensures { result ≡ is_theta (shape op.now) }
{
    matches!(op, Op::Theta(_))
}

/// The kids that a node comes after: all, but of a theta the first alone.
pub(crate) fn earlier_kids(node: &Node) -> &[NodeId]
    ensures { result.now ≡ earlier_kids node.now.op node.now.kids }
{
    let kids = node.kids.as_slice();
    if is_theta(&node.op) {
        return &kids[..kids.len().min(1)];
    }
    kids
}

// The first of these kids that an order lacks.
fn missing_kid(node: &Node, order: &Order) -> Option<NodeId>
    ensures { MatchOption result (HasKids order.now node.now) (λ k. Lacks order.now node.now k) }
{
    for k in earlier_kids(node) {
        if !order.has(*k) {
            return Some(*k);
        }
    }
    None
}

// Puts a node into the order, or has it wait for a kid that is missing there.
fn settle(g: &Graph, n: NodeId, order: &mut Order, waiting: &mut Waiting) -> Result<(), Memory>
    requires graph { IsGraph g.now }
    requires there { n < length g.now.nodes }
    requires long { length waiting.old ≡ length g.now.nodes }
    requires up { IsUpward g.now.nodes order.old }
    ensures { OnOk result (Settles g.now.nodes order.old order.new waiting.old waiting.new (n ∷ [])) }
{
    match missing_kid(g.node(n), order) {
        Some(k) => waiting.put(k, n)?,
        None => {
            order.visit(n)?;
        }
    }
    Ok(())
}

// The same for some nodes.
fn settle_all(
    g: &Graph,
    ns: &[NodeId],
    order: &mut Order,
    waiting: &mut Waiting,
) -> Result<(), Memory>
    requires graph { IsGraph g.now }
    requires there { (n : ℕ) → In ns.now n → n < length g.now.nodes }
    requires long { length waiting.old ≡ length g.now.nodes }
    requires up { IsUpward g.now.nodes order.old }
    ensures { OnOk result (Settles g.now.nodes order.old order.new waiting.old waiting.new ns.now) }
{
    for n in ns {
        settle(g, *n, order, waiting)?;
    }
    Ok(())
}

// The same for each node of the graph.
fn settle_each(g: &Graph, order: &mut Order, waiting: &mut Waiting) -> Result<(), Memory>
    requires graph { IsGraph g.now }
    requires long { length waiting.old ≡ length g.now.nodes }
    requires up { IsUpward g.now.nodes order.old }
    ensures { OnOk result (Settles g.now.nodes order.old order.new waiting.old waiting.new (range_with_len 0 (length g.now.nodes))) }
{
    for n in 0..g.len() {
        settle(g, n, order, waiting)?;
    }
    Ok(())
}

// Settles what waits for the nodes of the order, from its front to its end.
fn settle_waiting(
    alloc: Global,
    g: &Graph,
    order: &mut Order,
    waiting: &mut Waiting,
) -> Result<(), Memory>
    requires graph { IsGraph g.now }
    requires few { length g.now.nodes < 2 ^ 32 }
    requires begun { IsSettling g.now.nodes order.old waiting.old 0 }
    ensures { OnOk result (IsSettling g.now.nodes order.new waiting.new (length order.new)) }
{
    let mut done = 0;
    while let Some(k) = order.get(done) {
        let ns = waiting.take(alloc, k);
        settle_all(g, &ns, order, waiting)?;
        done += 1;
    }
    Ok(())
}

/// All nodes of a graph, each after its kids, and a theta after its first.
pub(crate) fn bottom_up(alloc: Global, g: &Graph) -> Result<Order, Memory>
    requires graph { IsGraph g.now }
    requires cycles { LeavesNoSortOpen g.now.nodes }
    ensures { IfOk result (λ order. IsBottomUp g.now.nodes order) }
{
    let mut order = Order::new(alloc);
    let mut waiting = Waiting::none(alloc, g.len())?;
    settle_each(g, &mut order, &mut waiting)?;
    settle_waiting(alloc, g, &mut order, &mut waiting)?;
    Ok(order)
}
