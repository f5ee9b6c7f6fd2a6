//! First visits.

ghost use Rattle.std.specs.Prelude.{◌≡◌, ◌<◌, ◌^◌, ◌++◌, ◌∷◌, [], length, reverse, IfOk, OnOk};
ghost use Rattle.std.specs.List.{Contains};
ghost use Rattle.pv_alike.specs.Renumbered.{IsClosed, AreKidsWithin};
ghost use Rattle.pv_alike.specs.Visits.{Visits};

use crate::order::Order;
use pv_graph::{Node, NodeId};
use pv_value::Memory;
use std::alloc::Global;

// Puts nodes on a stack, the first on top.
fn push_all(stack: &mut Vec<NodeId>, nodes: &[NodeId]) -> Result<(), Memory>
    ensures { OnOk result (stack.new.items ≡ stack.old.items ++ reverse nodes.now) }
{
    stack.extend(nodes.iter().rev().copied())?;
    Ok(())
}

/// The nodes under two roots in the order of their first visits: from the first root, and then from
/// the second, a node before its kids and kids from left to right.
pub(crate) fn visited(
    alloc: Global,
    nodes: &[Node],
    first: NodeId,
    second: NodeId,
) -> Result<Order, Memory>
    requires within { AreKidsWithin nodes.now }
    requires small { length nodes.now < 2 ^ 32 }
    requires first { first < length nodes.now }
    requires second { second < length nodes.now }

    ensures visits { IfOk result (λ order. Visits nodes.now order [] (first ∷ second ∷ [])) }
    ensures roots { IfOk result (λ order. Contains order first × Contains order second) }
    ensures closed { IfOk result (λ order. IsClosed nodes.now order) }
    ensures small { IfOk result (λ order. length order < 2 ^ 32) }
{
    let mut order = Order::new(alloc);
    let mut stack = Vec::new(alloc);
    push_all(&mut stack, &[first, second])?;
    while let Some(n) = stack.pop() {
        let is_new = order.visit(n)?;
        if !is_new {
            continue;
        }
        push_all(&mut stack, nodes[n as usize].kids.as_slice())?;
    }
    Ok(order)
}
