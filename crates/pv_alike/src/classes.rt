//! Classes of thetas, made finer until a pass parts none.

ghost use Rattle.std.specs.Prelude.{◌≡◌, ◌<◌, ◌^◌, ◌≤◌, ◌∷◌, ℕ, length, map, IfOk, vec_len};
ghost use Rattle.pv_graph.specs.Graphs.{IsGraph, form_at};
ghost use Rattle.pv_graph.specs.Walks.{In};
ghost use Rattle.pv_alike.specs.Partition.{IsFiner};
ghost use Rattle.pv_alike.specs.BottomUp.{IsBottomUp};
ghost use Rattle.pv_alike.specs.Algorithm.{IsNumbered, IsDense};
ghost use Rattle.pv_alike.specs.Keys.{number_at, theta_key, IsOnto};

use crate::bottom_up::is_theta;
use crate::keys::Keys;
use crate::numbering::{Numbers, over_class, pass};
use crate::order::Order;
use pv_graph::{Graph, Node, NodeId};
use pv_value::Memory;
use std::alloc::Global;

// What the next class of theta n is numbered by.
fn theta_key(
    alloc: Global,
    classes: &[NodeId],
    numbers: &[NodeId],
    n: NodeId,
    node: &Node,
) -> Result<Node, Memory>
    requires there { n < length classes.now }
    requires kids { (k : ℕ) → In node.now.kids k → k < length numbers.now }
    ensures { IfOk result (λ key. key ≡ theta_key (number_at classes.now) (number_at numbers.now) n node.now) }
{
    over_class(
        alloc,
        classes[n as usize],
        numbers,
        &node.op,
        node.kids.as_slice(),
    )
}

// The next classes of the thetas: those of one class stay together where they have one depth and kids
// of equal numbers.
fn finer(
    alloc: Global,
    g: &Graph,
    classes: &[NodeId],
    numbers: &[NodeId],
) -> Result<Numbers, Memory>
    requires graph { IsGraph g.now }
    requires classes { length classes.now ≡ length g.now.nodes }
    requires numbers { length numbers.now ≡ length g.now.nodes }
    ensures long { IfOk result (λ next. vec_len next.of ≡ length g.now.nodes) }
    ensures few { IfOk result (λ next. next.count ≤ length g.now.nodes) }
    ensures finer { IfOk result (λ next. IsFiner (form_at g.now.nodes) (number_at classes.now) (number_at numbers.now) (number_at next.of.items)) }
    ensures dense { IfOk result (λ next. IsDense (form_at g.now.nodes) (number_at next.of.items) next.count) }
{
    let mut keys = Keys::new(alloc);
    let mut next = Vec::new(alloc);
    for n in 0..g.len() {
        let node = g.node(n);
        if is_theta(&node.op) {
            let key = theta_key(alloc, classes, numbers, n, node)?;
            next.push(keys.number(key)?)?;
        } else {
            next.push(0)?;
        }
    }
    Ok(Numbers {
        of: next,
        count: keys.len(),
    })
}

/// The numbers of the last pass, in an order from below: nodes have one number exactly where they
/// unfold equally. There is at most one pass more than there are thetas.
pub(crate) fn numbered(alloc: Global, g: &Graph, order: &Order) -> Result<Numbers, Memory>
    requires graph { IsGraph g.now }
    requires order { IsBottomUp g.now.nodes order.now }
    ensures long { IfOk result (λ numbers. vec_len numbers.of ≡ length g.now.nodes) }
    ensures numbered { IfOk result (λ numbers. IsNumbered g.now.nodes (number_at numbers.of.items)) }
    ensures onto { IfOk result (λ numbers. IsOnto g.now.nodes (number_at numbers.of.items) numbers.count) }
    ensures few { IfOk result (λ numbers. numbers.count < 2 ^ 32) }
{
    let mut classes = vec![in alloc; 0; g.len() as usize]?;
    let mut count = 0;
    loop {
        let numbers = pass(alloc, g, order, &classes)?;
        let next = finer(alloc, g, &classes, &numbers.of)?;
        if next.count <= count {
            return Ok(numbers);
        }
        count = next.count;
        classes = next.of;
    }
}
