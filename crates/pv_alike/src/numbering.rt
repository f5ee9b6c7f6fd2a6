//! A pass: all nodes are numbered from below, over the classes of the thetas.

ghost use Rattle.std.specs.Prelude.{◌≡◌, ◌<◌, ◌^◌, ◌∷◌, ℕ, length, map, IfOk, vec_len};
ghost use Rattle.pv_graph.specs.Graphs.{IsGraph, form_at};
ghost use Rattle.pv_graph.specs.Walks.{In};
ghost use Rattle.pv_alike.specs.Partition.{IsPass};
ghost use Rattle.pv_alike.specs.BottomUp.{IsBottomUp};
ghost use Rattle.pv_alike.specs.Keys.{number_at, over_numbers, over_class, key_of, IsOnto};

use crate::bottom_up::{earlier_kids, is_theta};
use crate::keys::Keys;
use crate::order::Order;
use pv_graph::{Graph, Kids, Node, NodeId, Op};
use pv_value::Memory;
use std::alloc::Global;

/// A number for each node, below `count`.
#[derive(Drop)]
pub(crate) struct Numbers {
    pub(crate) of: Vec<NodeId>,
    pub(crate) count: usize,
}

impl Numbers {
    // The number of a node.
    pub(crate) fn at(&self, n: NodeId) -> NodeId
        requires { n < vec_len self.now.of }
        ensures { result ≡ number_at self.now.of.items n }
    {
        self.of[n as usize]
    }
}

/// The numbers of nodes.
pub(crate) fn numbers_of(
    alloc: Global,
    numbers: &[NodeId],
    nodes: &[NodeId],
) -> Result<Vec<NodeId>, Memory>
    requires { (k : ℕ) → In nodes.now k → k < length numbers.now }
    ensures { IfOk result (λ found. found.items ≡ map (number_at numbers.now) nodes.now) }
{
    let mut found = Vec::with_capacity(alloc, nodes.len())?;
    for k in nodes {
        found.push(numbers[*k as usize])?;
    }
    Ok(found)
}

/// A node's operation over the numbers of its kids.
pub(crate) fn over_numbers(alloc: Global, numbers: &[NodeId], node: &Node) -> Result<Node, Memory>
    requires { (k : ℕ) → In node.now.kids k → k < length numbers.now }
    ensures { IfOk result (λ over. over ≡ over_numbers (number_at numbers.now) node.now) }
{
    let kids = numbers_of(alloc, numbers, node.kids.as_slice())?;
    Ok(Node {
        op: node.op.copy(alloc)?,
        kids: Kids::from(kids),
    })
}

/// A theta's operation over its class and the numbers of some of its kids.
pub(crate) fn over_class(
    alloc: Global,
    class: NodeId,
    numbers: &[NodeId],
    op: &Op,
    kids: &[NodeId],
) -> Result<Node, Memory>
    requires { (k : ℕ) → In kids.now k → k < length numbers.now }
    ensures { IfOk result (λ over. over ≡ over_class class (number_at numbers.now) op.now kids.now) }
{
    let mut over = vec![in alloc; class]?;
    over.append(&mut numbers_of(alloc, numbers, kids)?)?;
    Ok(Node {
        op: op.copy(alloc)?,
        kids: Kids::from(over),
    })
}

// What node n is numbered by.
fn key_of(
    alloc: Global,
    classes: &[NodeId],
    numbers: &[NodeId],
    n: NodeId,
    node: &Node,
) -> Result<Node, Memory>
    requires there { n < length classes.now }
    requires kids { (k : ℕ) → In node.now.kids k → k < length numbers.now }
    ensures { IfOk result (λ key. key ≡ key_of (number_at classes.now) (number_at numbers.now) n node.now) }
{
    if is_theta(&node.op) {
        return over_class(
            alloc,
            classes[n as usize],
            numbers,
            &node.op,
            earlier_kids(node),
        );
    }
    over_numbers(alloc, numbers, node)
}

/// The numbers of all nodes over the classes of the thetas, in an order from below.
pub(crate) fn pass(
    alloc: Global,
    g: &Graph,
    order: &Order,
    classes: &[NodeId],
) -> Result<Numbers, Memory>
    requires graph { IsGraph g.now }
    requires order { IsBottomUp g.now.nodes order.now }
    requires classes { length classes.now ≡ length g.now.nodes }
    ensures long { IfOk result (λ numbers. vec_len numbers.of ≡ length g.now.nodes) }
    ensures pass { IfOk result (λ numbers. IsPass (form_at g.now.nodes) (number_at classes.now) (number_at numbers.of.items)) }
    ensures onto { IfOk result (λ numbers. IsOnto g.now.nodes (number_at numbers.of.items) numbers.count) }
    ensures few { IfOk result (λ numbers. numbers.count < 2 ^ 32) }
{
    let mut keys = Keys::new(alloc);
    let mut numbers = vec![in alloc; 0; g.len() as usize]?;
    for n in order.as_slice() {
        let key = key_of(alloc, classes, &numbers, *n, g.node(*n))?;
        numbers[*n as usize] = keys.number(key)?;
    }
    Ok(Numbers {
        of: numbers,
        count: keys.len(),
    })
}
