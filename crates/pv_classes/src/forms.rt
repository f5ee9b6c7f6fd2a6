//! The forms of nodes, by their keys.

ghost use Rattle.std.specs.Prelude.{◌≡◌, ◌<◌, ◌∷◌, ℕ, Some, length, slice_get, IfOk};
ghost use Rattle.std.specs.List.{All, Contains};
ghost use Rattle.pv_graph.specs.declared.node.Node.{Node};
ghost use Rattle.pv_graph.specs.Nodes.{node_of};
ghost use Rattle.pv_classes.specs.Index.{IsIndex, IsTracked, labels_of};
ghost use Rattle.pv_classes.specs.Congruence.{index_of};
ghost use Rattle.pv_classes.specs.Keyed.{AreFirstKeys, IsKeyedIn, IsNodeWith, Keeps, Notes, class_key};

use crate::congruence::{Congruence, key_of, labels_of};
use crate::partition::Partition;
use crate::table::Table;
use pv_graph::{Graph, Node, NodeId, Op};
use pv_value::Memory;
use std::alloc::Global;

// The key of a node of this operation over kids that are joined with these.
fn key_over(alloc: Global, parts: &Partition, op: &Op, over: &[NodeId]) -> Result<Node, Memory>
    requires { All (λ k. k < length parts.now.labels) over.now }
    ensures { IfOk result (λ key. key ≡ node_of op.now (labels_of parts.now.labels over.now)) }
{
    let op = op.copy(alloc)?;
    let kids = labels_of(alloc, parts, over)?;
    Ok(Node { op, kids })
}

// A node of the list with this key.
fn with_key(
    alloc: Global,
    g: &Graph,
    parts: &Partition,
    list: &[NodeId],
    key: &Node,
) -> Result<Option<NodeId>, Memory>
    requires list { All (λ n. n < length g.now.nodes) list.now }
    requires kids { (n k : ℕ) (node : Node) → slice_get g.now.nodes n ≡ Some node → Contains node.kids k → k < length parts.now.labels }
    ensures { IfOk result (λ found. IsKeyedIn g.now.nodes parts.now.labels list.now key.now found) }
{
    for n in list {
        if key_of(alloc, parts, g.node(*n))? == *key {
            return Ok(Some(*n));
        }
    }
    Ok(None)
}

/// A node of this operation over kids that are joined with these, if there is one. All that don't wait are found by
/// their keys.
pub(crate) fn node_with(
    alloc: Global,
    g: &Graph,
    congruence: &Congruence,
    op: &Op,
    over: &[NodeId],
) -> Result<Option<NodeId>, Memory>
    requires index { IsIndex g.now.nodes (index_of congruence.now) }
    requires tracked { (n : ℕ) → n < length g.now.nodes → IsTracked g.now.nodes (index_of congruence.now) n }
    requires over { All (λ k. k < length congruence.now.parts.labels) over.now }
    ensures { IfOk result (λ found. IsNodeWith g.now.nodes congruence.now.parts.labels op.now over.now found) }
{
    let key = key_over(alloc, &congruence.parts, op, over)?;
    match congruence.get(&key) {
        Some(n) => Ok(Some(n)),
        None => with_key(alloc, g, &congruence.parts, &congruence.waiting, &key),
    }
}

// Puts a key in where the table lacks it, and says whether it did.
fn keep(seen: &mut Table, key: Node, n: NodeId) -> Result<bool, Memory>
    ensures { IfOk result (λ is_new. Keeps seen.old seen.new key is_new) }
{
    if seen.get(&key).is_some() {
        return Ok(false);
    }
    seen.insert(key, n)?;
    Ok(true)
}

// The key of a node within its class.
fn class_key(alloc: Global, parts: &Partition, node: &Node, n: NodeId) -> Result<Node, Memory>
    requires { All (λ k. k < length parts.now.labels) (n ∷ node.now.kids) }
    ensures { IfOk result (λ key. key ≡ class_key parts.now.labels n node.now) }
{
    let mut over = vec![in alloc; n]?;
    over.extend_from_slice(node.kids.as_slice())?;
    key_over(alloc, parts, &node.op, &over)
}

// Whether no earlier node of its class has the form of node n. Most nodes are alone in their classes, so they cost no key.
fn is_first(
    alloc: Global,
    g: &Graph,
    parts: &Partition,
    n: NodeId,
    seen: &mut Table,
) -> Result<bool, Memory>
    requires node { n < length g.now.nodes }
    requires there { n < length parts.now.labels }
    requires kids { (m k : ℕ) (node : Node) → slice_get g.now.nodes m ≡ Some node → Contains node.kids k → k < length parts.now.labels }
    ensures { IfOk result (λ is_first. Notes g.now.nodes parts.now.labels n seen.old seen.new is_first) }
{
    let (_, others) = parts.members(n);
    if others.is_empty() {
        return Ok(true);
    }
    let key = class_key(alloc, parts, g.node(n), n)?;
    keep(seen, key, n)
}

/// For each node whether no earlier node of its class has its form.
pub(crate) fn first_keys(alloc: Global, g: &Graph, parts: &Partition) -> Result<Vec<bool>, Memory>
    requires long { length parts.now.labels ≡ length g.now.nodes }
    requires kids { (n k : ℕ) (node : Node) → slice_get g.now.nodes n ≡ Some node → Contains node.kids k → k < length parts.now.labels }
    ensures { IfOk result (λ firsts. AreFirstKeys g.now.nodes parts.now.labels firsts.items) }
{
    let mut seen = Table::new(alloc);
    let mut firsts = Vec::new(alloc);
    for n in 0..g.len() {
        firsts.push(is_first(alloc, g, parts, n, &mut seen)?)?;
    }
    Ok(firsts)
}
