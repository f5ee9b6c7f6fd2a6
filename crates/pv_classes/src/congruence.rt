//! What is congruence so that a closing looks at few nodes.

ghost use Rattle.std.specs.Prelude.{◌≡◌, ◌↔◌, ◌⊎◌, ◌<◌, ◌++◌, ◌∷◌, [], ℕ, None, List, length, slice_get, slice_index_or, IsTrue, Some, IfOk, OnOk};
ghost use Rattle.std.specs.List.{All, Contains};
ghost use Rattle.pv_graph.specs.declared.node.Node.{Node};
ghost use Rattle.pv_classes.specs.Partition.{Parts};
ghost use Rattle.pv_classes.specs.Closest.{IsOutside};
ghost use Rattle.pv_classes.specs.Index.{Advances, AreJoined, Inserts, IsCopy, IsIndex, IsOutsideAt, IsTracked, JoinsNodes, Notes, first_of, found_by, found_in, key_of, labels_of};
ghost use Rattle.pv_classes.specs.Congruence.{index_of, index_with};

use crate::join::{Join, Reason};
use crate::lists::Lists;
use crate::partition::Partition;
use crate::table::Table;
use pv_graph::{Graph, Kids, Node, NodeId};
use pv_value::Memory;
use std::alloc::Global;
use std::sync::Arc;

/// What copies of classes share, as long as none of them changes it: for each node the nodes with it as
/// a kid, for each number of an operation its nodes, and nodes by their keys.
#[derive(Drop)]
pub(crate) struct Known {
    pub(crate) parents: Lists,
    pub(crate) by_number: Lists,
    pub(crate) table: Table,
}

/// The parts of the nodes; what copies share; a table of keys that these classes alone have; the nodes that
/// wait for the next closing; and the nodes whose keys were put into the own table, or found there.
#[derive(Drop)]
pub(crate) struct Congruence {
    pub(crate) parts: Partition,
    pub(crate) known: Arc<Known>,
    pub(crate) own: Table,
    pub(crate) waiting: Vec<NodeId>,
    pub(crate) by_own: Vec<NodeId>,
}

impl Congruence {
    // Equal parts, with the shared table alone: the nodes of the own table wait in the copy.
    pub(crate) fn copy(&self, alloc: Global) -> Result<Congruence, Memory>
        ensures { IfOk result (λ copy. IsCopy (index_of self.now) (index_of copy)) }
    {
        let mut waiting = Vec::from_slice(alloc, &self.waiting)?;
        waiting.extend_from_slice(&self.by_own)?;
        Ok(Congruence {
            parts: self.parts.copy(alloc)?,
            known: self.known.clone()?,
            own: Table::new(alloc),
            waiting,
            by_own: Vec::new(alloc),
        })
    }

    // The node that the tables have for a key.
    pub(crate) fn get(&self, key: &Node) -> Option<NodeId>
        ensures { result ≡ found_by (index_of self.now) key.now }
    {
        match self.own.get(key) {
            Some(n) => Some(n),
            None => self.known.table.get(key),
        }
    }
}

// Puts the parents of these nodes with those that wait.
fn wake(parents: &Lists, moved: &[NodeId], waiting: &mut Vec<NodeId>) -> Result<(), Memory>
    ensures { OnOk result ((n : ℕ) → Contains waiting.new.items n ↔ (Contains waiting.old.items n ⊎ ((k : ℕ) × Contains moved.now k × Contains (slice_index_or parents.now k []) n))) }
{
    for k in moved {
        waiting.extend_from_slice(parents.get(*k))?;
    }
    Ok(())
}

// Makes the parts of two nodes one. The parents of the nodes whose label changed wait from then on.
pub(crate) fn join_nodes(
    alloc: Global,
    congruence: &mut Congruence,
    joins: &mut Vec<Join>,
    join: Join,
) -> Result<(), Memory>
    requires joined { AreJoined congruence.old.parts joins.old.items }
    requires first { join.first < length congruence.old.parts.labels }
    requires second { join.second < length congruence.old.parts.labels }
    ensures joined { AreJoined congruence.new.parts joins.new.items }
    ensures ok { OnOk result (JoinsNodes (index_of congruence.old) (index_of congruence.new) joins.old.items joins.new.items join) }
{
    joins.reserve(1)?;
    let moved = congruence.parts.merge(alloc, join.first, join.second)?;
    joins.push(join).unwrap();
    wake(&congruence.known.parents, &moved, &mut congruence.waiting)
}

// The labels of these nodes.
pub(crate) fn labels_of(alloc: Global, parts: &Partition, nodes: &[NodeId]) -> Result<Kids, Memory>
    requires { All (λ k. k < length parts.now.labels) nodes.now }
    ensures { IfOk result (λ labels. labels ≡ labels_of parts.now.labels nodes.now) }
{
    let mut labels = Vec::new(alloc);
    for n in nodes {
        labels.push(parts.label(*n))?;
    }
    Kids::new(alloc, &labels)
}

// The key of a node: its operation over the labels of its kids.
pub(crate) fn key_of(alloc: Global, parts: &Partition, node: &Node) -> Result<Node, Memory>
    requires { All (λ k. k < length parts.now.labels) node.now.kids }
    ensures { IfOk result (λ key. key ≡ key_of parts.now.labels node.now) }
{
    let op = node.op.copy(alloc)?;
    let kids = labels_of(alloc, parts, node.kids.as_slice())?;
    Ok(Node { op, kids })
}

// The node that the tables have for the key of node n. Where the own table has it, n is noted.
fn look_up(
    own: &Table,
    shared: &Table,
    by_own: &mut Vec<NodeId>,
    key: &Node,
    n: NodeId,
) -> Result<Option<NodeId>, Memory>
    ensures found { IfOk result (λ found. found ≡ first_of (found_in own.now key.now) (found_in shared.now key.now)) }
    ensures notes { OnOk result (Notes own.now key.now n by_own.old.items by_own.new.items) }
{
    match own.get(key) {
        Some(e) => {
            by_own.push(n)?;
            Ok(Some(e))
        }
        None => Ok(shared.get(key)),
    }
}

// Puts the key of node n, which the tables lack, into the shared table where no copy shares it, else into
// the own one, and notes n.
fn insert(
    known: &mut Arc<Known>,
    own: &mut Table,
    by_own: &mut Vec<NodeId>,
    key: Node,
    n: NodeId,
) -> Result<(), Memory>
    requires { first_of (found_in own.old key) (found_in known.old.value.table key) ≡ None }
    ensures { OnOk result ((p : Parts) (w : List ℕ) → Inserts (index_with p known.old.value own.old w by_own.old.items) (index_with p known.new.value own.new w by_own.new.items) key n) }
{
    match Arc::get_mut(known) {
        Some(known) => {
            known.table.insert(key, n)?;
        }
        None => {
            own.insert(key, n)?;
            by_own.push(n)?;
        }
    }
    Ok(())
}

/// Joins a node with one of its operation whose kids are joined with its own; or where the tables have none,
/// puts it in.
pub(crate) fn visit(
    alloc: Global,
    g: &Graph,
    congruence: &mut Congruence,
    joins: &mut Vec<Join>,
    n: NodeId,
) -> Result<(), Memory>
    requires index { IsIndex g.now.nodes (index_of congruence.old) }
    requires joined { AreJoined congruence.old.parts joins.old.items }
    requires there { n < length g.now.nodes }
    ensures joined { AreJoined congruence.new.parts joins.new.items }
    ensures tracked { OnOk result (IsTracked g.now.nodes (index_of congruence.new) n) }
    ensures ok { OnOk result ((fixed : List ℕ) → IsOutsideAt g.now.nodes fixed n → Advances g.now.nodes fixed (index_of congruence.old) (index_of congruence.new) joins.old.items joins.new.items) }
{
    let key = key_of(alloc, &congruence.parts, g.node(n))?;
    let Some(e) = look_up(
        &congruence.own,
        &congruence.known.table,
        &mut congruence.by_own,
        &key,
        n,
    )?
    else {
        return insert(
            &mut congruence.known,
            &mut congruence.own,
            &mut congruence.by_own,
            key,
            n,
        );
    };
    if congruence.parts.label(e) == congruence.parts.label(n) {
        return Ok(());
    }
    let why = Reason::Kids;
    join_nodes(
        alloc,
        congruence,
        joins,
        Join {
            first: e,
            second: n,
            why,
        },
    )
}
