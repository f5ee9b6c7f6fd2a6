//! How nodes of a graph get known: their parents, their numbers, and that they wait.

ghost use Rattle.std.specs.Prelude.{◌≡◌, ◌+◌, ◌<◌, ◌≤◌, ℕ, [], length, take, IfOk, OnOk};
ghost use Rattle.std.specs.List.{Contains};
ghost use Rattle.pv_graph.specs.Graphs.{IsGraph};
ghost use Rattle.pv_classes.specs.Index.{AreJoined, IsIndex, IsTracked};
ghost use Rattle.pv_classes.specs.Congruence.{index_of};
ghost use Rattle.pv_classes.specs.Learning.{AreNumbered, AreParents, HasEmptyLists, HasMore, Learns, Tells, WaitToo};

use crate::congruence::{Congruence, Known};
use crate::join::Join;
use crate::lists::Lists;
use crate::partition::Partition;
use crate::table::Table;
use pv_graph::{Graph, NodeId};
use pv_pattern::{OP_NUMBERS, op_number};
use pv_value::Memory;
use std::alloc::Global;
use std::sync::Arc;

// Puts this many lists without nodes after the others.
fn add_empty_lists(alloc: Global, lists: &mut Lists, count: u32) -> Result<(), Memory>
    ensures { OnOk result (HasEmptyLists lists.old lists.new count) }
{
    for _ in 0..count {
        lists.add_list(alloc)?;
    }
    Ok(())
}

// Makes node n a parent of each of these kids.
fn put_parent(parents: &mut Lists, kids: &[NodeId], n: NodeId) -> Result<(), Memory>
    requires { (k : ℕ) → Contains kids.now k → k < length parents.old }
    ensures long { length parents.new ≡ length parents.old }
    ensures ok { OnOk result (Tells parents.old parents.new kids.now n) }
{
    for k in kids {
        parents.put(*k, n)?;
    }
    Ok(())
}

// Makes each node from `from` on a parent of its kids.
fn add_parents(g: &Graph, parents: &mut Lists, from: u32) -> Result<(), Memory>
    requires graph { IsGraph g.now }
    requires from { from ≤ length g.now.nodes }
    requires parents { AreParents g.now.nodes from (length g.now.nodes) parents.old }
    ensures { OnOk result (AreParents g.now.nodes (length g.now.nodes) (length g.now.nodes) parents.new) }
{
    for n in from..g.len() {
        put_parent(parents, g.node(n).kids.as_slice(), n)?;
    }
    Ok(())
}

// Puts each node from `from` on after the others with the number of its operation.
fn add_numbers(g: &Graph, lists: &mut Lists, from: u32) -> Result<(), Memory>
    requires from { from ≤ length g.now.nodes }
    requires numbered { AreNumbered (take from g.now.nodes) lists.old }
    ensures { OnOk result (AreNumbered g.now.nodes lists.new) }
{
    for n in from..g.len() {
        lists.put(op_number(&g.node(n).op), n)?;
    }
    Ok(())
}

// Adds what is known of the nodes from `from` on.
fn extend(alloc: Global, g: &Graph, known: &mut Known, from: u32) -> Result<(), Memory>
    requires graph { IsGraph g.now }
    requires from { from ≤ length g.now.nodes }
    requires parents { AreParents g.now.nodes from from known.old.parents }
    requires numbered { AreNumbered (take from g.now.nodes) known.old.by_number }
    ensures parents { OnOk result (AreParents g.now.nodes (length g.now.nodes) (length g.now.nodes) known.new.parents) }
    ensures numbered { OnOk result (AreNumbered g.now.nodes known.new.by_number) }
    ensures table { known.new.table ≡ known.old.table }
{
    add_empty_lists(alloc, &mut known.parents, g.len() - from)?;
    add_parents(g, &mut known.parents, from)?;
    add_numbers(g, &mut known.by_number, from)
}

// What is known of no node.
fn empty_known(alloc: Global) -> Result<Known, Memory>
    ensures parents { IfOk result (λ known. known.parents ≡ []) }
    ensures numbered { IfOk result (λ known. AreNumbered [] known.by_number) }
    ensures table { IfOk result (λ known. known.table ≡ []) }
{
    let mut by_number = Lists::new(alloc);
    add_empty_lists(alloc, &mut by_number, OP_NUMBERS)?;
    Ok(Known {
        parents: Lists::new(alloc),
        by_number,
        table: Table::new(alloc),
    })
}

// Adds nodes until there are n, each in a part of its own. The parts stay those that the joins make.
fn add_parts(alloc: Global, parts: &mut Partition, joins: &[Join], n: u32) -> Result<(), Memory>
    requires few { length parts.old.labels ≤ n }
    requires joined { AreJoined parts.old joins.now }
    ensures joined { AreJoined parts.new joins.now }
    ensures more { OnOk result (HasMore parts.old parts.new n) }
{
    for _ in parts.len()..n {
        parts.add_node(alloc)?;
    }
    Ok(())
}

// The nodes from `from` on and below `to` wait too.
fn add_waiting(waiting: &mut Vec<NodeId>, from: u32, to: u32) -> Result<(), Memory>
    requires { from ≤ to }
    ensures { OnOk result (WaitToo waiting.old.items waiting.new.items from to) }
{
    for m in from..to {
        waiting.push(m)?;
    }
    Ok(())
}

/// Takes up the nodes of a graph, of which the first are known: the new ones wait. Where copies share what is
/// known, it is made anew, and all nodes wait.
pub(crate) fn learn(
    alloc: Global,
    g: &Graph,
    congruence: &mut Congruence,
    joins: &[Join],
) -> Result<(), Memory>
    requires few { length congruence.old.parts.labels ≤ length g.now.nodes }
    requires index { IsIndex (take (length congruence.old.parts.labels) g.now.nodes) (index_of congruence.old) }
    requires tracked { (n : ℕ) → n < length congruence.old.parts.labels → IsTracked (take (length congruence.old.parts.labels) g.now.nodes) (index_of congruence.old) n }
    requires joined { AreJoined congruence.old.parts joins.now }
    ensures joined { AreJoined congruence.new.parts joins.now }
    ensures ok { OnOk result (Learns g.now.nodes (index_of congruence.old) (index_of congruence.new)) }
{
    let len = g.len();
    let from = congruence.parts.len();
    add_parts(alloc, &mut congruence.parts, joins, len)?;
    match Arc::get_mut(&mut congruence.known) {
        Some(known) => {
            extend(alloc, g, known, from)?;
            add_waiting(&mut congruence.waiting, from, len)
        }
        None => {
            let mut known = empty_known(alloc)?;
            extend(alloc, g, &mut known, 0)?;
            let mut waiting = Vec::new(alloc);
            add_waiting(&mut waiting, 0, len)?;
            congruence.known = Arc::new(alloc, known)?;
            congruence.own = Table::new(alloc);
            congruence.waiting = waiting;
            congruence.by_own = Vec::new(alloc);
            Ok(())
        }
    }
}

/// The congruence of no node.
pub(crate) fn empty_congruence(alloc: Global) -> Result<Congruence, Memory>
    ensures parts { IfOk result (λ congruence. congruence.parts ≡ record { labels = []; numbers = [] }) }
    ensures index { IfOk result (λ congruence. IsIndex [] (index_of congruence)) }
{
    let known = empty_known(alloc)?;
    Ok(Congruence {
        parts: Partition::new(alloc),
        known: Arc::new(alloc, known)?,
        own: Table::new(alloc),
        waiting: Vec::new(alloc),
        by_own: Vec::new(alloc),
    })
}
