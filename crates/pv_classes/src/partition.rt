//! A partition of nodes, each part with a label and with its least node.

ghost use Rattle.std.specs.Prelude.{◌≡◌, ◌≢◌, ◌<◌, ℕ, [], length, map, IfOk, OnOk, OnErr, vec_len};
ghost use Rattle.std.specs.List.{All, Contains};
ghost use Rattle.pv_classes.specs.Forms.{AreMembers};
ghost use Rattle.pv_classes.specs.Partition.{at, parts_of, IsKept, IsPartition, Absorbs, Merges, HasOneMore};

use crate::lists::Lists;
use pv_graph::NodeId;
use pv_value::Memory;
use std::alloc::Global;
use std::marker::Model;

// The most nodes that there are.
const MOST_NODES: usize = 0xFFFF_FFFF;

/// Parts of the nodes. Each part has a label, which is one of its nodes, and a number, which is its least node.
#[derive(Drop)]
pub(crate) struct Partition {
    // for each node the label of its part
    labels: Vec<NodeId>,
    // for each label the least node of its part
    least: Vec<NodeId>,
    // for each label the nodes of its part but the label
    others: Lists,
}

impl Model for Partition {
    ghost use Rattle.pv_classes.specs.Partition.{Parts, parts_of, IsKept};

    ghost Value = { Parts };

    ghost view = { λ p. parts_of p.labels.items p.least.items };

    ghost invariant = { λ p. IsKept p.labels.items p.least.items p.others };
}

// Gives some nodes this label.
fn relabel(labels: &mut Vec<NodeId>, moved: &[NodeId], to: NodeId)
    requires { All (λ k. k < vec_len labels.now) moved.now }
    ensures long { vec_len labels.new ≡ vec_len labels.old }
    ensures moved { (k : ℕ) → Contains moved.now k → at labels.new.items k ≡ to }
    ensures others { (k : ℕ) → (Contains moved.now k → ⊥) → at labels.new.items k ≡ at labels.old.items k }
{
    for k in moved {
        labels[*k as usize] = to;
    }
}

// Moves the nodes of the part `from` to the part `to`, and gives them.
fn absorb(
    alloc: Global,
    labels: &mut Vec<NodeId>,
    least: &mut Vec<NodeId>,
    others: &mut Lists,
    from: NodeId,
    to: NodeId,
) -> Result<Vec<NodeId>, Memory>
    requires kept { IsKept labels.old.items least.old.items others.old }
    requires from { from < vec_len labels.old }
    requires from_own { at labels.old.items from ≡ from }
    requires to { to < vec_len labels.old }
    requires to_own { at labels.old.items to ≡ to }
    requires apart { from ≢ to }
    ensures ok { IfOk result (λ moved. Absorbs labels.old.items least.old.items others.old labels.new.items least.new.items others.new from to moved.items) }
    ensures labels { OnErr result (labels.new.items ≡ labels.old.items) }
    ensures least { OnErr result (least.new.items ≡ least.old.items) }
    ensures others { OnErr result (others.new ≡ others.old) }
{
    let mut moved = Vec::from_slice(alloc, others.at(from))?;
    moved.push(from)?;
    others.extend(to, &moved)?;
    others.clear(alloc, from);
    relabel(labels, &moved, to);
    let lower = least[from as usize].min(least[to as usize]);
    least[to as usize] = lower;
    Ok(moved)
}

// Puts a node after the others, with itself as its label.
fn push_node(
    alloc: Global,
    labels: &mut Vec<NodeId>,
    least: &mut Vec<NodeId>,
    others: &mut Lists,
) -> Result<(), Memory>
    requires kept { IsKept labels.old.items least.old.items others.old }
    ensures kept { IsKept labels.new.items least.new.items others.new }
    ensures labels { OnErr result (labels.new.items ≡ labels.old.items) }
    ensures least { OnErr result (least.new.items ≡ least.old.items) }
    ensures more { OnOk result (HasOneMore (parts_of labels.old.items least.old.items) (parts_of labels.new.items least.new.items)) }
{
    if labels.len() >= MOST_NODES {
        return Err(Memory);
    }
    labels.reserve(1)?;
    least.reserve(1)?;
    others.add_list(alloc)?;
    let n = labels.len() as NodeId;
    labels.push(n).unwrap();
    least.push(n).unwrap();
    Ok(())
}

// For each node the least node of its label.
fn numbers_of(alloc: Global, labels: &[NodeId], least: &[NodeId]) -> Result<Vec<NodeId>, Memory>
    requires { All (λ l. l < length least.now) labels.now }
    ensures { IfOk result (λ numbers. numbers.items ≡ map (at least.now) labels.now) }
{
    let mut numbers = Vec::new(alloc);
    for label in labels {
        numbers.push(least[*label as usize])?;
    }
    Ok(numbers)
}

impl Partition {
    // No node.
    pub(crate) fn new(alloc: Global) -> Partition
        ensures none { result ≡ record { labels = []; numbers = [] } }
        ensures parts { IsPartition result }
    {
        Partition {
            labels: Vec::new(alloc),
            least: Vec::new(alloc),
            others: Lists::new(alloc),
        }
    }

    // How many nodes there are.
    pub(crate) fn len(&self) -> u32
        ensures len { result ≡ length self.now.labels }
        ensures parts { IsPartition self.now }
    {
        self.labels.len() as u32
    }

    // The label of a node's part.
    pub(crate) fn label(&self, n: NodeId) -> NodeId
        requires { n < length self.now.labels }
        ensures { result ≡ at self.now.labels n }
    {
        self.labels[n as usize]
    }

    // The number of a node's part.
    pub(crate) fn number(&self, n: NodeId) -> NodeId
        requires { n < length self.now.labels }
        ensures { result ≡ at self.now.numbers n }
    {
        self.least[self.labels[n as usize] as usize]
    }

    // The numbers of all nodes' parts.
    pub(crate) fn numbers(&self, alloc: Global) -> Result<Vec<NodeId>, Memory>
        ensures { IfOk result (λ numbers. numbers.items ≡ self.now.numbers) }
    {
        numbers_of(alloc, &self.labels, &self.least)
    }

    // The nodes of a node's part: its label, and the others.
    pub(crate) fn members(&self, n: NodeId) -> (NodeId, &[NodeId])
        requires { n < length self.now.labels }
        ensures { AreMembers self.now.labels n result.0 result.1.now }
    {
        let label = self.labels[n as usize];
        (label, self.others.at(label))
    }

    // One node more, which is a part of its own.
    pub(crate) fn add_node(&mut self, alloc: Global) -> Result<(), Memory>
        ensures ok { OnOk result (HasOneMore self.old self.new) }
        ensures err { OnErr result (self.new ≡ self.old) }
    {
        push_node(alloc, &mut self.labels, &mut self.least, &mut self.others)
    }

    // Makes the parts of two nodes one, and gives the nodes whose label changed: those of the smaller part.
    pub(crate) fn merge(
        &mut self,
        alloc: Global,
        a: NodeId,
        b: NodeId,
    ) -> Result<Vec<NodeId>, Memory>
        requires first { a < length self.old.labels }
        requires second { b < length self.old.labels }
        ensures ok { IfOk result (λ moved. Merges self.old self.new a b moved.items) }
        ensures err { OnErr result (self.new ≡ self.old) }
    {
        let first = self.labels[a as usize];
        let second = self.labels[b as usize];
        if first == second {
            return Ok(Vec::new(alloc));
        }
        if self.others.at(first).len() < self.others.at(second).len() {
            absorb(
                alloc,
                &mut self.labels,
                &mut self.least,
                &mut self.others,
                first,
                second,
            )
        } else {
            absorb(
                alloc,
                &mut self.labels,
                &mut self.least,
                &mut self.others,
                second,
                first,
            )
        }
    }

    // An equal partition.
    pub(crate) fn copy(&self, alloc: Global) -> Result<Partition, Memory>
        ensures copy { IfOk result (λ copy. copy ≡ self.now) }
        ensures parts { IfOk result (λ copy. IsPartition copy) }
    {
        Ok(Partition {
            labels: Vec::from_slice(alloc, &self.labels)?,
            least: Vec::from_slice(alloc, &self.least)?,
            others: self.others.copy(alloc)?,
        })
    }
}
