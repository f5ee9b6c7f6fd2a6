//! Which depths are free in the first nodes of a graph, kept while the graph grows.

ghost use Rattle.std.specs.Prelude.{◌≡◌, ◌<◌, ◌≤◌, ◌++◌, ◌∷◌, ◌-◌, ◌^◌, [], ℕ, List, length, Some, slice_get, IfSome, OnOk, OnErr, vec_len};
ghost use Rattle.pv_graph.specs.Known.{AreAllFree, AreKnown, Cuts, HasMark, IsAscending, Knows, Shortens};
ghost use Rattle.pv_graph.specs.Reach.{AllKidsWithin};

use crate::node::{Node, NodeId};
use crate::reach::free_after;
use std::alloc::{AllocError, Global};

// For each depth from 1 on, marks of the first nodes, of as many as were asked for; and numbers before
// which no node has a kid from there on, in ascending order.
#[derive(Drop)]
pub(crate) struct Known {
    pub(crate) marks: Vec<Vec<bool>>,
    pub(crate) shut: Vec<NodeId>,
}

// How many of these numbers aren't more than n.
fn count_until(numbers: &[NodeId], n: NodeId) -> usize
    requires { IsAscending numbers.now }
    ensures count { result ≤ length numbers.now }
    ensures until { (i p : ℕ) → i < result → slice_get numbers.now i ≡ Some p → p ≤ n }
{
    let mut count = numbers.len();
    while count > 0 {
        if numbers[count - 1] <= n {
            return count;
        }
        count -= 1;
    }
    0
}

// Leaves at most this many marks for each depth.
fn shorten(marks: &mut Vec<Vec<bool>>, most: usize)
    ensures { Shortens most marks.old.items marks.new.items (vec_len marks.new) }
{
    for d in 0..marks.len() {
        marks[d].truncate(most);
    }
}

// Makes places for marks of this many depths.
fn open(alloc: Global, marks: &mut Vec<Vec<bool>>, depths: usize) -> Result<(), AllocError>
    ensures free { (nodes : List Node) → AreAllFree nodes marks.old.items → AreAllFree nodes marks.new.items }
    ensures places { OnOk result (depths ≤ vec_len marks.new) }
{
    for _ in marks.len()..depths {
        marks.push(Vec::new(alloc))?;
    }
    Ok(())
}

impl Known {
    // Nothing is known.
    pub(crate) fn new(alloc: Global) -> Known
        ensures marks { result.marks.items ≡ [] }
        ensures shut { result.shut.items ≡ [] }
    {
        Known {
            marks: Vec::new(alloc),
            shut: Vec::new(alloc),
        }
    }

    // Whether a depth is free in a node, if that is known.
    pub(crate) fn mark(&self, d: u32, n: NodeId) -> Option<bool>
        requires { 1 ≤ d }
        ensures { IfSome result (λ yes. HasMark self.now d n yes) }
    {
        let i = d as usize - 1;
        if i >= self.marks.len() {
            return None;
        }
        let marks = &self.marks[i];
        let n = n as usize;
        if n < marks.len() {
            Some(marks[n])
        } else {
            None
        }
    }

    // Notes that a theta is begun as node n, which is added after the others.
    pub(crate) fn begin(&mut self, n: NodeId) -> Result<(), AllocError>
        ensures marks { self.new.marks ≡ self.old.marks }
        ensures ok { OnOk result (self.new.shut.items ≡ self.old.shut.items ++ n ∷ []) }
        ensures err { OnErr result (self.new.shut.items ≡ self.old.shut.items) }
    {
        self.shut.push(n)?;
        Ok(())
    }

    // Forgets what may be otherwise once the theta n is tied.
    pub(crate) fn forget(&mut self, n: NodeId)
        requires { IsAscending self.old.shut.items }
        ensures { Cuts n self.old self.new }
    {
        let count = count_until(&self.shut, n);
        self.shut.truncate(count);
        let most = if count == 0 { 0 } else { self.shut[count - 1] };
        shorten(&mut self.marks, most as usize);
    }

    // Finds whether a depth is free in the nodes of which it isn't known. Its time is linear in their
    // number and that of their kids.
    pub(crate) fn learn(&mut self, alloc: Global, nodes: &[Node], d: u32) -> Result<(), AllocError>
        requires few { length nodes.now < 2 ^ 32 }
        requires within { AllKidsWithin nodes.now (length nodes.now) }
        requires known { AreKnown nodes.now self.old }
        requires depth { 1 ≤ d }
        ensures known { AreKnown nodes.now self.new }
        ensures all { OnOk result (Knows nodes.now d self.new) }
    {
        open(alloc, &mut self.marks, d as usize)?;
        let i = d as usize - 1;
        let found = free_after(alloc, nodes, &self.marks[i], d)?;
        self.marks[i].extend_from_slice(&found)?;
        Ok(())
    }
}
