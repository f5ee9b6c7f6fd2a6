//! Whether two nodes are the two sides of a lemma, node by node.
//!
//! The nodes of the lemma are looked at from the last to the first, each after those that have it as a kid. For each is
//! kept which nodes it has to be (`IsAsked` of `specs/Asked`): what the lemma's sides have to be says what their kids have
//! to be, and so on down to the variables.

ghost use Rattle.std.specs.Prelude.{◌≡◌, ◌↔◌, ◌<◌, ℕ, IfOk, IsTrue, OnOk, Some, length, slice_get, vec_len};
ghost use Rattle.std.specs.Bool.{OnTrue, OnFalse};
ghost use Rattle.pv_graph.specs.Walks.{In};
ghost use Rattle.pv_lemmas.specs.Asked.{Adds, AddsAll, AreSides, AreUnder, IsAsked, IsInner, Meets, MeetsAll};
ghost use Rattle.pv_lemmas.specs.Lemmas.{IsUnder};

use pv_graph::{Graph, NodeId, Op};
use pv_value::Memory;
use std::alloc::{AllocError, Global};

// For each node of a lemma no node that it has to be.
fn none_asked(alloc: Global, len: usize) -> Result<Vec<Vec<NodeId>>, AllocError>
    ensures len { IfOk result (λ asked. vec_len asked ≡ len) }
    ensures none { IfOk result (λ asked. (p n : ℕ) → IsAsked asked.items p n → ⊥) }
{
    let mut asked = Vec::new(alloc);
    for _ in 0..len {
        asked.push(Vec::new(alloc))?;
    }
    Ok(asked)
}

fn is_in(list: &[NodeId], n: NodeId) -> bool
    ensures { IsTrue result ↔ In list.now n }
{
    for m in list {
        if *m == n {
            return true;
        }
    }
    false
}

// Notes that node p of the lemma has to be node n.
fn ask(asked: &mut Vec<Vec<NodeId>>, p: NodeId, n: NodeId) -> Result<(), AllocError>
    requires { p < vec_len asked.old }
    ensures len { vec_len asked.new ≡ vec_len asked.old }
    ensures adds { OnOk result (Adds asked.old.items asked.new.items p n) }
{
    if is_in(&asked[p as usize], n) {
        return Ok(());
    }
    asked[p as usize].push(n)?;
    Ok(())
}

// Notes of kids of the lemma that they have to be these kids, one by one.
fn ask_all(asked: &mut Vec<Vec<NodeId>>, kids: &[NodeId], are: &[NodeId]) -> Result<(), AllocError>
    requires long { length kids.now ≡ length are.now }
    requires within { (i k : ℕ) → slice_get kids.now i ≡ Some k → k < vec_len asked.old }
    ensures len { vec_len asked.new ≡ vec_len asked.old }
    ensures adds { OnOk result (AddsAll asked.old.items asked.new.items kids.now are.now) }
{
    for (i, kid) in kids.iter().enumerate() {
        ask(asked, *kid, are[i])?;
    }
    Ok(())
}

fn is_same_op(a: &Op, b: &Op) -> bool
    ensures { IsTrue result ↔ (a.now ≡ b.now) }
{
    a == b
}

// The graph of a lemma, the nodes that stand for its variables, and the graph in which it is used.
#[derive(Clone, Copy)]
pub(crate) struct Standing<'a> {
    pub(crate) inner: &'a Graph,
    pub(crate) nodes: &'a [NodeId],
    pub(crate) graph: &'a Graph,
}

impl Standing<'_> {
    // Whether the node stands for the variable.
    fn is_for(&self, j: u32, n: NodeId) -> bool
        ensures { IsTrue result ↔ (slice_get self.now.nodes.now j ≡ Some n) }
    {
        match self.nodes.get(j as usize).copied() {
            Some(m) => m == n,
            None => false,
        }
    }

    // Whether node p of the lemma can be node n: it is a variable for which n stands, or n has its operation; then it is
    // noted what its kids have to be.
    fn meet(&self, asked: &mut Vec<Vec<NodeId>>, p: NodeId, n: NodeId) -> Result<bool, AllocError>
        requires there { p < length self.now.inner.now.nodes }
        requires long { vec_len asked.old ≡ length self.now.inner.now.nodes }
        requires inner { IsInner self.now.inner.now }
        ensures len { vec_len asked.new ≡ vec_len asked.old }
        ensures yes { IfOk result (λ yes. OnTrue yes (Meets self.now.inner.now self.now.nodes.now self.now.graph.now asked.old.items asked.new.items p n)) }
        ensures no { IfOk result (λ yes. OnFalse yes (IsUnder self.now.inner.now self.now.nodes.now self.now.graph.now p n → ⊥)) }
    {
        let inner = self.inner.node(p);
        if let Op::Var(j, _) = inner.op {
            return Ok(self.is_for(j, n));
        }
        if n >= self.graph.len() {
            return Ok(false);
        }
        let node = self.graph.node(n);
        if !is_same_op(&inner.op, &node.op) {
            return Ok(false);
        }
        let (kids, are) = (inner.kids.as_slice(), node.kids.as_slice());
        if kids.len() != are.len() {
            return Ok(false);
        }
        ask_all(asked, kids, are)?;
        Ok(true)
    }

    // Whether node p of the lemma can be each node that it has to be.
    fn meet_all(
        &self,
        alloc: Global,
        asked: &mut Vec<Vec<NodeId>>,
        p: NodeId,
    ) -> Result<bool, AllocError>
        requires there { p < length self.now.inner.now.nodes }
        requires long { vec_len asked.old ≡ length self.now.inner.now.nodes }
        requires inner { IsInner self.now.inner.now }
        ensures len { vec_len asked.new ≡ vec_len asked.old }
        ensures yes { IfOk result (λ yes. OnTrue yes (MeetsAll self.now.inner.now self.now.nodes.now self.now.graph.now asked.old.items asked.new.items p)) }
        ensures no { IfOk result (λ yes. OnFalse yes (AreUnder self.now.inner.now self.now.nodes.now self.now.graph.now asked.old.items p → ⊥)) }
    {
        let are = Vec::from_slice(alloc, &asked[p as usize])?;
        for n in &are {
            if !self.meet(asked, p, *n)? {
                return Ok(false);
            }
        }
        Ok(true)
    }

    /// Whether two nodes of the lemma are these nodes under those that stand for its variables. Its time is linear in the
    /// size of the lemma where no two nodes of the graph have one operation and the same kids.
    pub(crate) fn are_sides(
        &self,
        alloc: Global,
        sides: (NodeId, NodeId),
        at: (NodeId, NodeId),
    ) -> Result<bool, Memory>
        requires left { sides.0 < length self.now.inner.now.nodes }
        requires right { sides.1 < length self.now.inner.now.nodes }
        requires inner { IsInner self.now.inner.now }
        ensures { IfOk result (λ yes. IsTrue yes ↔ AreSides self.now.inner.now self.now.nodes.now self.now.graph.now sides at) }
    {
        let len = self.inner.len();
        let mut asked = none_asked(alloc, len as usize)?;
        ask(&mut asked, sides.0, at.0)?;
        ask(&mut asked, sides.1, at.1)?;
        for k in 0..len {
            if !self.meet_all(alloc, &mut asked, len - 1 - k)? {
                return Ok(false);
            }
        }
        Ok(true)
    }
}
