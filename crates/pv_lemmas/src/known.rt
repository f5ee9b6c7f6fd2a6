//! Accepted lemmas, and what is a use of one.

ghost use Rattle.std.specs.Prelude.{◌≡◌, ◌↔◌, ℕ, IfOk, IsTrue, Some, slice_get};
ghost use Rattle.pv_graph.specs.Calls.{AreSettledMarks};
ghost use Rattle.pv_graph.specs.Graphs.{form_at};
ghost use Rattle.pv_graph.specs.Walks.{In, IsSettled};
ghost use Rattle.pv_lemmas.specs.Lemmas.{IsKnown, IsUse, settled_from};

use crate::under::Standing;
use crate::vars::{have_sorts, settled_variables};
use pv_graph::{Graph, NodeId};
use pv_steps::{Lemma, Var};
use pv_value::Memory;
use std::alloc::Global;

/// Two nodes that are to be the sides of a lemma: in this graph, of which some nodes are assumed to end, and with nodes
/// that are to stand for the lemma's variables.
#[derive(Clone, Copy)]
pub struct Place<'a> {
    pub graph: &'a Graph,
    pub assumed: &'a [NodeId],
    pub nodes: &'a [NodeId],
    pub left: NodeId,
    pub right: NodeId,
}

// Whether a node is settled, by the marks of all nodes. A node that isn't there is.
fn is_settled(graph: &Graph, assumed: &[NodeId], marks: &[bool], n: NodeId) -> bool
    requires { AreSettledMarks graph.now assumed.now marks.now }
    ensures { IsTrue result ↔ IsSettled (form_at graph.now.nodes) assumed.now n }
{
    match marks.get(n as usize) {
        Some(mark) => *mark,
        None => true,
    }
}

impl Place<'_> {
    // The node that stands for a variable, if there is one.
    fn node_for(&self, j: NodeId) -> Option<NodeId>
        ensures { result ≡ slice_get self.now.nodes.now j }
    {
        self.nodes.get(j as usize).copied()
    }

    // Whether the node that stands for a variable, if there is one, is settled.
    fn is_settled_for(&self, marks: &[bool], j: NodeId) -> bool
        requires { AreSettledMarks self.now.graph.now self.now.assumed.now marks.now }
        ensures { IsTrue result ↔ ((n : ℕ) → slice_get self.now.nodes.now j ≡ Some n → IsSettled (form_at self.now.graph.now.nodes) self.now.assumed.now n) }
    {
        match self.node_for(j) {
            Some(n) => is_settled(self.graph, self.assumed, marks, n),
            None => true,
        }
    }

    // Whether only settled nodes stand for the variables that ask for it.
    fn are_settled(&self, alloc: Global, vars: &[Var]) -> Result<bool, Memory>
        ensures { IfOk result (λ yes. IsTrue yes ↔ ((j n : ℕ) → In (settled_from 0 vars.now) j → slice_get self.now.nodes.now j ≡ Some n → IsSettled (form_at self.now.graph.now.nodes) self.now.assumed.now n)) }
    {
        let settled = settled_variables(alloc, vars)?;
        if settled.is_empty() {
            return Ok(true);
        }
        let marks = self.graph.settled_marks(alloc, self.assumed)?;
        for j in &settled {
            if !self.is_settled_for(&marks, *j) {
                return Ok(false);
            }
        }
        Ok(true)
    }
}

/// A lemma, and the graph after its steps.
#[derive(Drop)]
pub struct Known<'a> {
    pub lemma: &'a Lemma,
    pub graph: Graph,
}

impl Known<'_> {
    /// Whether two nodes are the sides of the lemma (`IsUse`). Out of memory is the one error.
    pub fn is_used(&self, alloc: Global, at: &Place) -> Result<bool, Memory>
        requires { IsKnown self.now.lemma.now self.now.graph }
        ensures { IfOk result (λ yes. IsTrue yes ↔ IsUse self.now.lemma.now at.now.graph.now at.now.assumed.now at.now.nodes.now at.now.left at.now.right) }
    {
        let vars = self.lemma.vars.as_slice();
        if !have_sorts(at.graph, at.nodes, vars) {
            return Ok(false);
        }
        let standing = Standing {
            inner: &self.graph,
            nodes: at.nodes,
            graph: at.graph,
        };
        let sides = (self.lemma.left, self.lemma.right);
        if !standing.are_sides(alloc, sides, (at.left, at.right))? {
            return Ok(false);
        }
        at.are_settled(alloc, vars)
    }
}
