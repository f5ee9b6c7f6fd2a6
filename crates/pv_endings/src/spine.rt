//! The spine of a token, by a list of work.

ghost use Rattle.std.specs.Prelude.{◌≡◌, ◌<◌, ◌++◌, ◌∷◌, ◌+◌, [], ℕ, length, vec_len, replicate, IfOk, OnOk, false};
ghost use Rattle.pv_graph.specs.Graphs.{IsGraph};
ghost use Rattle.pv_graph.specs.Reach.{unmarked};
ghost use Rattle.pv_endings.specs.Spine.{AreWithin, Follows, IsNoted, IsSpine, SetMark, next_of};

use pv_graph::{Graph, Node, NodeId, Op};
use pv_value::Memory;
use std::alloc::Global;

// Where the spine goes on from a node: into two tokens, or to the count of an eval, where it ends.
#[derive(Clone, Copy)]
pub(crate) enum Next {
    Tokens(NodeId, NodeId),
    Count(NodeId),
    Nothing,
}

fn next_of(node: &Node) -> Next
    ensures { result ≡ next_of node.now }
{
    match (&node.op, node.kids.as_slice()) {
        (Op::Both, [a, b]) => Next::Tokens(*a, *b),
        (Op::Eval(_), [_, count]) => Next::Count(*count),
        _ => Next::Nothing,
    }
}

// Marks of the nodes that are found on the spine, those of the nodes from which it goes on, and those of the latter whose turn is
// still to come.
#[derive(Drop)]
struct Walk {
    spine: Vec<bool>,
    walked: Vec<bool>,
    work: Vec<NodeId>,
}

fn mark(marks: &mut Vec<bool>, n: NodeId)
    requires { n < vec_len marks.old }
    ensures { SetMark marks.old.items marks.new.items n }
{
    marks[n as usize] = true;
}

// Notes a node from which the spine goes on, unless it was noted.
fn note(walked: &mut Vec<bool>, work: &mut Vec<NodeId>, n: NodeId) -> Result<(), Memory>
    requires { n < vec_len walked.old }
    ensures { OnOk result (IsNoted walked.old.items walked.new.items work.old.items work.new.items n) }
{
    if walked[n as usize] {
        return Ok(());
    }
    work.push(n)?;
    mark(walked, n);
    Ok(())
}

impl Walk {
    // Before the first node.
    fn new(alloc: Global, len: usize, token: NodeId) -> Result<Walk, Memory>
        requires { token < len }
        ensures spine { IfOk result (λ w. w.spine.items ≡ replicate len false) }
        ensures walked { IfOk result (λ w. IsNoted (replicate len false) w.walked.items [] w.work.items token) }
    {
        let mut walk = Walk {
            spine: vec![in alloc; false; len]?,
            walked: vec![in alloc; false; len]?,
            work: Vec::new(alloc),
        };
        note(&mut walk.walked, &mut walk.work, token)?;
        Ok(walk)
    }

    // Goes on from a node.
    fn follow(&mut self, next: Next, n: NodeId) -> Result<(), Memory>
        requires n { n < vec_len self.old.spine }
        requires next { AreWithin next (vec_len self.old.spine) }
        requires long { vec_len self.old.walked ≡ vec_len self.old.spine }
        ensures { OnOk result (Follows next n self.old self.new) }
    {
        mark(&mut self.spine, n);
        match next {
            Next::Tokens(a, b) => {
                note(&mut self.walked, &mut self.work, a)?;
                note(&mut self.walked, &mut self.work, b)?;
            }
            Next::Count(p) => mark(&mut self.spine, p),
            Next::Nothing => {}
        }
        Ok(())
    }
}

// Marks of the nodes on the spine of a token.
pub(crate) fn spine_of(alloc: Global, graph: &Graph, token: NodeId) -> Result<Vec<bool>, Memory>
    requires { token < length graph.now.nodes }
    ensures { IfOk result (λ marks. IsSpine graph.now.nodes token marks.items) }
{
    let mut walk = Walk::new(alloc, graph.len() as usize, token)?;
    while let Some(n) = walk.work.pop() {
        walk.follow(next_of(graph.node(n)), n)?;
    }
    Ok(walk.spine)
}
