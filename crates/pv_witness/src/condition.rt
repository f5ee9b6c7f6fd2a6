//! The conditions that axioms ask of the classes of their variables.

ghost use Rattle.std.specs.Prelude.{◌≡◌, ◌≢◌, ◌↔◌, IsTrue, false};
ghost use Rattle.pv_graph.specs.Ops.{may_not_end, shape, theta};
ghost use Rattle.pv_graph.specs.Walks.{open_kids};
ghost use Rattle.pv_witness.specs.Supports.{HandsOn, counted, rest_of};

use pv_graph::{Node, NodeId, Op};

/// What an axiom asks of the class of a variable: that it is settled, or that a depth isn't free in it.
#[derive(Clone, Copy)]
pub enum Condition {
    Settled,
    NotFree(u32),
}

// Whether an operation always has a value where its kids have.
fn ends(op: &Op) -> bool
    ensures { IsTrue result ↔ (may_not_end op.now ≡ false) }
{
    match op {
        Op::Never | Op::Pass(_) | Op::CallEnd(_) | Op::Var(..) => false,
        _ => true,
    }
}

// Whether an operation is no theta of this depth.
fn is_no_theta(op: &Op, depth: u32) -> bool
    ensures { IsTrue result ↔ (shape op.now ≢ theta depth) }
{
    match op {
        Op::Theta(d) => *d != depth,
        _ => true,
    }
}

fn rest_of(kids: &[NodeId]) -> &[NodeId]
    ensures { result.now ≡ rest_of kids.now }
{
    match kids {
        [_, rest @ ..] => rest,
        [] => kids,
    }
}

// The kids through which a depth is free.
fn open_kids<'a>(op: &Op, depth: u32, kids: &'a [NodeId]) -> &'a [NodeId]
    ensures { result.now ≡ open_kids depth (shape op.now) kids.now }
{
    match op {
        Op::Eval(d) => { if *d == depth { rest_of(kids) } else { kids } }
        Op::Pass(d) => { if *d == depth { &[] } else { kids } }
        _ => kids,
    }
}

impl Condition {
    // Whether the condition holds of a node with this operation where it holds of the kids that count.
    pub(crate) fn hands_on(self, op: &Op) -> bool
        ensures { IsTrue result ↔ HandsOn self op.now }
    {
        match self {
            Condition::Settled => ends(op),
            Condition::NotFree(depth) => is_no_theta(op, depth),
        }
    }

    // The kids that count.
    pub(crate) fn counted(self, node: &Node) -> &[NodeId]
        ensures { result.now ≡ counted self node.now.op node.now.kids }
    {
        let kids = node.kids.as_slice();
        match self {
            Condition::Settled => kids,
            Condition::NotFree(depth) => open_kids(&node.op, depth, kids),
        }
    }
}
