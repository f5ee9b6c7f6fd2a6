//! The steps of a certificate, and lemmas of such steps.

use pv_graph::{Kids, NodeId, Op, OpSort};
use pv_list::Listed;

/// The equality at a place of what a step states. Steps and places are counted from 1.
#[derive(Clone, Copy, Debug)]
pub struct Fact {
    pub step: u32,
    pub place: u32,
}

/// Why two kids are equal: they are one node, a fact states it, or a pair of the same step does, which
/// are counted from 1.
#[derive(Clone, Copy, Debug)]
pub enum Reason {
    Same,
    By(Fact),
    Pair(u32),
}

/// Two nodes of one operation, with a reason for each of their kids.
#[derive(Debug, Drop)]
pub struct Congruence {
    pub left: NodeId,
    pub right: NodeId,
    pub reasons: Listed<Reason>,
}

/// A step, by the words of its line:
/// - `Node(n, op, kids)` adds a node with the number n.
/// - `Axiom(number, a, b, nodes)`: a and b are the sides of an axiom under the substitution of the nodes.
/// - `Use(number, a, b, nodes)`: a and b are the sides of a lemma under the substitution of the nodes.
/// - `Flip(a, b, fact)`: the fact states the same the other way round.
/// - `Chain(a, b, first, second)`: the facts state a = c and c = b.
/// - `Set(congruences)`: nodes of one operation with equal kids; pairs of the step may rest on each other.
/// - `Open(depth, pairs)` opens an induction over the iterations of a depth, in which the pairs are equal.
/// - `Close(depth, facts)` ends it: of each pair, a fact for iteration 0 and one for an iteration later.
/// - `Assume(p, nodes)` opens a block for the root p, in which the nodes are assumed to end.
/// - `Finish(p, q, token, fault, result, heap)` ends it: the kids of p and q are equal, by these reasons.
#[derive(Debug, Drop)]
pub enum Step {
    Node(NodeId, Op, Kids),
    Axiom(u32, NodeId, NodeId, Kids),
    Use(u32, NodeId, NodeId, Kids),
    Flip(NodeId, NodeId, Fact),
    Chain(NodeId, NodeId, Fact, Fact),
    Set(Listed<Congruence>),
    Open(u32, Listed<(NodeId, NodeId)>),
    Close(u32, Listed<(Fact, Fact)>),
    Assume(NodeId, Kids),
    Finish(NodeId, NodeId, Reason, Reason, Reason, Reason),
}

/// A variable of a lemma: the sort of the nodes that may stand for it, and whether these have to be settled.
#[derive(Clone, Copy, Debug)]
pub struct Var {
    pub sort: OpSort,
    pub settled: bool,
}

/// An equality over variables, which is proved once and may be used often. Its graph begins with the
/// variables, as nodes 0, 1 and so on; the steps show that the left node is equal to the right one.
#[derive(Debug, Drop)]
pub struct Lemma {
    pub vars: Listed<Var>,
    pub steps: Listed<Step>,
    pub left: NodeId,
    pub right: NodeId,
}
