//! Inductions: what ends the innermost block, where it is one over the iterations of a depth.

ghost use Rattle.std.specs.Prelude.{◌≡◌, ◌↔◌, [], ◌∷◌, IsTrue, MatchOption, None, Some, length, reverse};
ghost use Rattle.std.specs.List.{AllZip};
ghost use Rattle.pv_graph.specs.declared.node.Op.TheVariants as Op;
ghost use Rattle.pv_steps.specs.Steps.{outer_of};
ghost use Rattle.pv_steps.specs.Right.{ClosesPair, Is, RightClose};
ghost use Rattle.pv_check.specs.Kept.{open_now};
ghost use Rattle.pv_check.specs.Inductions.{HasNext, HasStart, IsStart, Opens, loop_pairs};

use crate::nodes::{count_of, is_eval, is_shift, is_zero};
use crate::seen::{Seen, Within};
use pv_graph::{Graph, NodeId};
use pv_steps::{Fact, Step};

// The pairs of the induction of this depth that a step opens.
fn loop_pairs(step: &Step, depth: u32) -> Option<&[(NodeId, NodeId)]>
    ensures { MatchOption result (loop_pairs depth step.now ≡ None) (λ pairs. loop_pairs depth step.now ≡ Some pairs.now) }
{
    match step {
        Step::Open(d, pairs) => {
            if *d == depth {
                Some(pairs.as_slice())
            } else {
                None
            }
        }
        _ => None,
    }
}

// Whether the count is zero, and a node the eval of this depth over the kid and the count.
fn is_eval_at_zero(graph: &Graph, n: NodeId, depth: u32, kid: NodeId, count: NodeId) -> bool
    ensures { IsTrue result ↔ (Is graph.now count Op.Zero [] × Is graph.now n (Op.Eval depth) (kid ∷ count ∷ [])) }
{
    is_zero(graph, count) && is_eval(graph, n, depth, kid, count)
}

// Whether these two nodes are a pair at iteration 0.
fn is_start(graph: &Graph, depth: u32, pair: (NodeId, NodeId), left: NodeId, right: NodeId) -> bool
    ensures { IsTrue result ↔ IsStart graph.now depth pair left right }
{
    match count_of(graph, left, depth, pair.0) {
        Some(count) => is_eval_at_zero(graph, right, depth, pair.1, count),
        None => false,
    }
}

// Whether these two nodes are a pair one iteration later.
fn is_next(graph: &Graph, depth: u32, pair: (NodeId, NodeId), left: NodeId, right: NodeId) -> bool
    ensures { IsTrue result ↔ (Is graph.now left (Op.Shift depth) (pair.0 ∷ []) × Is graph.now right (Op.Shift depth) (pair.1 ∷ [])) }
{
    is_shift(graph, left, depth, pair.0) && is_shift(graph, right, depth, pair.1)
}

impl Seen<'_> {
    // The step that opened the innermost block.
    pub(crate) fn open_step(&self) -> Option<&Step>
        ensures { MatchOption result (open_now self.now.steps.now ≡ []) (λ step. Opens (open_now self.now.steps.now) step.now) }
    {
        let block = self.inside();
        if block == 0 {
            None
        } else {
            Some(&self.steps[block - 1])
        }
    }

    // Whether a fact outside the innermost block states that a pair is equal at iteration 0.
    fn has_start(&self, graph: &Graph, depth: u32, pair: (NodeId, NodeId), fact: Fact) -> bool
        ensures { IsTrue result ↔ HasStart graph.now (reverse self.now.steps.now) depth (outer_of (open_now self.now.steps.now)) pair fact }
    {
        match self.visible(Within::Outside, fact) {
            Some((left, right)) => is_start(graph, depth, pair, left, right),
            None => false,
        }
    }

    // Whether a visible fact states that a pair is equal one iteration later.
    fn has_next(&self, graph: &Graph, depth: u32, pair: (NodeId, NodeId), fact: Fact) -> bool
        ensures { IsTrue result ↔ HasNext graph.now (reverse self.now.steps.now) depth (open_now self.now.steps.now) pair fact }
    {
        match self.visible(Within::Here, fact) {
            Some((left, right)) => is_next(graph, depth, pair, left, right),
            None => false,
        }
    }

    fn has_both(
        &self,
        graph: &Graph,
        depth: u32,
        pair: (NodeId, NodeId),
        facts: (Fact, Fact),
    ) -> bool
        ensures { IsTrue result ↔ (HasStart graph.now (reverse self.now.steps.now) depth (outer_of (open_now self.now.steps.now)) pair facts.0 × HasNext graph.now (reverse self.now.steps.now) depth (open_now self.now.steps.now) pair facts.1) }
    {
        self.has_start(graph, depth, pair, facts.0) && self.has_next(graph, depth, pair, facts.1)
    }

    // Whether a pair of an induction is shown by two facts.
    fn closes_pair(
        &self,
        graph: &Graph,
        depth: u32,
        pair: (NodeId, NodeId),
        facts: (Fact, Fact),
    ) -> bool
        ensures { IsTrue result ↔ ClosesPair graph.now (reverse self.now.steps.now) depth (open_now self.now.steps.now) (outer_of (open_now self.now.steps.now)) pair facts }
    {
        self.has_both(graph, depth, pair, facts)
    }

    // Whether each pair is shown by the two facts at its place.
    fn closes_all(
        &self,
        graph: &Graph,
        depth: u32,
        pairs: &[(NodeId, NodeId)],
        facts: &[(Fact, Fact)],
    ) -> bool
        ensures { IsTrue result ↔ AllZip (ClosesPair graph.now (reverse self.now.steps.now) depth (open_now self.now.steps.now) (outer_of (open_now self.now.steps.now))) pairs.now facts.now }
    {
        let mut rest = facts;
        for pair in pairs {
            let [first, after @ ..] = rest else {
                return false;
            };
            if !self.closes_pair(graph, depth, *pair, *first) {
                return false;
            }
            rest = after;
        }
        rest.is_empty()
    }

    // Whether the innermost block is an induction of this depth, each pair of which is shown.
    pub(crate) fn is_close(&self, graph: &Graph, depth: u32, facts: &[(Fact, Fact)]) -> bool
        ensures { IsTrue result ↔ RightClose graph.now (reverse self.now.steps.now) depth facts.now }
    {
        let Some(step) = self.open_step() else {
            return false;
        };
        match loop_pairs(step, depth) {
            Some(pairs) => self.closes_all(graph, depth, pairs, facts),
            None => false,
        }
    }
}
