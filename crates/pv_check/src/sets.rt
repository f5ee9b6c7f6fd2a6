//! Congruences: nodes of one operation with equal kids, where pairs of a step may rest on each other.

ghost use Rattle.std.specs.Prelude.{◌≡◌, ◌↔◌, ◌≤◌, ◌<◌, ℕ, IsTrue, length, reverse};
ghost use Rattle.std.specs.List.{AllByRecursion};
ghost use Rattle.pv_graph.specs.Walks.{In};
ghost use Rattle.pv_graph.specs.Graphs.{IsGraph};
ghost use Rattle.pv_steps.specs.declared.step.Congruence.{Congruence};
ghost use Rattle.pv_steps.specs.Right.{IsOutside, RightCongruence};
ghost use Rattle.pv_check.specs.Kept.{open_now};
ghost use Rattle.pv_check.specs.Sets.{AreAlike, IsOutsideAt, KeepsDepth, KeepsDepths, LooksElsewhere};

use crate::nodes::{is_same_op, looks_at_depth, node_at};
use crate::seen::Seen;
use pv_graph::Graph;
use pv_steps::{Congruence, Reason};

// Loops nest to this depth.
const MOST_DEPTH: u32 = 16;

// Whether no left node of a set looks at other iterations of this depth.
fn none_looks(graph: &Graph, set: &[Congruence], depth: u32) -> bool
    ensures { IsTrue result ↔ AllByRecursion (LooksElsewhere graph.now depth) set.now }
{
    for congruence in set {
        if looks_at_depth(graph, congruence.left, depth) {
            return false;
        }
    }
    true
}

impl Seen<'_> {
    // Whether no reason is a fact that is stated inside a block of this depth.
    fn all_outside(&self, depth: u32, reasons: &[Reason]) -> bool
        ensures { IsTrue result ↔ AllByRecursion (IsOutside (reverse self.now.steps.now) depth) reasons.now }
    {
        for reason in reasons {
            if !self.is_outside(depth, *reason) {
                return false;
            }
        }
        true
    }

    // Whether no reason of a set is one.
    fn set_outside(&self, depth: u32, set: &[Congruence]) -> bool
        ensures { IsTrue result ↔ AllByRecursion (IsOutsideAt (reverse self.now.steps.now) depth) set.now }
    {
        for congruence in set {
            if !self.all_outside(depth, congruence.reasons.as_slice()) {
                return false;
            }
        }
        true
    }

    // Whether a set keeps the rule of depths at this one: a node that looks at other iterations takes no
    // reason from inside.
    fn keeps_depth(&self, graph: &Graph, set: &[Congruence], depth: u32) -> bool
        ensures { IsTrue result ↔ KeepsDepth graph.now (reverse self.now.steps.now) set.now depth }
    {
        none_looks(graph, set, depth) || self.set_outside(depth, set)
    }

    // Whether a set keeps it at each depth of a loop.
    fn keeps_depths(&self, graph: &Graph, set: &[Congruence]) -> bool
        ensures { IsTrue result ↔ KeepsDepths graph.now (reverse self.now.steps.now) set.now }
    {
        for depth in 1..MOST_DEPTH + 1 {
            if !self.keeps_depth(graph, set, depth) {
                return false;
            }
        }
        true
    }

    // Whether two nodes have one operation and equal kids.
    fn is_alike(&self, graph: &Graph, set: &[Congruence], congruence: &Congruence) -> bool
        ensures { IsTrue result ↔ AreAlike graph.now (reverse self.now.steps.now) (open_now self.now.steps.now) set.now congruence.now }
    {
        let Some(left) = node_at(graph, congruence.left) else {
            return false;
        };
        let Some(right) = node_at(graph, congruence.right) else {
            return false;
        };
        is_same_op(&left.op, &right.op)
            && self.give_all(
                set,
                congruence.reasons.as_slice(),
                left.kids.as_slice(),
                right.kids.as_slice(),
            )
    }

    // Whether all pairs of a set are two such nodes.
    fn all_alike(&self, graph: &Graph, set: &[Congruence]) -> bool
        ensures { IsTrue result ↔ AllByRecursion (AreAlike graph.now (reverse self.now.steps.now) (open_now self.now.steps.now) set.now) set.now }
    {
        for congruence in set {
            if !self.is_alike(graph, set, congruence) {
                return false;
            }
        }
        true
    }

    fn has_parts(&self, graph: &Graph, set: &[Congruence]) -> bool
        ensures { IsTrue result ↔ (AllByRecursion (AreAlike graph.now (reverse self.now.steps.now) (open_now self.now.steps.now) set.now) set.now × KeepsDepths graph.now (reverse self.now.steps.now) set.now) }
    {
        self.all_alike(graph, set) && self.keeps_depths(graph, set)
    }

    // Whether each congruence of a set is right.
    pub(crate) fn is_set(&self, graph: &Graph, set: &[Congruence]) -> bool
        ensures { IsTrue result ↔ ((c : Congruence) → In set.now c → RightCongruence graph.now (reverse self.now.steps.now) (open_now self.now.steps.now) set.now c) }
    {
        let _ = graph.len();
        self.has_parts(graph, set)
    }
}
