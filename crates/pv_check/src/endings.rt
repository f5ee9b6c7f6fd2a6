//! Ending blocks: what ends the innermost block, where it is one for a root.

ghost use Rattle.std.specs.Prelude.{◌≡◌, ◌↔◌, IsTrue, None, Some, reverse};
ghost use Rattle.pv_steps.specs.Right.{RightFinish};
ghost use Rattle.pv_steps.specs.Steps.{outer_of};
ghost use Rattle.pv_check.specs.Kept.{open_now};
ghost use Rattle.pv_check.specs.Endings.{AreEqualKids, AreEqualRoots, IsEndingOf, IsInnermost};

use crate::seen::{Seen, Within};
use pv_endings::{RootParts, root_parts};
use pv_graph::{Graph, NodeId};
use pv_steps::{Reason, Step};

// The reasons why the kids of two roots are equal.
#[derive(Clone, Copy)]
pub(crate) struct RootReasons {
    pub(crate) token: Reason,
    pub(crate) fault: Reason,
    pub(crate) result: Reason,
    pub(crate) heap: Reason,
}

// Whether a step opens a block for this root.
fn is_ending_of(step: &Step, root: NodeId) -> bool
    ensures { IsTrue result ↔ IsEndingOf root step.now }
{
    match step {
        Step::Assume(p, _) => *p == root,
        _ => false,
    }
}

impl Seen<'_> {
    // Whether the innermost block is one for this root.
    fn ends(&self, root: NodeId) -> bool
        ensures { IsTrue result ↔ IsInnermost (open_now self.now.steps.now) root }
    {
        match self.open_step() {
            Some(step) => is_ending_of(step, root),
            None => false,
        }
    }

    // Whether the kids of two roots are equal, the tokens by a reason outside the innermost block.
    fn are_equal(&self, left: RootParts, right: RootParts, reasons: RootReasons) -> bool
        ensures { IsTrue result ↔ AreEqualKids (reverse self.now.steps.now) (open_now self.now.steps.now) left right reasons }
    {
        self.gives(Within::Outside, &[], reasons.token, left.token, right.token)
            && self.gives(Within::Here, &[], reasons.fault, left.fault, right.fault)
            && self.gives(Within::Here, &[], reasons.result, left.result, right.result)
            && self.gives(Within::Here, &[], reasons.heap, left.heap, right.heap)
    }

    // Whether the two are roots with equal kids.
    fn equal_roots(&self, graph: &Graph, p: NodeId, q: NodeId, reasons: RootReasons) -> bool
        ensures { IsTrue result ↔ AreEqualRoots graph.now (reverse self.now.steps.now) (open_now self.now.steps.now) p q reasons }
    {
        let Some(left) = root_parts(graph, p) else {
            return false;
        };
        let Some(right) = root_parts(graph, q) else {
            return false;
        };
        self.are_equal(left, right, reasons)
    }

    fn is_finish_by(&self, graph: &Graph, p: NodeId, q: NodeId, reasons: RootReasons) -> bool
        ensures { IsTrue result ↔ (IsInnermost (open_now self.now.steps.now) p × AreEqualRoots graph.now (reverse self.now.steps.now) (open_now self.now.steps.now) p q reasons) }
    {
        self.ends(p) && self.equal_roots(graph, p, q, reasons)
    }

    // Whether the innermost block is one for the root p, and the roots p and q have equal kids.
    pub(crate) fn is_finish(
        &self,
        graph: &Graph,
        p: NodeId,
        q: NodeId,
        reasons: RootReasons,
    ) -> bool
        ensures { IsTrue result ↔ RightFinish graph.now (reverse self.now.steps.now) p q reasons.token reasons.fault reasons.result reasons.heap }
    {
        self.is_finish_by(graph, p, q, reasons)
    }
}
