//! Whether a section concludes that two nodes are equal.

ghost use Rattle.std.specs.Prelude.{◌≡◌, ◌↔◌, ◌≤◌, IsTrue, [], length, reverse};
ghost use Rattle.pv_graph.specs.Walks.{In};
ghost use Rattle.pv_steps.specs.Steps.{both_sides};
ghost use Rattle.pv_steps.specs.Accepted.{IsConcluded, LastStates};
ghost use Rattle.pv_check.specs.Kept.{open_now, opened_pairs, step_pairs};

use crate::seen::Seen;
use pv_graph::NodeId;
use pv_steps::{Congruence, Step};

// Whether the pair of a and b is among these.
fn has_pair(pairs: &[(NodeId, NodeId)], a: NodeId, b: NodeId) -> bool
    ensures { IsTrue result ↔ In pairs.now (a, b) }
{
    for pair in pairs {
        if pair.0 == a && pair.1 == b {
            return true;
        }
    }
    false
}

// Whether the two nodes of one of the congruences are a and b.
fn has_sides(congruences: &[Congruence], a: NodeId, b: NodeId) -> bool
    ensures { IsTrue result ↔ In (both_sides congruences.now) (a, b) }
{
    for congruence in congruences {
        if congruence.left == a && congruence.right == b {
            return true;
        }
    }
    false
}

impl Seen<'_> {
    // Whether the pair of a and b is among those of an induction, by its block.
    fn opened_has(&self, block: usize, a: NodeId, b: NodeId) -> bool
        requires { block ≤ length self.now.steps.now }
        ensures { IsTrue result ↔ In (opened_pairs self.now.steps.now block) (a, b) }
    {
        if block == 0 {
            return false;
        }
        match &self.steps[block - 1] {
            Step::Open(_, pairs) => has_pair(pairs.as_slice(), a, b),
            _ => false,
        }
    }

    // Whether it is among what a step states; `inside` is the innermost block before it.
    fn states(&self, step: &Step, inside: usize, a: NodeId, b: NodeId) -> bool
        requires { inside ≤ length self.now.steps.now }
        ensures { IsTrue result ↔ In (step_pairs step.now (opened_pairs self.now.steps.now inside)) (a, b) }
    {
        match step {
            Step::Axiom(_, left, right, _) => *left == a && *right == b,
            Step::Use(_, left, right, _) => *left == a && *right == b,
            Step::Flip(left, right, _) => *left == a && *right == b,
            Step::Chain(left, right, _, _) => *left == a && *right == b,
            Step::Finish(left, right, _, _, _, _) => *left == a && *right == b,
            Step::Set(congruences) => has_sides(congruences.as_slice(), a, b),
            Step::Open(_, pairs) => has_pair(pairs.as_slice(), a, b),
            Step::Close(_, _) => self.opened_has(inside, a, b),
            Step::Node(_, _, _) | Step::Assume(_, _) => false,
        }
    }

    // Whether no block is open.
    fn is_outermost(&self) -> bool
        ensures { IsTrue result ↔ (open_now self.now.steps.now ≡ []) }
    {
        self.inside() == 0
    }

    // Whether the last step states that a and b are equal, where no block is open.
    fn last_states(&self, a: NodeId, b: NodeId) -> bool
        requires { open_now self.now.steps.now ≡ [] }
        ensures { IsTrue result ↔ LastStates (reverse self.now.steps.now) a b }
    {
        let n = self.steps.len();
        if n == 0 {
            return false;
        }
        self.states(&self.steps[n - 1], self.innermost[n - 1], a, b)
    }

    // Whether these steps conclude that a and b are equal.
    pub(crate) fn concludes(&self, a: NodeId, b: NodeId) -> bool
        ensures { IsTrue result ↔ IsConcluded (reverse self.now.steps.now) a b }
    {
        self.is_outermost() && (a == b || self.last_states(a, b))
    }
}
