//! The steps so far, what they state, and which blocks are open.

ghost use Rattle.std.specs.Prelude.{◌≡◌, ◌↔◌, ◌<◌, ◌≤◌, IsTrue, Some, true, [], ◌∷◌, length, reverse, slice_get};
ghost use Rattle.pv_steps.specs.Steps.{Shows, both_sides, numbered};
ghost use Rattle.pv_check.specs.Kept.{AreKept, IsSeen, IsVisible, found_at, number_of, open_now, opened_pairs, region, step_pairs};

use pv_graph::NodeId;
use pv_steps::{Congruence, Fact, Step};

// The steps so far, in order; of each number of steps, from 0 on, the innermost open block after them;
// and of each block whether it is open now. A block goes by the number of the step that opened it, and 0
// stands for no block, which is always open.
#[derive(Clone, Copy)]
pub(crate) struct Seen<'a> {
    pub(crate) steps: &'a [Step],
    pub(crate) innermost: &'a [usize],
    pub(crate) opened: &'a [bool],
    ghost kept: { AreKept steps.now innermost.now opened.now },
}

// An equality that a step states, with the innermost block around it.
#[derive(Clone, Copy)]
pub(crate) struct Found {
    pub(crate) around: usize,
    pub(crate) left: NodeId,
    pub(crate) right: NodeId,
}

// The pair at a place, counted from 1.
pub(crate) fn pair_at(pairs: &[(NodeId, NodeId)], place: u32) -> Option<(NodeId, NodeId)>
    ensures { result ≡ numbered pairs.now place }
{
    if place == 0 {
        return None;
    }
    pairs.get(place as usize - 1).copied()
}

// The two nodes of the congruence at a place, counted from 1.
pub(crate) fn sides_at(congruences: &[Congruence], place: u32) -> Option<(NodeId, NodeId)>
    ensures { result ≡ numbered (both_sides congruences.now) place }
{
    if place == 0 || place as usize > congruences.len() {
        return None;
    }
    let found = &congruences[place as usize - 1];
    Some((found.left, found.right))
}

// The one pair that there is, at place 1.
fn only_pair(a: NodeId, b: NodeId, place: u32) -> Option<(NodeId, NodeId)>
    ensures { result ≡ numbered ((a, b) ∷ []) place }
{
    if place == 1 { Some((a, b)) } else { None }
}

// Whether this is the pair of a and b.
pub(crate) fn is_pair(pair: Option<(NodeId, NodeId)>, a: NodeId, b: NodeId) -> bool
    ensures { IsTrue result ↔ (pair ≡ Some (a, b)) }
{
    match pair {
        Some((left, right)) => left == a && right == b,
        None => false,
    }
}

// Where a fact is to be visible: in the blocks that are open now, or outside the innermost of them.
#[derive(Clone, Copy)]
pub(crate) enum Within {
    Here,
    Outside,
}

impl Seen<'_> {
    // The pair at a place of an induction, by its block.
    fn opened_pair(&self, block: usize, place: u32) -> Option<(NodeId, NodeId)>
        requires { block ≤ length self.now.steps.now }
        ensures { result ≡ numbered (opened_pairs self.now.steps.now block) place }
    {
        if block == 0 {
            return None;
        }
        match &self.steps[block - 1] {
            Step::Open(_, pairs) => pair_at(pairs.as_slice(), place),
            _ => None,
        }
    }

    // The pair at a place of what a step states; `inside` is the innermost block before it.
    fn pair_of(&self, step: &Step, inside: usize, place: u32) -> Option<(NodeId, NodeId)>
        requires { inside ≤ length self.now.steps.now }
        ensures { result ≡ numbered (step_pairs step.now (opened_pairs self.now.steps.now inside)) place }
    {
        match step {
            Step::Axiom(_, a, b, _) | Step::Flip(a, b, _) | Step::Chain(a, b, _, _) => {
                only_pair(*a, *b, place)
            }
            Step::Use(_, a, b, _) => only_pair(*a, *b, place),
            Step::Finish(a, b, _, _, _, _) => only_pair(*a, *b, place),
            Step::Set(congruences) => sides_at(congruences.as_slice(), place),
            Step::Open(_, pairs) => pair_at(pairs.as_slice(), place),
            Step::Close(_, _) => self.opened_pair(inside, place),
            Step::Node(_, _, _) | Step::Assume(_, _) => None,
        }
    }

    // The equality that a fact cites, if there is one.
    pub(crate) fn found(&self, fact: Fact) -> Option<Found>
        ensures { result ≡ found_at self.now.steps.now fact }
    {
        let k = fact.step as usize;
        if k == 0 || k > self.steps.len() {
            return None;
        }
        let (inside, around) = (self.innermost[k - 1], self.innermost[k]);
        match self.pair_of(&self.steps[k - 1], inside, fact.place) {
            Some((left, right)) => Some(Found {
                around,
                left,
                right,
            }),
            None => None,
        }
    }

    // The innermost open block.
    pub(crate) fn inside(&self) -> usize
        ensures number { result ≡ number_of (open_now self.now.steps.now) }
        ensures low { result ≤ length self.now.steps.now }
    {
        self.innermost[self.steps.len()]
    }

    // Whether a block is open there.
    fn is_seen(&self, within: Within, block: usize) -> bool
        ensures { IsTrue result ↔ IsSeen within self.now.steps.now self.now.opened.now block }
    {
        let open = matches!(self.opened.get(block), Some(true));
        match within {
            Within::Here => open,
            Within::Outside => open && (block == 0 || block != self.inside()),
        }
    }

    // What a fact states, where it is visible there.
    pub(crate) fn visible(&self, within: Within, fact: Fact) -> Option<(NodeId, NodeId)>
        ensures { IsVisible result within self.now.steps.now fact }
    {
        match self.found(fact) {
            Some(found) => {
                if self.is_seen(within, found.around) {
                    Some((found.left, found.right))
                } else {
                    None
                }
            }
            None => None,
        }
    }

    // Whether a fact states that a and b are equal, and is visible there.
    pub(crate) fn shows(&self, within: Within, fact: Fact, a: NodeId, b: NodeId) -> bool
        ensures { IsTrue result ↔ Shows (reverse self.now.steps.now) (region within self.now.steps.now) fact a b }
    {
        is_pair(self.visible(within, fact), a, b)
    }
}
