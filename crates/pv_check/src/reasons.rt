//! Reasons: why two kids are equal, and inside which blocks that is stated.

ghost use Rattle.std.specs.Prelude.{◌≡◌, ◌↔◌, ◌≤◌, ⊤, IsTrue, length, reverse};
ghost use Rattle.pv_graph.specs.Walks.{In};
ghost use Rattle.pv_steps.specs.Steps.{blocks, both_sides};
ghost use Rattle.pv_steps.specs.Right.{AreOutside, GiveAll, Gives, IsFresh, IsOutside};
ghost use Rattle.pv_check.specs.Kept.{blocks_at, number_of, open_now, region};
ghost use Rattle.pv_check.specs.Depths.{IsOfDepth};

use crate::seen::{Seen, Within, is_pair, sides_at};
use pv_graph::NodeId;
use pv_steps::{Congruence, Reason, Step};

// Whether a step opens an induction of this depth.
fn opens_loop(step: &Step, depth: u32) -> bool
    ensures { IsTrue result ↔ IsOfDepth depth step.now }
{
    match step {
        Step::Open(d, _) => *d == depth,
        _ => false,
    }
}

impl Seen<'_> {
    // Whether no block around is of this depth: not this one, and none outside it.
    pub(crate) fn is_fresh(&self, block: usize, depth: u32) -> bool
        requires known { block ≤ length self.now.steps.now }
        requires block { number_of (blocks_at self.now.steps.now block) ≡ block }
        ensures { IsTrue result ↔ IsFresh depth (blocks (blocks_at self.now.steps.now block)) }
    {
        let mut around = block;
        while around != 0 {
            if opens_loop(&self.steps[around - 1], depth) {
                return false;
            }
            around = self.innermost[around - 1];
        }
        true
    }

    // Whether no open block is of this depth.
    pub(crate) fn is_fresh_now(&self, depth: u32) -> bool
        ensures { IsTrue result ↔ IsFresh depth (blocks (open_now self.now.steps.now)) }
    {
        self.is_fresh(self.inside(), depth)
    }

    // Whether a reason isn't a fact that is stated inside a block of this depth.
    pub(crate) fn is_outside(&self, depth: u32, reason: Reason) -> bool
        ensures { IsTrue result ↔ IsOutside (reverse self.now.steps.now) depth reason }
    {
        match reason {
            Reason::By(fact) => match self.found(fact) {
                Some(found) => self.is_fresh(found.around, depth),
                None => true,
            },
            Reason::Same | Reason::Pair(_) => true,
        }
    }

    // Whether a reason says that a and b are equal. Its own pairs are those of `set`.
    pub(crate) fn gives(
        &self,
        within: Within,
        set: &[Congruence],
        reason: Reason,
        a: NodeId,
        b: NodeId,
    ) -> bool
        ensures { IsTrue result ↔ Gives (reverse self.now.steps.now) (region within self.now.steps.now) (both_sides set.now) reason a b }
    {
        match reason {
            Reason::Same => a == b,
            Reason::By(fact) => self.shows(within, fact, a, b),
            Reason::Pair(place) => is_pair(sides_at(set, place), a, b),
        }
    }

    // Whether there is one reason for each kid, which says that the two are equal.
    pub(crate) fn give_all(
        &self,
        set: &[Congruence],
        reasons: &[Reason],
        lefts: &[NodeId],
        rights: &[NodeId],
    ) -> bool
        ensures { IsTrue result ↔ GiveAll (reverse self.now.steps.now) (open_now self.now.steps.now) (both_sides set.now) reasons.now lefts.now rights.now }
    {
        let mut left_kids = lefts;
        let mut right_kids = rights;
        for reason in reasons {
            let [left, lefts_after @ ..] = left_kids else {
                return false;
            };
            let [right, rights_after @ ..] = right_kids else {
                return false;
            };
            if !self.gives(Within::Here, set, *reason, *left, *right) {
                return false;
            }
            left_kids = lefts_after;
            right_kids = rights_after;
        }
        left_kids.is_empty() && right_kids.is_empty()
    }
}
