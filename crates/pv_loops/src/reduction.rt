//! Interval reduction, step by step.

ghost use Rattle.std.specs.Prelude.{◌≡◌, ◌≢◌, ℕ, ◌+◌, ◌-◌, ◌<◌, ◌≤◌, ◌^◌, [], length, slice_index_or, slice_index, IfOk, OnOk, IfSome, IfNone, IsTrue, ◌↔◌, ◌++◌, vec_len};
ghost use Rattle.std.specs.List.{All, Contains};
ghost use Rattle.pv_loops.specs.Shapes.{IsShape, targets};
ghost use Rattle.pv_loops.specs.Groups.{leader_of, Leads, AreGroups, Merges};
ghost use Rattle.pv_loops.specs.Steps.{merge_steps};

use crate::fault::TStep;
use crate::groups::Groups;
use crate::lists::Lists;
use std::alloc::{AllocError, Global};

/// The steps so far, and the groups of nodes that they leave.
#[derive(Debug, Drop)]
pub struct Reduction {
    groups: Groups,
    steps: Vec<TStep>,
}

impl Reduction {
    ghost use Rattle.pv_loops.specs.Reductions.{Reduces, IsOnlySource, AreOthers, AreRest, NoneMerges, StuckFrom};

    /// Reduces the shape whose edges have these sources until no leader but the entry can be merged,
    /// and gives these leaders too. The sweeps go over the nodes other than the entry in this order.
    pub fn collapse(
        alloc: Global,
        count: u32,
        sources: &Lists,
        others: Vec<u32>,
    ) -> Result<(Reduction, Vec<u32>), AllocError>
        requires shape { IsShape sources.now }
        requires count { count ≡ length sources.now }
        requires others { AreOthers count others.items }
        ensures groups { IfOk result (λ r. AreGroups r.0.groups) }
        ensures size { IfOk result (λ r. length r.0.groups.leader.items ≡ length sources.now) }
        ensures reduced { IfOk result (λ r. Reduces sources.now r.0) }
        ensures rest { IfOk result (λ r. AreRest r.0.groups r.1.items) }
        ensures ends { IfOk result (λ r. NoneMerges r.0.groups sources.now r.1.items) }
    {
        let mut reduction = Reduction {
            groups: Groups::single(alloc, count)?,
            steps: Vec::new(alloc),
        };
        let mut rest = others;
        'sweeps: loop {
            let kept = reduction.sweep(alloc, sources, &rest)?;
            if kept.len() == rest.len() {
                return Ok((reduction, kept));
            }
            rest = kept;
        }
    }

    /// The groups that the steps so far leave.
    pub fn into_groups(self) -> Groups
        ensures { result ≡ self.groups }
    {
        let Reduction { groups, steps: _ } = self;
        groups
    }

    /// The steps so far, and then T1 for each leader with an edge to itself: they are stuck where
    /// leaders but the entry are left.
    pub fn into_stuck(self, sources: &Lists, rest: Vec<u32>) -> Result<Vec<TStep>, AllocError>
        requires groups { AreGroups self.groups }
        requires shape { IsShape sources.now }
        requires size { length sources.now ≡ length self.groups.leader.items }
        requires rest { AreRest self.groups rest.items }
        requires some { 0 < vec_len rest }
        requires ends { NoneMerges self.groups sources.now rest.items }
        ensures { IfOk result (λ steps. Reduces sources.now self → StuckFrom sources.now steps.items) }
    {
        let Reduction { groups, mut steps } = self;
        let mut leaders = rest;
        leaders.push(0)?;
        for n in &leaders {
            if has_own_source(&groups, sources.get(*n), *n) {
                steps.push(TStep::T1(*n))?;
            }
        }
        Ok(steps)
    }

    // Goes over the leaders of `rest`, merges each that can be merged, and gives the others.
    fn sweep(
        &mut self,
        alloc: Global,
        sources: &Lists,
        rest: &[u32],
    ) -> Result<Vec<u32>, AllocError>
        requires groups { AreGroups self.old.groups }
        requires shape { IsShape sources.now }
        requires size { length sources.now ≡ length self.old.groups.leader.items }
        requires rest { AreRest self.old.groups rest.now }
        ensures groups { OnOk result (AreGroups self.new.groups) }
        ensures size { OnOk result (length self.new.groups.leader.items ≡ length self.old.groups.leader.items) }
        ensures reduced { OnOk result (Reduces sources.now self.old → Reduces sources.now self.new) }
        ensures rest { IfOk result (λ kept. AreRest self.new.groups kept.items) }
        ensures fewer { IfOk result (λ kept. vec_len kept ≤ length rest.now) }
        ensures ends { IfOk result (λ kept. vec_len kept ≡ length rest.now → NoneMerges self.new.groups sources.now kept.items) }
    {
        let mut kept = Vec::new(alloc);
        for n in rest {
            match Self::only_source(&self.groups, sources.get(*n), *n) {
                None => kept.push(*n)?,
                Some(p) => self.merge(alloc, sources, *n, p)?,
            }
        }
        Ok(kept)
    }

    // Merges the leader `n` into `p`, the only group with edges into it, by T2, after T1 where `n`
    // has an edge to itself.
    fn merge(&mut self, alloc: Global, sources: &Lists, n: u32, p: u32) -> Result<(), AllocError>
        requires groups { AreGroups self.old.groups }
        requires shape { IsShape sources.now }
        requires size { length sources.now ≡ length self.old.groups.leader.items }
        requires leader { Leads self.old.groups n }
        requires nonzero { n ≢ 0 }
        requires only { IsOnlySource self.old.groups (targets sources.now n) n p }
        ensures groups { OnOk result (AreGroups self.new.groups) }
        ensures merged { OnOk result (Merges self.old.groups self.new.groups n p) }
        ensures reduced { OnOk result (Reduces sources.now self.old → Reduces sources.now self.new) }
    {
        let own = has_own_source(&self.groups, sources.get(n), n);
        push_steps(&mut self.steps, own, n, p)?;
        self.groups.merge(alloc, n, p)?;
        Ok(())
    }

    // The only group, other than its own, with a source of `n`.
    fn only_source(groups: &Groups, sources: &[u32], n: u32) -> Option<u32>
        requires { All (λ x. x < length groups.now.leader.items) sources.now }
        ensures only { IfSome result (IsOnlySource groups.now sources.now n) }
        ensures none { IfNone result ((p : ℕ) → IsOnlySource groups.now sources.now n p → ⊥) }
    {
        let mut only = None;
        for x in sources {
            let leader = groups.leader(*x);
            if leader != n {
                match only {
                    None => only = Some(leader),
                    Some(p) => {
                        if p != leader {
                            return None;
                        }
                    }
                }
            }
        }
        only
    }
}

// Whether a source of `n` is in its own group.
fn has_own_source(groups: &Groups, sources: &[u32], n: u32) -> bool
    requires { All (λ x. x < length groups.now.leader.items) sources.now }
    ensures { IsTrue result ↔ ((x : ℕ) × Contains sources.now x × (leader_of groups.now x ≡ n)) }
{
    sources.iter().any(|x| groups.leader(*x) == n)
}

// Adds the steps that merge `n` into `p`.
fn push_steps(steps: &mut Vec<TStep>, own: bool, n: u32, p: u32) -> Result<(), AllocError>
    ensures { OnOk result (steps.new.items ≡ steps.old.items ++ merge_steps own n p) }
{
    if own {
        steps.push(TStep::T1(n))?;
    }
    steps.push(TStep::T2(n, p))?;
    Ok(())
}
