//! A section of a certificate, checked by pieces at once.

ghost use Rattle.std.specs.Prelude.{◌≡◌, ◌↔◌, ◌≤◌, ◌<◌, ◌+◌, ◌-◌, ◌/◌, ◌∷◌, ◌++◌, [], ℕ, min, max, List, IfOk, IfSome, IfNone, IsTrue, false, length, reverse};
ghost use Rattle.std.specs.Bool.{OnTrue, OnFalse};
ghost use Rattle.pv_graph.specs.Graphs.{Graph};
ghost use Rattle.pv_steps.specs.Right.{GraphAfter, Grows, RightOver};
ghost use Rattle.pv_pieces.specs.Cut.{start_of};
ghost use Rattle.pv_check.specs.Kept.{AreKept};
ghost use Rattle.pv_check.specs.Growth.{GrowsTo};
ghost use Rattle.pv_check.specs.Checking.{IsAfter, IsFirst, IsJudged, IsPiece, IsReplayed, IsRightAt, claimed};
ghost use Rattle.pv_steps.specs.Accepted.{Derives, IsConcluded, Rejects, first_steps};

use crate::moment::follow;
use crate::rules::Rules;
use crate::seen::Seen;
use crate::tables::Tables;
use pv_base::Gate;
use pv_graph::{Graph, NodeId};
use pv_pieces::{Workers, bounds};
use pv_steps::Step;
use pv_value::Memory;
use std::alloc::Global;
use std::thread;
use std::thread::Threads;

/// The fewest steps for which a section gets another worker: fewer are tested in less time than a thread takes to start.
pub const STEPS_A_WORKER: usize = 512;

// Takes a step after those before it, where it is right.
fn advance<R: Rules>(
    alloc: Global,
    rules: &R,
    graph: &mut Graph,
    tables: &mut Tables,
    before: &[Step],
    step: &Step,
) -> Result<bool, Memory>
    requires sealed { graph.old.is_open ≡ false }
    requires kept { AreKept before.now tables.old.innermost.items tables.old.opened.items }
    ensures right { IfOk result (λ yes. IsTrue yes ↔ RightOver (R.instances rules.now) graph.old (reverse before.now) step.now) }
    ensures grows { IfOk result (λ yes. OnTrue yes (GrowsTo step.now graph.old graph.new)) }
    ensures kept { IfOk result (λ yes. OnTrue yes (AreKept (before.now ++ step.now ∷ []) tables.new.innermost.items tables.new.opened.items)) }
{
    let seen = Seen {
        steps: before,
        innermost: tables.innermost.as_slice(),
        opened: tables.opened.as_slice(),
    };
    if !seen.takes(alloc, rules, graph, step)? {
        return Ok(false);
    }
    tables.take(before, step)?;
    Ok(true)
}

// Takes a step after those before it, right or not, where there is a graph after it.
fn replay(
    alloc: Global,
    graph: &mut Graph,
    tables: &mut Tables,
    before: &[Step],
    step: &Step,
) -> Result<bool, Memory>
    requires sealed { graph.old.is_open ≡ false }
    requires kept { AreKept before.now tables.old.innermost.items tables.old.opened.items }
    ensures grows { IfOk result (λ yes. OnTrue yes (GrowsTo step.now graph.old graph.new)) }
    ensures none { IfOk result (λ yes. OnFalse yes ((new : Graph) → Grows step.now graph.old new → ⊥)) }
    ensures kept { IfOk result (λ yes. OnTrue yes (AreKept (before.now ++ step.now ∷ []) tables.new.innermost.items tables.new.opened.items)) }
{
    if !follow(alloc, graph, step)? {
        return Ok(false);
    }
    tables.take(before, step)?;
    Ok(true)
}

// The graph after the first steps, and what is kept of these.
#[derive(Drop)]
struct Front {
    graph: Graph,
    tables: Tables,
}

/// The answer about a section: it is accepted, or rejected with the number of the first step that isn't right,
/// or with one more than the number of steps where they don't conclude that the two nodes are equal.
#[derive(Clone, Copy, Debug, PartialEq, Eq)]
pub enum Checked {
    Accepted,
    Rejected(usize),
}

// The answer about a section whose pieces answer this, in their order: the first number of a piece is its number.
fn put_together(parts: &[Result<Option<usize>, Memory>]) -> Result<Checked, Memory>
    ensures { IfOk result (λ answer. IsFirst parts.now answer) }
{
    for part in parts {
        if let Some(number) = (*part)? {
            return Ok(Checked::Rejected(number));
        }
    }
    Ok(Checked::Accepted)
}

/// A section of a certificate, to be checked by rules over a graph: whether its steps show that two nodes are equal. Steps are counted from 1.
#[derive(Drop)]
pub struct Checker<'a, R> {
    pub rules: &'a R,
    pub graph: &'a Graph,
    pub first: NodeId,
    pub second: NodeId,
    pub steps: &'a [Step],
}

impl<'a, R: Rules> Checker<'a, R> {
    /// The checker of these steps. It takes no memory.
    pub fn new(
        rules: &'a R,
        graph: &'a Graph,
        first: NodeId,
        second: NodeId,
        steps: &'a [Step],
    ) -> Checker<'a, R>
        ensures rules { result.rules.now ≡ rules.now }
        ensures graph { result.graph.now ≡ graph.now }
        ensures first { result.first ≡ first }
        ensures second { result.second ≡ second }
        ensures steps { result.steps.now ≡ steps.now }
    {
        Checker {
            rules,
            graph,
            first,
            second,
            steps,
        }
    }

    /// As many of these workers as there are steps for ([`STEPS_A_WORKER`] each), but one at least. It takes no memory.
    pub fn crew<'w, T, G>(&self, workers: &Workers<'w, T, G>) -> Workers<'w, T, G>
        ensures { result.count ≡ max 1 (min workers.now.count (length self.now.steps.now / STEPS_A_WORKER)) }
    {
        let most = self.steps.len() / STEPS_A_WORKER;
        Workers::new(workers.rt, workers.gate, workers.count().min(most).max(1))
    }

    // The front of the first n steps, right or not, where there is a graph after them.
    fn front(&self, alloc: Global, n: usize) -> Result<Option<Front>, Memory>
        requires sealed { self.now.graph.now.is_open ≡ false }
        requires within { n ≤ length self.now.steps.now }
        ensures some { IfOk result (λ front. IfSome front (λ f. IsReplayed self.now.graph.now self.now.steps.now n f.tables.innermost.items f.tables.opened.items f.graph)) }
        ensures none { IfOk result (λ front. IfNone front ((now : Graph) → GraphAfter self.now.graph.now (first_steps n self.now.steps.now) now → ⊥)) }
    {
        let mut graph = self.graph.copy(alloc)?;
        let mut tables = Tables::new(alloc)?;
        for k in 0..n {
            let (before, step) = (&self.steps[..k], &self.steps[k]);
            let has_graph = replay(alloc, &mut graph, &mut tables, before, step)?;
            if !has_graph {
                return Ok(None);
            }
        }
        Ok(Some(Front { graph, tables }))
    }

    /// The graph after all steps, right or not, where there is one: node steps are right then. Its time is linear in the steps. Out of
    /// memory is the one error.
    pub fn graph_after(&self, alloc: Global) -> Result<Option<Graph>, Memory>
        requires sealed { self.now.graph.now.is_open ≡ false }
        ensures some { IfOk result (λ found. IfSome found (λ now. IsAfter self.now.graph.now self.now.steps.now now)) }
        ensures none { IfOk result (λ found. IfNone found ((now : Graph) → GraphAfter self.now.graph.now (reverse self.now.steps.now) now → ⊥)) }
    {
        match self.front(alloc, self.steps.len())? {
            Some(front) => Ok(Some(front.graph)),
            None => Ok(None),
        }
    }

    /// Whether step k is right after the steps before it, each node step of which is right. Other steps before it may
    /// be wrong. It goes over the steps before k, so its time is linear in k. Out of memory is the one error.
    pub fn step_is_right(&self, alloc: Global, k: usize) -> Result<bool, Memory>
        requires sealed { self.now.graph.now.is_open ≡ false }
        requires first { 1 ≤ k }
        requires last { k ≤ length self.now.steps.now }
        ensures right { IfOk result (λ yes. IsTrue yes ↔ IsRightAt (R.instances self.now.rules.now) self.now.graph.now self.now.steps.now k) }
    {
        let Some(mut front) = self.front(alloc, k - 1)? else {
            return Ok(false);
        };
        let seen = Seen {
            steps: &self.steps[..k - 1],
            innermost: front.tables.innermost.as_slice(),
            opened: front.tables.opened.as_slice(),
        };
        seen.takes(alloc, self.rules, &mut front.graph, &self.steps[k - 1])
    }

    // Whether all steps, of which this is kept, conclude that the two nodes are equal.
    fn concludes(&self, tables: &Tables) -> bool
        requires { AreKept self.now.steps.now tables.now.innermost.items tables.now.opened.items }
        ensures { IsTrue result ↔ IsConcluded (reverse self.now.steps.now) self.now.first self.now.second }
    {
        let seen = Seen {
            steps: self.steps,
            innermost: tables.innermost.as_slice(),
            opened: tables.opened.as_slice(),
        };
        seen.concludes(self.first, self.second)
    }

    // The number with which the steps from one place to another reject the section, if they do, where all steps before
    // them are right. The last steps reject it too where all don't conclude that the two nodes are equal.
    fn piece<G: Gate>(
        &self,
        alloc: Global,
        gate: &G,
        piece: usize,
        from: usize,
        to: usize,
    ) -> Result<Option<usize>, Memory>
        requires sealed { self.now.graph.now.is_open ≡ false }
        requires order { from ≤ to }
        requires within { to ≤ length self.now.steps.now }
        ensures { IfOk result (λ number. IsPiece (R.instances self.now.rules.now) (claimed self.now.graph.now self.now.first self.now.second) self.now.steps.now from to number) }
    {
        let Some(mut front) = self.front(alloc, from)? else {
            return Ok(None);
        };
        for k in from..to {
            gate.enter(piece);
            if !advance(
                alloc,
                self.rules,
                &mut front.graph,
                &mut front.tables,
                &self.steps[..k],
                &self.steps[k],
            )? {
                return Ok(Some(k + 1));
            }
        }
        if to == self.steps.len() && !self.concludes(&front.tables) {
            return Ok(Some(to + 1));
        }
        Ok(None)
    }
}

impl<'a, R: Rules + Sync> Checker<'a, R> {
    // Tests the steps by pieces at once, of which there are no more than steps.
    fn judge<T: Threads + Sync, G: Gate>(
        &self,
        workers: &Workers<T, G>,
        alloc: Global,
    ) -> Result<Checked, Memory>
        requires { self.now.graph.now.is_open ≡ false }
        ensures { IfOk result (λ answer. IsJudged (R.instances self.now.rules.now) (claimed self.now.graph.now self.now.first self.now.second) self.now.steps.now answer) }
    {
        let (checker, gate) = (self, workers.gate);
        let n = self.steps.len();
        let count = workers.count().min(n).max(1);
        let parts = thread::map_indices(
            workers.rt,
            alloc,
            count,
            &|k| -> Result<Option<usize>, Memory>
                requires { (checker.now.graph.now.is_open ≡ false) × (n ≡ length checker.now.steps.now) × (k < count) }
                ensures { IfOk result (λ number. IsPiece (R.instances checker.entry.now.rules.now) (claimed checker.entry.now.graph.now checker.entry.now.first checker.entry.now.second) checker.entry.now.steps.now (start_of n count k) (start_of n count (k + 1)) number) }
            {
                let (from, to) = bounds(n, count, k);
                checker.piece(alloc, gate, k, from, to)
            },
        )?;
        put_together(parts.as_slice())
    }

    /// Whether the section is accepted, or the least step of it that isn't right; one more than the number of steps
    /// where all are right but don't conclude that the two nodes are equal. Each piece passes the gate before each of its steps. Workers change no
    /// answer. Out of memory is the one error.
    pub fn check<T: Threads + Sync, G: Gate>(
        &self,
        workers: &Workers<T, G>,
        alloc: Global,
    ) -> Result<Checked, Memory>
        requires sealed { self.now.graph.now.is_open ≡ false }
        ensures accepts { IfOk result (λ answer. (answer ≡ Checked.Accepted) ↔ Derives (R.instances self.now.rules.now) self.now.graph.now self.now.first self.now.second self.now.steps.now) }
        ensures rejects { IfOk result (λ answer. (n : ℕ) → (answer ≡ Checked.Rejected n) ↔ Rejects (R.instances self.now.rules.now) self.now.graph.now self.now.first self.now.second self.now.steps.now n) }
    {
        self.judge(workers, alloc)
    }
}
