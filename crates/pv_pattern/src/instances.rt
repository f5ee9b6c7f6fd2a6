//! Whether two nodes are an instance of an axiom.

ghost use Rattle.std.specs.Prelude.{◌≡◌, ◌↔◌, ℕ, [], true, IfOk, IsTrue, MatchOption, Some, map, slice_get};
ghost use Rattle.std.specs.List.{AllByRecursion};
ghost use Rattle.pv_graph.specs.Walks.{Free, IsSettled, MeetsVariable};
ghost use Rattle.pv_pattern.specs.Binding.{BindsItsNames};
ghost use Rattle.pv_pattern.specs.Found.{Differs, HasNoReading, IsReading, names_of, view_of};
ghost use Rattle.pv_pattern.specs.Instances.{Holds, HoldsForAll, IsInstance, IsOpenInstance, Stands};
ghost use Rattle.pv_pattern.specs.Patterns.{is_family, is_family_of, not_free, settled, variables, variables_of};
ghost use Rattle.pv_pattern.specs.Seen.{axiom_seen, listed, seen, side_seen};

use crate::names::Reading;
use crate::pattern::{Axiom, Each, Pattern, Side};
use pv_graph::{Graph, NodeId};
use pv_value::{Kind, Memory};
use std::alloc::Global;

// How many variables a pattern has.
#[cycle(variables)]
fn variables(pattern: &Pattern) -> usize
    ensures { result ≡ variables (seen pattern.now) }
{
    match pattern {
        Pattern::Var(j) | Pattern::Constant(j) => *j as usize + 1,
        Pattern::Fold(_, _) => 0,
        Pattern::Narrowed(_, inner) => variables(inner),
        Pattern::Over(_, patterns) => variables_of(patterns),
        Pattern::OverEach(_, Each::Evaluated(j)) => *j as usize + 1,
        Pattern::OverEach(_, _) => 0,
    }
}

// How many variables patterns have.
#[cycle(variables)]
fn variables_of(patterns: &[Pattern]) -> usize
    ensures { result ≡ variables_of (listed (map seen patterns.now)) }
{
    let mut most = 0;
    for pattern in patterns {
        most = most.max(variables(pattern));
    }
    most
}

// Whether a pattern is one of a family.
#[cycle(family)]
fn is_family(pattern: &Pattern) -> bool
    ensures { result ≡ is_family (seen pattern.now) }
{
    match pattern {
        Pattern::OverEach(_, _) => true,
        Pattern::Over(_, patterns) => is_family_of(patterns),
        Pattern::Narrowed(_, inner) => is_family(inner),
        _ => false,
    }
}

// Whether one of these patterns is one of a family.
#[cycle(family)]
fn is_family_of(patterns: &[Pattern]) -> bool
    ensures { result ≡ is_family_of (listed (map seen patterns.now)) }
{
    for pattern in patterns {
        if is_family(pattern) {
            return true;
        }
    }
    false
}

// A left side at a node, with the kids of a family and the nodes of its variables; `None` where a
// substitution has too few nodes, or kids for no family.
fn reading_of<'a>(
    graph: &'a Graph,
    left: &'a Pattern,
    subst: &'a [NodeId],
    at: NodeId,
) -> Option<Reading<'a>>
    ensures { MatchOption result (HasNoReading (seen left.now) subst.now) (λ r. IsReading graph.now left.now subst.now at r) }
{
    let count = variables(left);
    if subst.len() < count {
        return None;
    }
    let (kids, vars) = subst.split_at(subst.len() - count);
    if !is_family(left) && !kids.is_empty() {
        return None;
    }
    Some(Reading {
        graph,
        left,
        at,
        kids,
        vars,
    })
}

impl Reading<'_> {
    // Whether both sides of an axiom stand at these nodes.
    fn both_stand(&self, rule: &Axiom, l: NodeId, r: NodeId) -> bool
        ensures { IsTrue result ↔ (Stands (view_of self.now) (names_of self.now) (seen rule.now.left) l × Stands (view_of self.now) (names_of self.now) (seen rule.now.right) r) }
    {
        self.stands(&rule.left, l) && self.stands(&rule.right, r)
    }

    // Whether a condition holds that asks nothing of the graph; others count as held.
    fn differs(&self, side: Side) -> bool
        ensures { IsTrue result ↔ Differs (names_of self.now) (side_seen side) }
    {
        match side {
            Side::SymbolsDiffer(s, t) => {
                self.name(s) != self.name(t) || self.desc(s) != self.desc(t)
            }
            Side::KindsDiffer(k, l) => self.kind(k) != self.kind(l),
            Side::NotByte(k) => self.kind(k) != Kind::Byte,
            Side::ConstantsDiffer(j, k) => self.constant(j) != self.constant(k),
            Side::Settled(_) | Side::NotFree(_) => true,
        }
    }

    fn is_settled(&self, alloc: Global, assumed: &[NodeId], n: NodeId) -> Result<bool, Memory>
        ensures { IfOk result (λ yes. IsTrue yes ↔ IsSettled (view_of self.now) assumed.now n) }
    {
        if n < self.graph.len() {
            self.graph.settled(alloc, n, assumed)
        } else {
            Ok(true)
        }
    }

    // Whether the depth is free in a node.
    fn is_free(&self, alloc: Global, n: NodeId) -> Result<bool, Memory>
        ensures { IfOk result (λ yes. IsTrue yes ↔ Free (view_of self.now) (names_of self.now).depth n) }
    {
        if n < self.graph.len() {
            self.graph.free(alloc, n, self.depth())
        } else {
            Ok(false)
        }
    }

    fn var(&self, j: u32) -> Option<NodeId>
        ensures { result ≡ slice_get self.now.vars.now j }
    {
        self.vars.get(j as usize).copied()
    }

    fn is_var_settled(&self, alloc: Global, assumed: &[NodeId], j: u32) -> Result<bool, Memory>
        ensures { IfOk result (λ yes. IsTrue yes ↔ Holds self.now.graph.now assumed.now (names_of self.now) (settled j)) }
    {
        match self.var(j) {
            Some(n) => Ok(self.is_settled(alloc, assumed, n)?),
            None => Ok(false),
        }
    }

    fn is_var_not_free(&self, alloc: Global, assumed: &[NodeId], j: u32) -> Result<bool, Memory>
        ensures { IfOk result (λ yes. IsTrue yes ↔ Holds self.now.graph.now assumed.now (names_of self.now) (not_free j)) }
    {
        match self.var(j) {
            Some(n) => Ok(!self.is_free(alloc, n)?),
            None => Ok(false),
        }
    }

    // Whether a condition holds.
    fn holds(&self, alloc: Global, assumed: &[NodeId], side: Side) -> Result<bool, Memory>
        ensures { IfOk result (λ yes. IsTrue yes ↔ Holds self.now.graph.now assumed.now (names_of self.now) (side_seen side)) }
    {
        match side {
            Side::Settled(j) => self.is_var_settled(alloc, assumed, j),
            Side::NotFree(j) => self.is_var_not_free(alloc, assumed, j),
            _ => Ok(self.differs(side)),
        }
    }

    // Whether all conditions hold.
    fn all_hold(&self, alloc: Global, assumed: &[NodeId], sides: &[Side]) -> Result<bool, Memory>
        ensures { IfOk result (λ yes. IsTrue yes ↔ AllByRecursion (Holds self.now.graph.now assumed.now (names_of self.now)) (map side_seen sides.now)) }
    {
        for side in sides {
            if !self.holds(alloc, assumed, *side)? {
                return Ok(false);
            }
        }
        Ok(true)
    }

    // Whether a variable of the graph is met at the depth in the node of a variable of the axiom.
    fn meets_variable(&self, alloc: Global, j: u32) -> Result<bool, Memory>
        ensures { IfOk result (λ yes. IsTrue yes ↔ ((n : ℕ) × (slice_get self.now.vars.now j ≡ Some n) × MeetsVariable (view_of self.now) (names_of self.now).depth n)) }
    {
        match self.var(j) {
            Some(n) if n < self.graph.len() => self.graph.meets_variable(alloc, n, self.depth()),
            _ => Ok(false),
        }
    }

    // Whether a condition that holds does so whatever stands for the variables of the graph.
    fn holds_for_all(&self, alloc: Global, side: Side) -> Result<bool, Memory>
        ensures { IfOk result (λ yes. IsTrue yes ↔ HoldsForAll self.now.graph.now (names_of self.now) (side_seen side)) }
    {
        match side {
            Side::NotFree(j) => Ok(!self.meets_variable(alloc, j)?),
            _ => Ok(true),
        }
    }

    // Whether all conditions do.
    fn all_hold_for_all(&self, alloc: Global, sides: &[Side]) -> Result<bool, Memory>
        ensures { IfOk result (λ yes. IsTrue yes ↔ AllByRecursion (HoldsForAll self.now.graph.now (names_of self.now)) (map side_seen sides.now)) }
    {
        for side in sides {
            if !self.holds_for_all(alloc, *side)? {
                return Ok(false);
            }
        }
        Ok(true)
    }

    fn is_settled_now(&self, n: NodeId) -> bool
        requires { self.now.graph.now.is_prepared ≡ true }
        ensures { IsTrue result ↔ IsSettled (view_of self.now) [] n }
    {
        n >= self.graph.len() || self.graph.settled_now(n)
    }

    fn is_free_now(&self, n: NodeId) -> bool
        requires { self.now.graph.now.is_prepared ≡ true }
        ensures { IsTrue result ↔ Free (view_of self.now) (names_of self.now).depth n }
    {
        n < self.graph.len() && self.graph.free_now(n, self.depth())
    }

    // Whether the node of a variable is settled, on a prepared graph.
    fn is_var_settled_now(&self, j: u32) -> bool
        requires { self.now.graph.now.is_prepared ≡ true }
        ensures { IsTrue result ↔ Holds self.now.graph.now [] (names_of self.now) (settled j) }
    {
        match self.var(j) {
            Some(n) => self.is_settled_now(n),
            None => false,
        }
    }

    // Whether the depth isn't free in the node of a variable, on a prepared graph.
    fn is_var_not_free_now(&self, j: u32) -> bool
        requires { self.now.graph.now.is_prepared ≡ true }
        ensures { IsTrue result ↔ Holds self.now.graph.now [] (names_of self.now) (not_free j) }
    {
        match self.var(j) {
            Some(n) => !self.is_free_now(n),
            None => false,
        }
    }

    // Whether a condition holds, on a prepared graph.
    fn holds_now(&self, side: Side) -> bool
        requires { self.now.graph.now.is_prepared ≡ true }
        ensures { IsTrue result ↔ Holds self.now.graph.now [] (names_of self.now) (side_seen side) }
    {
        match side {
            Side::Settled(j) => self.is_var_settled_now(j),
            Side::NotFree(j) => self.is_var_not_free_now(j),
            _ => self.differs(side),
        }
    }

    // Whether all conditions hold, on a prepared graph.
    fn all_hold_now(&self, sides: &[Side]) -> bool
        requires { self.now.graph.now.is_prepared ≡ true }
        ensures { IsTrue result ↔ AllByRecursion (Holds self.now.graph.now [] (names_of self.now)) (map side_seen sides.now) }
    {
        for side in sides {
            if !self.holds_now(*side) {
                return false;
            }
        }
        true
    }
}

/// Whether l is the left and r the right side of an axiom under a substitution, which has the kids of a
/// family first and then a node for each variable, and all conditions hold, where settled is meant with
/// some nodes assumed to end.
pub fn instance(
    alloc: Global,
    graph: &Graph,
    assumed: &[NodeId],
    rule: &Axiom,
    subst: &[NodeId],
    l: NodeId,
    r: NodeId,
) -> Result<bool, Memory>
    requires { BindsItsNames (axiom_seen rule.now) }
    ensures { IfOk result (λ yes. IsTrue yes ↔ IsInstance graph.now assumed.now (axiom_seen rule.now) subst.now l r) }
{
    let Some(reading) = reading_of(graph, &rule.left, subst, l) else {
        return Ok(false);
    };
    if !reading.both_stand(rule, l, r) {
        return Ok(false);
    }
    reading.all_hold(alloc, assumed, &rule.sides)
}

/// The same on a prepared graph, with no node assumed to end. It takes no memory.
pub fn instance_now(graph: &Graph, rule: &Axiom, subst: &[NodeId], l: NodeId, r: NodeId) -> bool
    requires prepared { graph.now.is_prepared ≡ true }
    requires binds { BindsItsNames (axiom_seen rule.now) }
    ensures { IsTrue result ↔ IsInstance graph.now [] (axiom_seen rule.now) subst.now l r }
{
    match reading_of(graph, &rule.left, subst, l) {
        Some(reading) => { reading.both_stand(rule, l, r) && reading.all_hold_now(&rule.sides) }
        None => false,
    }
}

/// Whether l is the left and r the right side of an axiom under a substitution, as `instance` says, whatever stands for
/// the variables of the graph, if only settled nodes may stand for those that are assumed to end.
pub fn open_instance(
    alloc: Global,
    graph: &Graph,
    assumed: &[NodeId],
    rule: &Axiom,
    subst: &[NodeId],
    l: NodeId,
    r: NodeId,
) -> Result<bool, Memory>
    requires { BindsItsNames (axiom_seen rule.now) }
    ensures { IfOk result (λ yes. IsTrue yes ↔ IsOpenInstance graph.now assumed.now (axiom_seen rule.now) subst.now l r) }
{
    let Some(reading) = reading_of(graph, &rule.left, subst, l) else {
        return Ok(false);
    };
    if !reading.both_stand(rule, l, r) {
        return Ok(false);
    }
    if !reading.all_hold(alloc, assumed, &rule.sides)? {
        return Ok(false);
    }
    reading.all_hold_for_all(alloc, &rule.sides)
}
