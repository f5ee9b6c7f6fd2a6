//! Operations over nodes, and names, added to a graph.

ghost use Rattle.std.specs.Prelude.{◌≡◌, ◌≢◌, ◌⊎◌, true, [], ◌∷◌, ◌++◌, slice_get, Some, IsTrue, IfOk, OnErr};
ghost use Rattle.pv_graph.specs.Graphs.{IsGraph};
ghost use Rattle.pv_graph.specs.Nodes.{node_of};
ghost use Rattle.pv_graph.specs.Ops.{is_depth};
ghost use Rattle.pv_graph.specs.Calls.{FitsOver};
ghost use Rattle.pv_equations.specs.Exp.{Name};
ghost use Rattle.pv_terms.specs.Reads.{named, Reads};
ghost use Rattle.pv_terms.specs.Terms.{IsFlat, IsFlatOrOut, GrowsBy, Grows, Opens, Keeps, IsOfSort, IsValue, HasItsSort, KeepsSort, ReadsOver, ReadsBoth, ReadsLast, ReadsOut, ReadsTokenOut, IsUnnamed, StayNames};

use crate::names::{Named, Names};
use pv_graph::{Graph, GraphFault, NodeId, Op, OpSort};
use pv_value::Memory;
use std::alloc::Global;

/// The node of an operation without a depth over kids that fit it.
pub fn over(alloc: Global, g: &mut Graph, op: Op, kids: &[NodeId]) -> Result<NodeId, Memory>
    requires graph { IsGraph g.old }
    requires flat { IsFlat op }
    requires fits { FitsOver g.old op kids.now }
    ensures reads { IfOk result (λ n. ReadsOver g.old op kids.now g.new n) }
    ensures sort { IfOk result (λ n. HasItsSort g.old op kids.now g.new n) }
    ensures grows { Grows g.old g.new }
{
    match g.add(alloc, op, kids) {
        Ok(n) => Ok(n),
        Err(GraphFault::Memory) => Err(Memory),
        Err(GraphFault::Sort) => unreachable!(),
    }
}

// The node of an operation that takes a value out of a loop of this depth.
fn over_out(
    alloc: Global,
    g: &mut Graph,
    depth: u32,
    op: Op,
    kids: &[NodeId],
) -> Result<NodeId, Memory>
    requires graph { IsGraph g.old }
    requires out { (op ≡ Op.Eval depth) ⊎ (op ≡ Op.Pass depth) }
    requires fits { FitsOver g.old op kids.now }
    ensures reads { IfOk result (λ n. ReadsOver g.old op kids.now g.new n) }
    ensures sort { IfOk result (λ n. HasItsSort g.old op kids.now g.new n) }
    ensures grows { GrowsBy (IsFlatOrOut depth) g.old g.new }
{
    match g.add(alloc, op, kids) {
        Ok(n) => Ok(n),
        Err(GraphFault::Memory) => Err(Memory),
        Err(GraphFault::Sort) => unreachable!(),
    }
}

/// The node of both tokens; where the first is unit, that is the second.
pub fn both(alloc: Global, g: &mut Graph, a: NodeId, b: NodeId) -> Result<NodeId, Memory>
    requires graph { IsGraph g.old }
    requires first { IsOfSort g.old a OpSort.T }
    requires second { IsOfSort g.old b OpSort.T }
    ensures reads { IfOk result (λ n. ReadsBoth g.old a b g.new n) }
    ensures sort { IfOk result (λ n. IsOfSort g.new n OpSort.T) }
    ensures grows { Grows g.old g.new }
{
    if matches!(g.node(a).op, Op::Unit) {
        return Ok(b);
    }
    over(alloc, g, Op::Both, &[a, b])
}

/// Begins the theta of a slot at the header of a loop, which has no kids yet, and gives it its name.
pub fn begin_name(
    alloc: Global,
    g: &mut Graph,
    names: &mut Names,
    header: u32,
    slot: u32,
    depth: u32,
    sort: OpSort,
) -> Result<NodeId, Memory>
    requires graph { IsGraph g.old }
    requires open { g.old.is_open ≡ true }
    requires depth { IsTrue (is_depth depth) }
    requires sort { sort ≢ OpSort.R }
    requires fresh { IsUnnamed names.old header slot }
    ensures named { IfOk result (λ n. names.new ≡ names.old ++ named header slot n ∷ []) }
    ensures reads { IfOk result (λ n. Reads g.new.nodes names.new n (Name header slot)) }
    ensures theta { IfOk result (λ n. slice_get g.new.nodes n ≡ Some (node_of (Op.Theta depth) [])) }
    ensures sort { IfOk result (λ n. IsOfSort g.new n sort) }
    ensures names { IfOk result (λ n. StayNames g.old names.old header depth g.new names.new) }
    ensures err { OnErr result (names.new ≡ names.old) }
    ensures opens { IfOk result (λ n. Opens g.old g.new n) }
    ensures keeps { OnErr result (Keeps g.old g.new) }
{
    let node = g.theta(alloc, depth, sort)?;
    names.push(Named { header, slot, node })?;
    Ok(node)
}

// The node of an expression in the iteration in which a loop is left.
fn last(
    alloc: Global,
    g: &mut Graph,
    depth: u32,
    ending: NodeId,
    n: NodeId,
) -> Result<NodeId, Memory>
    requires graph { IsGraph g.old }
    requires depth { IsTrue (is_depth depth) }
    requires ending { IsOfSort g.old ending OpSort.I }
    requires value { IsValue g.old n }
    ensures reads { IfOk result (λ r. ReadsLast g.old depth ending n g.new r) }
    ensures sort { IfOk result (λ r. KeepsSort g.old n g.new r) }
    ensures grows { GrowsBy (IsFlatOrOut depth) g.old g.new }
{
    let pass = over_out(alloc, g, depth, Op::Pass(depth), &[ending])?;
    over_out(alloc, g, depth, Op::Eval(depth), &[n, pass])
}

/// The node of a value that is taken out of a loop: its last iteration, where the depth of the loop is
/// free in the value, else the value as it is.
pub fn out(
    alloc: Global,
    g: &mut Graph,
    depth: u32,
    ending: NodeId,
    n: NodeId,
) -> Result<NodeId, Memory>
    requires graph { IsGraph g.old }
    requires depth { IsTrue (is_depth depth) }
    requires ending { IsOfSort g.old ending OpSort.I }
    requires value { IsValue g.old n }
    ensures reads { IfOk result (λ r. ReadsOut g.old depth ending n g.new r) }
    ensures sort { IfOk result (λ r. KeepsSort g.old n g.new r) }
    ensures grows { GrowsBy (IsFlatOrOut depth) g.old g.new }
{
    if !g.free_growing(alloc, n, depth)? {
        return Ok(n);
    }
    last(alloc, g, depth, ending, n)
}

/// The node of a token that is taken out of a loop: the token with which the loop is entered, and that of
/// the last iteration.
pub fn token_out(
    alloc: Global,
    g: &mut Graph,
    depth: u32,
    entering: NodeId,
    ending: NodeId,
    n: NodeId,
) -> Result<NodeId, Memory>
    requires graph { IsGraph g.old }
    requires depth { IsTrue (is_depth depth) }
    requires entering { IsOfSort g.old entering OpSort.T }
    requires ending { IsOfSort g.old ending OpSort.I }
    requires token { IsOfSort g.old n OpSort.T }
    ensures reads { IfOk result (λ r. ReadsTokenOut g.old depth entering ending n g.new r) }
    ensures sort { IfOk result (λ r. IsOfSort g.new r OpSort.T) }
    ensures grows { GrowsBy (IsFlatOrOut depth) g.old g.new }
{
    let left = last(alloc, g, depth, ending, n)?;
    both(alloc, g, entering, left)
}
