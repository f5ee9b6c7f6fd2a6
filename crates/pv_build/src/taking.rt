//! What holds at an exit, and the value of a test, taken out of loops.

ghost use Rattle.std.specs.Prelude.{◌≡◌, ℕ, IfOk};
ghost use Rattle.pv_graph.specs.Graphs.{IsGraph};
ghost use Rattle.pv_graph.specs.declared.node.OpSort.TheVariants.{I};
ghost use Rattle.pv_terms.specs.Terms.{GrowsBy, IsFlatOrOut, IsOfSort};
ghost use Rattle.pv_frame.specs.declared.sort.Sort.{Sort};
ghost use Rattle.pv_block.specs.Sorted.{IsSortedCell, AreSorted};
ghost use Rattle.pv_block.specs.Ran.{dest_at, IsSortedEnding, IsSortedExit};
ghost use Rattle.pv_build.specs.Stages.{GrowsIn};
ghost use Rattle.pv_build.specs.Outs.{IsCellOut, AreCellsOut, IsSortedState, IsStateOut, IsEndOut};
ghost use Rattle.pv_build.specs.Taken.{IsSortedLoop, AreSortedLoops, AreDeeper, ReadsOutOf, ReadsOutOfAll, ReadsValueOut};

use crate::method::Closed;
use pv_block::{Cell, Ending, Leaving, State};
use pv_frame::{Sort, Typed};
use pv_graph::{Graph, NodeId};
use pv_terms::{out, token_out};
use pv_value::Memory;
use std::alloc::Global;

// A cell, taken out of a loop.
fn cell_out(alloc: Global, g: &mut Graph, c: Closed, cell: Cell) -> Result<Cell, Memory>
    requires graph { IsGraph g.old }
    requires closed { IsSortedLoop g.old c }
    requires sorted { IsSortedCell g.old cell }
    ensures out { IfOk result (λ y. IsCellOut g.old c g.new cell y) }
    ensures grows { GrowsBy (IsFlatOrOut c.depth) g.old g.new }
{
    match cell.sort {
        Sort::Unknown => Ok(cell),
        Sort::Int | Sort::Long | Sort::Ref => {
            let node = out(alloc, g, c.depth, c.ending, cell.node)?;
            Ok(Cell {
                sort: cell.sort,
                node,
            })
        }
    }
}

// Cells, taken out of a loop.
fn cells_out(alloc: Global, g: &mut Graph, c: Closed, cells: &[Cell]) -> Result<Vec<Cell>, Memory>
    requires graph { IsGraph g.old }
    requires closed { IsSortedLoop g.old c }
    requires sorted { AreSorted g.old cells.now }
    ensures out { IfOk result (λ ys. AreCellsOut g.old c cells.now g.new ys.items) }
    ensures grows { GrowsBy (IsFlatOrOut c.depth) g.old g.new }
{
    let mut outs = Vec::with_capacity(alloc, cells.len())?;
    for cell in cells {
        outs.push(cell_out(alloc, g, c, *cell)?)?;
    }
    Ok(outs)
}

// What is held, taken out of a loop.
fn state_out(alloc: Global, g: &mut Graph, c: Closed, state: &State) -> Result<State, Memory>
    requires graph { IsGraph g.old }
    requires closed { IsSortedLoop g.old c }
    requires sorted { IsSortedState g.old state.now }
    ensures out { IfOk result (λ y. IsStateOut g.old c state.now g.new y) }
    ensures grows { GrowsBy (IsFlatOrOut c.depth) g.old g.new }
{
    let token = token_out(alloc, g, c.depth, c.token, c.ending, state.token)?;
    let heap = out(alloc, g, c.depth, c.ending, state.heap)?;
    let locals = cells_out(alloc, g, c, state.locals.as_slice())?;
    let stack = cells_out(alloc, g, c, state.stack.as_slice())?;
    Ok(State {
        stack: stack.into(),
        locals: locals.into(),
        heap,
        token,
    })
}

// An end of the method, taken out of a loop.
fn end_out(alloc: Global, g: &mut Graph, c: Closed, end: Ending) -> Result<Ending, Memory>
    requires graph { IsGraph g.old }
    requires closed { IsSortedLoop g.old c }
    requires sorted { (t : Sort) × IsSortedEnding g.old t end }
    ensures out { IfOk result (λ y. IsEndOut g.old c end g.new y) }
    ensures grows { GrowsBy (IsFlatOrOut c.depth) g.old g.new }
{
    let token = token_out(alloc, g, c.depth, c.token, c.ending, end.token)?;
    let fault = out(alloc, g, c.depth, c.ending, end.fault)?;
    let result = out(alloc, g, c.depth, c.ending, end.result)?;
    let heap = out(alloc, g, c.depth, c.ending, end.heap)?;
    Ok(Ending {
        token,
        fault,
        result,
        heap,
    })
}

// What holds at an exit, taken out of a loop.
fn exit_out(
    alloc: Global,
    g: &mut Graph,
    typed: &Typed,
    c: Closed,
    exit: &Leaving,
) -> Result<Leaving, Memory>
    requires graph { IsGraph g.old }
    requires closed { IsSortedLoop g.old c }
    requires sorted { IsSortedExit g.old typed.now.program typed.now.frames exit.now }
    ensures reads { IfOk result (λ y. ReadsOutOf g.old c exit.now g.new y) }
    ensures sorted { IfOk result (λ y. IsSortedExit g.new typed.now.program typed.now.frames y) }
    ensures dest { IfOk result (λ y. dest_at y ≡ dest_at exit.now) }
    ensures grows { GrowsBy (IsFlatOrOut c.depth) g.old g.new }
{
    match exit {
        Leaving::Goes(place, state) => {
            let state = state_out(alloc, g, c, state)?;
            Ok(Leaving::Goes(*place, state))
        }
        Leaving::Returns(end) => Ok(Leaving::Returns(end_out(alloc, g, c, *end)?)),
        Leaving::Throws(end) => Ok(Leaving::Throws(end_out(alloc, g, c, *end)?)),
    }
}

// The same exit, as a value of its own.
fn copied(alloc: Global, exit: &Leaving) -> Result<Leaving, Memory>
    ensures { IfOk result (λ y. y ≡ exit.now) }
{
    match exit {
        Leaving::Goes(place, state) => {
            let stack = Vec::from_slice(alloc, state.stack.as_slice())?;
            let locals = Vec::from_slice(alloc, state.locals.as_slice())?;
            Ok(Leaving::Goes(
                *place,
                State {
                    stack: stack.into(),
                    locals: locals.into(),
                    heap: state.heap,
                    token: state.token,
                },
            ))
        }
        Leaving::Returns(end) => Ok(Leaving::Returns(*end)),
        Leaving::Throws(end) => Ok(Leaving::Throws(*end)),
    }
}

/// What holds at an exit, taken out of closed loops, the innermost first.
pub(crate) fn exit_outs(
    alloc: Global,
    g: &mut Graph,
    typed: &Typed,
    left: &[Closed],
    exit: &Leaving,
) -> Result<Leaving, Memory>
    requires graph { IsGraph g.old }
    requires closed { AreSortedLoops g.old left.now }
    requires sorted { IsSortedExit g.old typed.now.program typed.now.frames exit.now }
    ensures reads { IfOk result (λ y. ReadsOutOfAll g.old left.now exit.now g.new y) }
    ensures sorted { IfOk result (λ y. IsSortedExit g.new typed.now.program typed.now.frames y) }
    ensures dest { IfOk result (λ y. dest_at y ≡ dest_at exit.now) }
    ensures grows { (d : ℕ) → AreDeeper d left.now → GrowsIn d g.old g.new }
{
    let mut taken = copied(alloc, exit)?;
    for c in left {
        taken = exit_out(alloc, g, typed, *c, &taken)?;
    }
    Ok(taken)
}

/// The value of a test, taken out of closed loops, the innermost first.
pub(crate) fn value_outs(
    alloc: Global,
    g: &mut Graph,
    left: &[Closed],
    n: NodeId,
) -> Result<NodeId, Memory>
    requires graph { IsGraph g.old }
    requires closed { AreSortedLoops g.old left.now }
    requires value { IsOfSort g.old n I }
    ensures reads { IfOk result (λ r. ReadsValueOut g.old left.now n g.new r) }
    ensures sort { IfOk result (λ r. IsOfSort g.new r I) }
    ensures grows { (d : ℕ) → AreDeeper d left.now → GrowsIn d g.old g.new }
{
    let mut value = n;
    for c in left {
        value = out(alloc, g, c.depth, c.ending, value)?;
    }
    Ok(value)
}
