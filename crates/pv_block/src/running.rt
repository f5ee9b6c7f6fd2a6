//! A whole block.

ghost use Rattle.std.specs.Prelude.{◌≡◌, Some, IfOk};
ghost use Rattle.pv_frame.specs.Frames.{AreFrames, Reached};
ghost use Rattle.pv_flow.specs.Blocks.{IsSpan};
ghost use Rattle.pv_graph.specs.Graphs.{IsGraph};
ghost use Rattle.pv_equations.specs.Flow.{Chain};
ghost use Rattle.pv_runs.specs.Blocks.{place_chain};
ghost use Rattle.pv_terms.specs.Terms.{Grows};
ghost use Rattle.pv_block.specs.Sorted.{IsSorted};
ghost use Rattle.pv_block.specs.Plain.{ArePlain};
ghost use Rattle.pv_block.specs.Ran.{entry_of, RanFor, BeginsAt, IsSortedRan};
ghost use Rattle.pv_block.specs.Leaving.{HoldsFirst, IsSortedState};

use crate::along::along;
use crate::held::Held;
use crate::leaving::leave;
use crate::ran::{Ran, State};
use pv_flow::Block;
use pv_frame::Typed;
use pv_graph::{Graph, Op};
use pv_terms::over;
use pv_value::Memory;
use std::alloc::Global;

// What is held where a block begins.
fn begin(alloc: Global, g: &mut Graph, state: State) -> Result<Held, Memory>
    requires graph { IsGraph g.old }
    requires sorted { IsSortedState g.old state }
    ensures holds { IfOk result (λ held. HoldsFirst g.old state g.new.nodes held) }
    ensures sorted { IfOk result (λ held. IsSorted g.new held) }
    ensures grows { Grows g.old g.new }
{
    let unit = over(alloc, g, Op::Unit, &[])?;
    let clear = over(alloc, g, Op::Clear, &[])?;
    Ok(Held {
        stack: state.stack,
        locals: state.locals,
        heap: state.heap,
        token: state.token,
        unit,
        clear,
        start: state.token,
    })
}

/// What a block computes, from what is held where it begins. It adds nodes for its tests and for the slots
/// at its exits, as far as their sorts are known. A block that ends at place 2^32 - 1 counts as out of memory.
pub fn run(
    alloc: Global,
    g: &mut Graph,
    typed: &Typed,
    block: &Block,
    state: State,
) -> Result<Ran, Memory>
    requires graph { IsGraph g.old }
    requires well_typed { AreFrames typed.now.program typed.now.frames }
    requires plain { ArePlain typed.now.program }
    requires span { IsSpan typed.now.program block.now.first block.now.last }
    requires reached { Reached typed.now.program block.now.first }
    requires state { BeginsAt g.old typed.now.frames block.now.first state }
    ensures stands { IfOk result (λ ran. (c : Chain) → place_chain typed.now.program typed.now.frames block.now ≡ Some c → RanFor (entry_of g.old state) g.new.nodes ran c) }
    ensures sorted { IfOk result (λ ran. IsSortedRan g.new typed.now.program typed.now.frames ran) }
    ensures grows { Grows g.old g.new }
{
    if block.last == u32::MAX {
        return Err(Memory);
    }
    let program = &typed.program;
    let held = begin(alloc, g, state)?;
    let count = block.last - block.first;
    let Some(held) = along(alloc, g, program, held, block.first, count)? else {
        unreachable!()
    };
    let Some(action) = program.actions.as_slice().get(block.last as usize) else {
        unreachable!()
    };
    let Some(ran) = leave(alloc, g, program.desc.result, block.last, action, held)? else {
        unreachable!()
    };
    Ok(ran)
}
