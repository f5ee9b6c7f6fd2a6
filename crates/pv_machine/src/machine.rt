//! Steps, and runs of them.

ghost use Rattle.std.specs.Prelude.{◌≡◌, ◌≤◌, IfOk, IsOk, OnErr};
ghost use Rattle.pv_machine.specs.Machine.{step};
ghost use Rattle.pv_machine.specs.Steps.{now_of, IsReached, IsQuietAt, HasEndedAfter};

use crate::actions::perform;
use crate::program::Program;
use crate::state::{State, start};
use pv_value::{Input, Memory, Outcome, World};
use std::alloc::Global;

/// One instruction of a method: the outcome where it ends the method, and after that the state is of
/// no more use. An instruction that does nothing, as a call that isn't in the table of the world,
/// leaves the state as it was. After `Memory` the state is as it was, but for more room.
///
/// In a run of a method with room for the values that it may have on the operand stack, an
/// instruction that neither calls, nor asks for a type, nor accesses a field, nor writes the heap takes
/// no memory; the room stays.
pub fn step(p: &Program, world: &World, s: &mut State) -> Result<Option<Outcome>, Memory>
    ensures step { IfOk result (λ end. now_of s.new.state end ≡ step p.now world.now s.old.state) }
    ensures err { OnErr result (s.new.state ≡ s.old.state) }
    ensures room { s.old.room ≤ s.new.room }
    ensures max_stack { s.new.max_stack ≡ s.old.max_stack }
    ensures ready { IsReached p.now world.now s.old.state → p.now.max_stack ≤ s.old.room → IsQuietAt p.now s.old.state.at → IsOk result }
{
    match p.program.actions.as_slice().get(s.at) {
        Some(action) => perform(&p.program, world, s, action),
        None => Ok(None),
    }
}

/// The outcome of a method that ends within n steps; None where it doesn't.
pub fn run(
    alloc: Global,
    p: &Program,
    world: &World,
    input: &Input,
    n: u64,
) -> Result<Option<Outcome>, Memory>
    ensures { IfOk result (λ end. HasEndedAfter p.now world.now input.now n end) }
{
    let mut s = start(alloc, p, input)?;
    for _ in 0..n {
        if let Some(outcome) = step(p, world, &mut s)? {
            return Ok(Some(outcome));
        }
    }
    Ok(None)
}
