//! Slots of the equations, and their nodes where a block is left.

ghost use Rattle.std.specs.Prelude.{◌≡◌, ◌<◌, ◌+◌, IfOk, IfSome};
ghost use Rattle.pv_block.specs.Ran.{node_of_cell, local_node, stack_node, slot_of, ending_slot, slot_at};
ghost use Rattle.pv_build.specs.Slots.{number, number_in};
ghost use Rattle.pv_build.specs.Openings.{IsAboveSlots};

use pv_block::{Cell, Ending, Leaving, State};
use pv_frame::Sort;
use pv_graph::NodeId;
use pv_value::Memory;

/// What a block computes from, and what it leaves.
#[derive(Clone, Copy, Debug)]
pub(crate) enum Slot {
    Token,
    Fault,
    Result,
    Heap,
    Local(usize),
    /// The place of the operand stack above this many others.
    Place(usize),
}

/// The locals, or the operand stack.
#[derive(Clone, Copy, Debug)]
pub(crate) enum Part {
    Locals,
    Stack,
}

impl Slot {
    /// The slot with this number in the equations.
    pub(crate) fn with_number(n: u32) -> Slot
        ensures { number result ≡ n }
    {
        match n {
            0 => Slot::Token,
            1 => Slot::Fault,
            2 => Slot::Result,
            3 => Slot::Heap,
            _ => {
                let place = (n as usize - 4) / 2;
                if n % 2 == 0 {
                    Slot::Local(place)
                } else {
                    Slot::Place(place)
                }
            }
        }
    }

    /// The number of the slot in the equations, if it is small enough.
    pub(crate) fn number(self) -> Option<u32>
        ensures { IfSome result (λ n. n ≡ number self) }
    {
        match self {
            Slot::Token => Some(0),
            Slot::Fault => Some(1),
            Slot::Result => Some(2),
            Slot::Heap => Some(3),
            Slot::Local(k) => numbered(4, k),
            Slot::Place(j) => numbered(5, j),
        }
    }
}

// The number of the slot at this place of those that begin with the first and take turns with others.
fn numbered(first: u32, place: usize) -> Option<u32>
    requires { first < 8 }
    ensures { IfSome result (λ n. n ≡ first + (place + place)) }
{
    if place > 0x3FFF_FFFF {
        return None;
    }
    Some(first + 2 * place as u32)
}

impl Part {
    /// The slot of the cell i, of this many.
    pub(crate) fn slot(self, count: usize, i: usize) -> Slot
        requires { i < count }
        ensures { number result ≡ number_in self count i }
    {
        match self {
            Part::Locals => Slot::Local(i),
            Part::Stack => Slot::Place(count - 1 - i),
        }
    }
}

// The node of a cell whose sort is known.
fn of_cell(cell: Cell) -> Option<NodeId>
    ensures { result ≡ node_of_cell cell }
{
    match cell.sort {
        Sort::Unknown => None,
        Sort::Int | Sort::Long | Sort::Ref => Some(cell.node),
    }
}

fn of_local(locals: &[Cell], k: usize) -> Option<NodeId>
    ensures { result ≡ local_node locals.now k }
{
    if k >= locals.len() {
        return None;
    }
    of_cell(locals[k])
}

fn of_place(stack: &[Cell], j: usize) -> Option<NodeId>
    ensures { result ≡ stack_node stack.now j }
{
    if j >= stack.len() {
        return None;
    }
    of_cell(stack[stack.len() - 1 - j])
}

/// The node of a slot where it is known.
pub(crate) fn of_state(state: &State, slot: Slot) -> Option<NodeId>
    ensures { result ≡ slot_of state.now (number slot) }
{
    match slot {
        Slot::Token => Some(state.token),
        Slot::Heap => Some(state.heap),
        Slot::Local(k) => of_local(state.locals.as_slice(), k),
        Slot::Place(j) => of_place(state.stack.as_slice(), j),
        Slot::Fault | Slot::Result => None,
    }
}

/// A number above those of all slots whose nodes are known. 2^30 locals or places count as out of memory.
pub(crate) fn number_limit(state: &State) -> Result<u32, Memory>
    ensures { IfOk result (λ limit. IsAboveSlots state.now limit) }
{
    let most = state
        .locals
        .as_slice()
        .len()
        .max(state.stack.as_slice().len());
    if most > 0x3FFF_FFFF {
        return Err(Memory);
    }
    Ok(4 + 2 * most as u32)
}

fn of_ending(ending: Ending, slot: Slot) -> Option<NodeId>
    ensures { result ≡ ending_slot ending (number slot) }
{
    match slot {
        Slot::Token => Some(ending.token),
        Slot::Fault => Some(ending.fault),
        Slot::Result => Some(ending.result),
        Slot::Heap => Some(ending.heap),
        Slot::Local(_) | Slot::Place(_) => None,
    }
}

/// The node of a slot at an exit, where it is known.
pub(crate) fn at_exit(exit: &Leaving, slot: Slot) -> Option<NodeId>
    ensures { result ≡ slot_at exit.now (number slot) }
{
    match exit {
        Leaving::Goes(_, state) => of_state(state, slot),
        Leaving::Returns(ending) | Leaving::Throws(ending) => of_ending(*ending, slot),
    }
}
