//! A loop is opened where its header begins: each slot that it carries becomes a theta.
//!
//! The first kids are found slot by slot, in the order of their numbers; one loop begins a theta for each; and what is
//! held at the header is what the loop is entered with, with the thetas in their places.

ghost use Rattle.std.specs.Prelude.{◌≡◌, ℕ, Some, IfOk};
ghost use Rattle.pv_terms.specs.Terms.{Keeps};
ghost use Rattle.pv_build.specs.Slots.{number};
ghost use Rattle.pv_build.specs.Openings.{carried_at, first_at, AreFirstKids, CanBegin, AreBegun, node_or, AreHeaderCells, IsHeaderState};
ghost use Rattle.pv_build.specs.Stages.{IsMethod, KeepsFirst};
ghost use Rattle.pv_build.specs.Building.{CanOpen, IsOwnLoop, Begun};

use crate::method::{Made, Method, Opened, Stage, Theta};
use crate::slot::{Part, Slot, number_limit, of_state};
use pv_block::{Cell, State};
use pv_graph::{Graph, NodeId, Op};
use pv_layout::Writes;
use pv_terms::{Names, begin_name, over};
use pv_value::Memory;
use std::alloc::Global;

/// The header of a loop, and how many loops are around it, its own among them.
#[derive(Clone, Copy, Debug)]
struct Head {
    header: u32,
    depth: u32,
}

/// The thetas of a loop, and for the number of each slot its theta, where it has one.
#[derive(Debug, Drop)]
struct Thetas {
    listed: Vec<Theta>,
    nodes: Vec<Option<NodeId>>,
}

// Whether a loop carries a slot whose node is known where it is entered.
fn carries(carried: &Writes, slot: Slot) -> bool
    ensures { result ≡ carried_at carried.now (number slot) }
{
    match slot {
        Slot::Heap => carried.heap,
        Slot::Local(k) => {
            if k < carried.locals.len() {
                carried.locals[k]
            } else {
                false
            }
        }
        Slot::Place(_) => true,
        Slot::Token | Slot::Fault | Slot::Result => true,
    }
}

// The first kid of the theta of a slot, if the slot has one.
fn first_kid(carried: &Writes, entering: &State, slot: Slot) -> Option<NodeId>
    ensures { result ≡ first_at carried.now entering.now (number slot) }
{
    if carries(carried, slot) {
        of_state(entering, slot)
    } else {
        None
    }
}

// The first kids by the numbers of their slots.
fn first_kids(
    alloc: Global,
    carried: &Writes,
    entering: &State,
) -> Result<Vec<Option<NodeId>>, Memory>
    ensures { IfOk result (λ kids. AreFirstKids carried.now entering.now kids.items) }
{
    let mut kids = Vec::new(alloc);
    for n in 0..number_limit(entering)? {
        kids.push(first_kid(carried, entering, Slot::with_number(n)))?;
    }
    Ok(kids)
}

// Begins a theta for each slot that has a first kid.
fn begin_all(
    alloc: Global,
    g: &mut Graph,
    names: &mut Names,
    head: Head,
    kids: &[Option<NodeId>],
) -> Result<Thetas, Memory>
    requires can { CanBegin head kids.now g.old names.old }
    ensures begun { IfOk result (λ b. AreBegun head kids.now g.old names.old g.new names.new b.listed.items b.nodes.items) }
    ensures keeps { Keeps g.old g.new }
{
    let mut thetas = Vec::new(alloc);
    let mut nodes = Vec::new(alloc);
    for kid in kids {
        let n = nodes.len();
        if n > 0xFFFF_FFFF {
            return Err(Memory);
        }
        let Some(first) = *kid else {
            nodes.push(None)?;
            continue;
        };
        let slot = Slot::with_number(n as u32);
        let sort = g.sort(first);
        let node = begin_name(alloc, g, names, head.header, n as u32, head.depth, sort)?;
        nodes.push(Some(node))?;
        thetas.push(Theta { slot, node, first })?;
    }
    Ok(Thetas {
        listed: thetas,
        nodes,
    })
}

// The theta of a slot, or else its own node.
fn theta_or(nodes: &[Option<NodeId>], slot: Slot, own: NodeId) -> Result<NodeId, Memory>
    ensures { IfOk result (λ n. n ≡ node_or nodes.now (number slot) own) }
{
    let Some(number) = slot.number() else {
        return Err(Memory);
    };
    match nodes.get(number as usize) {
        Some(Some(theta)) => Ok(*theta),
        Some(None) | None => Ok(own),
    }
}

// The cells of the locals or of the operand stack at the header.
fn header_cells(
    alloc: Global,
    nodes: &[Option<NodeId>],
    part: Part,
    cells: &[Cell],
) -> Result<Vec<Cell>, Memory>
    ensures { IfOk result (λ made. AreHeaderCells nodes.now part cells.now made.items) }
{
    let mut made = Vec::new(alloc);
    for i in 0..cells.len() {
        let cell = cells[i];
        let slot = part.slot(cells.len(), i);
        let node = theta_or(nodes, slot, cell.node)?;
        made.push(Cell {
            sort: cell.sort,
            node,
        })?;
    }
    Ok(made)
}

// What is held at the header, by what the loop is entered with.
fn header_state(alloc: Global, nodes: &[Option<NodeId>], entering: &State) -> Result<State, Memory>
    ensures { IfOk result (λ c. IsHeaderState nodes.now entering.now c) }
{
    let token = theta_or(nodes, Slot::Token, entering.token)?;
    let heap = theta_or(nodes, Slot::Heap, entering.heap)?;
    let locals = header_cells(alloc, nodes, Part::Locals, entering.locals.as_slice())?;
    let stack = header_cells(alloc, nodes, Part::Stack, entering.stack.as_slice())?;
    Ok(State {
        stack: stack.into(),
        locals: locals.into(),
        heap,
        token,
    })
}

/// Opens the loop at this place of the forest, whose header is entered with this state: gives what is held at the
/// header in each iteration. The token begins as unit.
pub(crate) fn open(
    alloc: Global,
    g: &mut Graph,
    method: &Method,
    made: &mut Made,
    i: u32,
    entering: State,
) -> Result<State, Memory>
    requires method { IsMethod method.now }
    requires can { CanOpen method.now g.old made.old i entering }
    ensures begun { IfOk result (λ c. (b : ℕ) → IsOwnLoop method.now b (Some i) → Begun method.now g.new made.new b c) }
    ensures blocks { made.new.blocks ≡ made.old.blocks }
    ensures start { made.new.start ≡ made.old.start }
    ensures keeps { KeepsFirst made.old.start g.old g.new }
{
    let l = &method.forest.loops[i as usize];
    let carried = &method.carried[i as usize];
    let unit = over(alloc, g, Op::Unit, &[])?;
    let base = g.len();
    let first = State {
        stack: entering.stack,
        locals: entering.locals,
        heap: entering.heap,
        token: unit,
    };
    let head = Head {
        header: l.header,
        depth: l.depth,
    };
    let kids = first_kids(alloc, carried, &first)?;
    let begun = begin_all(alloc, g, &mut made.names, head, &kids)?;
    let held = header_state(alloc, &begun.nodes, &first)?;
    made.loops[i as usize] = Stage::Open(Opened {
        token: entering.token,
        base,
        thetas: begun.listed,
    });
    Ok(held)
}
