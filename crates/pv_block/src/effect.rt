//! What an action leaves of what is held, as data.

ghost use Rattle.std.specs.Prelude.{◌≡◌, map, slice_set, IfOk};
ghost use Rattle.pv_terms.specs.Terms.{Grows};
ghost use Rattle.pv_block.specs.Sorted.{IsSorted};
ghost use Rattle.pv_block.specs.Lines.{Fit};
ghost use Rattle.pv_block.specs.Effects.{node_in, given_nodes, push_in, changed, HoldsAfter, SortedAfter};

use crate::held::{Cell, Held};
use crate::line::{Kid, Line, emit, node_at};
use pv_frame::Sort;
use pv_graph::{Graph, NodeId};
use pv_list::Listed;
use pv_value::Memory;
use std::alloc::{AllocError, Global};

/// What changes of what is held.
#[derive(Clone, Copy, Debug)]
pub(crate) enum Change {
    /// A value of this sort is pushed.
    Pushes(Sort, Kid),
    /// There is another heap.
    Writes(Kid),
    /// A local is another int.
    Sets(u16, Kid),
    /// A call ended with this token and this heap.
    Calls(Kid, Kid),
    /// A call ended with this token and this heap, and a value of this sort is pushed.
    CallsFor(Kid, Kid, Sort, Kid),
}

/// Lines over what an action takes, and what changes over what they make.
#[derive(Debug, Drop)]
pub(crate) struct Effect {
    pub(crate) lines: Listed<Line>,
    pub(crate) change: Change,
}

pub(crate) fn effect_of<const L: usize>(
    alloc: Global,
    lines: [Line; L],
    change: Change,
) -> Result<Effect, Memory>
    ensures { IfOk result (λ e. e ≡ record { lines = lines.entry; change = change }) }
{
    Ok(Effect {
        lines: Vec::from_array(alloc, lines)?.into(),
        change,
    })
}

// The nodes of cells.
fn nodes_of(alloc: Global, cells: &[Cell]) -> Result<Vec<NodeId>, AllocError>
    ensures { IfOk result (λ v. v.items ≡ map node_in cells.now) }
{
    cells.iter().map(|cell| cell.node).collect(alloc)
}

/// What an action takes: the token where the block begins, the heap, and the values of these cells.
pub(crate) fn given_nodes(alloc: Global, held: &Held, cells: &[Cell]) -> Result<Vec<NodeId>, Memory>
    ensures { IfOk result (λ v. v.items ≡ given_nodes held.now cells.now) }
{
    let mut nodes = vec![in alloc; held.start, held.heap]?;
    nodes.extend_from_slice(&nodes_of(alloc, cells)?)?;
    Ok(nodes)
}

// What is held with one more value on the stack.
fn push(alloc: Global, held: Held, sort: Sort, node: NodeId) -> Result<Held, Memory>
    ensures { IfOk result (λ after. after ≡ push_in (record { sort = sort; node = node }) held) }
{
    let mut stack = vec![in alloc; Cell { sort, node }]?;
    stack.extend_from_slice(held.stack.as_slice())?;
    Ok(Held {
        stack: stack.into(),
        ..held
    })
}

// The locals with another one in this place.
fn with_local(alloc: Global, locals: &[Cell], place: u16, cell: Cell) -> Result<Vec<Cell>, Memory>
    ensures { IfOk result (λ v. v.items ≡ slice_set locals.now place cell) }
{
    let mut after = Vec::from_slice(alloc, locals)?;
    if let Some(local) = after.get_mut(place as usize) {
        *local = cell;
    }
    Ok(after)
}

// What is held after a change.
fn changed(
    alloc: Global,
    given: &[NodeId],
    made: &[NodeId],
    held: Held,
    change: Change,
) -> Result<Held, Memory>
    ensures { IfOk result (λ after. after ≡ changed given.now made.now held change) }
{
    let at = |kid| node_at(given, made, kid);
    match change {
        Change::Pushes(sort, value) => push(alloc, held, sort, at(value)),
        Change::Writes(heap) => Ok(Held {
            heap: at(heap),
            ..held
        }),
        Change::Sets(place, int) => {
            let cell = Cell {
                sort: Sort::Int,
                node: at(int),
            };
            let locals = with_local(alloc, held.locals.as_slice(), place, cell)?;
            Ok(Held {
                locals: locals.into(),
                ..held
            })
        }
        Change::Calls(token, heap) => Ok(Held {
            token: at(token),
            heap: at(heap),
            ..held
        }),
        Change::CallsFor(token, heap, sort, value) => {
            let after = Held {
                token: at(token),
                heap: at(heap),
                ..held
            };
            push(alloc, after, sort, at(value))
        }
    }
}

/// What is held after an effect over given nodes.
pub(crate) fn affected(
    alloc: Global,
    g: &mut Graph,
    given: &[NodeId],
    held: Held,
    effect: &Effect,
) -> Result<Held, Memory>
    requires sorted { IsSorted g.old held }
    requires fit { Fit g.old given.now effect.now.lines }
    ensures holds { IfOk result (λ after. HoldsAfter effect.now g.old.nodes given.now held g.new.nodes after) }
    ensures sorted { IfOk result (λ after. SortedAfter effect.now g.old given.now g.new after) }
    ensures grows { Grows g.old g.new }
{
    let made = emit(alloc, g, given, effect.lines.as_slice())?;
    changed(alloc, given, &made, held, effect.change)
}
