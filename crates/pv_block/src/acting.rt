//! What the actions of a block do to what is held.

ghost use Rattle.std.specs.Prelude.{◌≡◌, ◌∷◌, [], map, IfOk, IfSome};
ghost use Rattle.std.specs.Option.{option_map};
ghost use Rattle.pv_frame.specs.Effects.{takes};
ghost use Rattle.pv_terms.specs.Terms.{Grows};
ghost use Rattle.pv_block.specs.Cells.{sort_in, empty, local_of};
ghost use Rattle.pv_block.specs.Sorted.{IsSorted, AreSorted};
ghost use Rattle.pv_block.specs.Plain.{IsPlain};
ghost use Rattle.pv_block.specs.Effects.{read_in};
ghost use Rattle.pv_block.specs.Leaving.{AreKnown};
ghost use Rattle.pv_block.specs.Acting.{popped_in, shifted, rearranged, ActsOn, Acts};

use crate::effect::{affected, given_nodes};
use crate::effects::effect_for;
use crate::held::{Cell, Held};
use crate::locals::{has_room, local, set_local};
use crate::stack::{moved, operands};
use crate::takes::takes;
use pv_frame::{Action, Move, Sort};
use pv_graph::{Graph, NodeId};
use pv_value::Memory;
use std::alloc::Global;

/// The operands of an action, and what is held without them.
pub(crate) fn pop(
    alloc: Global,
    held: Held,
    action: &Action,
) -> Result<Option<(Vec<Cell>, Held)>, Memory>
    ensures { IfOk result (λ o. option_map (λ q. (q.0.items, q.1)) o ≡ popped_in action.now held) }
{
    let sorts = takes(alloc, action)?;
    let Some((cells, rest)) = operands(alloc, &sorts, held.stack.as_slice())? else {
        return Ok(None);
    };
    let stack = Vec::from_slice(alloc, rest)?;
    Ok(Some((
        cells,
        Held {
            stack: stack.into(),
            ..held
        },
    )))
}

// A cell that holds no value.
fn empty(unit: NodeId) -> Cell
    ensures { result ≡ empty unit }
{
    Cell {
        sort: Sort::Unknown,
        node: unit,
    }
}

// What is held after a value is stored into a local.
fn stored(
    alloc: Global,
    held: Held,
    sort: Sort,
    place: u16,
    operands: &[Cell],
) -> Result<Option<Held>, Memory>
    ensures { IfOk result (λ o. o ≡ rearranged (Action.Store sort place) held operands.now) }
{
    let [cell] = operands else {
        return Ok(None);
    };
    if !has_room(cell.sort, place, held.locals.as_slice()) {
        return Ok(None);
    }
    let unset = empty(held.unit);
    let locals = set_local(alloc, unset, place, *cell, held.locals.as_slice())?;
    Ok(Some(Held {
        locals: locals.into(),
        ..held
    }))
}

// What is held after values of the stack are moved.
fn shifted(alloc: Global, held: Held, step: Move) -> Result<Option<Held>, Memory>
    ensures { IfOk result (λ o. o ≡ shifted step held) }
{
    let Some(stack) = moved(alloc, step, held.stack.as_slice())? else {
        return Ok(None);
    };
    Ok(Some(Held {
        stack: stack.into(),
        ..held
    }))
}

// What is held after an action that moves values alone, or leaves all as it is.
fn rearranged(
    alloc: Global,
    held: Held,
    action: &Action,
    operands: &[Cell],
) -> Result<Option<Held>, Memory>
    ensures { IfOk result (λ o. o ≡ rearranged action.now held operands.now) }
{
    match action {
        Action::Nop | Action::Branch(_, _) | Action::Jump(_) | Action::Switch(_, _) => Ok(Some(
            held,
        )),
        Action::Store(sort, place) => stored(alloc, held, *sort, *place, operands),
        Action::Move(step) => shifted(alloc, held, *step),
        _ => Ok(None),
    }
}

// The local in a place, if it has this sort.
fn one_local(
    alloc: Global,
    locals: &[Cell],
    place: u16,
    sort: Sort,
) -> Result<Option<Vec<Cell>>, Memory>
    ensures { IfOk result (λ o. option_map (λ v. v.items) o ≡ option_map (λ l. l ∷ []) (local_of sort place locals.now)) }
{
    match local(locals, place, sort) {
        Some(cell) => Ok(Some(vec![in alloc; cell]?)),
        None => Ok(None),
    }
}

// The values that an action takes: its operands, or the local that it reads.
fn read(
    alloc: Global,
    held: &Held,
    action: &Action,
    operands: &[Cell],
) -> Result<Option<Vec<Cell>>, Memory>
    ensures { IfOk result (λ o. option_map (λ v. v.items) o ≡ read_in action.now held.now operands.now) }
{
    let locals = held.locals.as_slice();
    match action {
        Action::Load(sort, place) => one_local(alloc, locals, *place, *sort),
        Action::Increase(place, _) => one_local(alloc, locals, *place, Sort::Int),
        _ => Ok(Some(Vec::from_slice(alloc, operands)?)),
    }
}

/// What is held after an action, from what is held without its operands; `None` where it doesn't find what
/// it needs, or ends the method.
pub(crate) fn act_on(
    alloc: Global,
    g: &mut Graph,
    held: Held,
    action: &Action,
    operands: &[Cell],
) -> Result<Option<Held>, Memory>
    requires plain { IsPlain action.now }
    requires sorted { IsSorted g.old held }
    requires operands { AreSorted g.old operands.now }
    requires known { AreKnown operands.now }
    requires takes { map sort_in operands.now ≡ takes action.now }
    ensures acts { IfOk result (λ o. ActsOn action.now g.old.nodes held operands.now g.new.nodes o) }
    ensures sorted { IfOk result (λ o. IfSome o (λ after. IsSorted g.new after)) }
    ensures grows { Grows g.old g.new }
{
    let Some(effect) = effect_for(alloc, action)? else {
        return rearranged(alloc, held, action, operands);
    };
    let Some(cells) = read(alloc, &held, action, operands)? else {
        return Ok(None);
    };
    let given = given_nodes(alloc, &held, &cells)?;
    Ok(Some(affected(alloc, g, &given, held, &effect)?))
}

/// What is held after an action, which pops its operands; `None` where it doesn't find what it needs, or
/// ends the method.
pub(crate) fn act(
    alloc: Global,
    g: &mut Graph,
    held: Held,
    action: &Action,
) -> Result<Option<Held>, Memory>
    requires plain { IsPlain action.now }
    requires sorted { IsSorted g.old held }
    ensures acts { IfOk result (λ o. Acts action.now g.old.nodes held g.new.nodes o) }
    ensures sorted { IfOk result (λ o. IfSome o (λ after. IsSorted g.new after)) }
    ensures grows { Grows g.old g.new }
{
    let Some((operands, rest)) = pop(alloc, held, action)? else {
        return Ok(None);
    };
    act_on(alloc, g, rest, action, &operands)
}
