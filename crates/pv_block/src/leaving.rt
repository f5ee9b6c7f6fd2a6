//! How a block is left: the tests and exits of its last action.

ghost use Rattle.std.specs.Prelude.{◌≡◌, ◌∷◌, ◌+◌, ◌<◌, ◌^◌, [], map, IfOk, IfSome};
ghost use Rattle.pv_frame.specs.declared.sort.Sort.TheVariants as sort;
ghost use Rattle.pv_frame.specs.Effects.{takes};
ghost use Rattle.pv_terms.specs.Terms.{Grows};
ghost use Rattle.pv_runs.specs.Chains.{ends_method};
ghost use Rattle.pv_block.specs.declared.ran.Leaving.TheVariants.{Goes};
ghost use Rattle.pv_block.specs.Cells.{sort_in};
ghost use Rattle.pv_block.specs.Sorted.{IsSorted, AreSorted};
ghost use Rattle.pv_block.specs.Plain.{IsPlain};
ghost use Rattle.pv_block.specs.Ran.{result_sort, IsSortedEnding};
ghost use Rattle.pv_block.specs.Lines.{node_at, Fit};
ghost use Rattle.pv_block.specs.Rows.{with_int_node, leaving_by, LeavesByRow, KeepsSorts};
ghost use Rattle.pv_block.specs.Leaving.{AreKnown, state_of, ended, faulted, AreSortedExits, LeavesFrom, LeavesAs, GivesResult};

use crate::acting::{act_on, pop};
use crate::effect::given_nodes;
use crate::held::{Cell, Held};
use crate::line::{Kid, emit, node_at};
use crate::ran::{Ending, Leaving, Ran, State};
use crate::row::{Row, Way};
use crate::rows::row_for;
use pv_frame::{Action, Sort};
use pv_graph::{Graph, NodeId};
use pv_value::{JType, Memory};
use std::alloc::{AllocError, Global};

// ---- exits

// The exit that goes to a place with what is held.
fn going(alloc: Global, place: u32, held: &Held) -> Result<Leaving, Memory>
    ensures { IfOk result (λ e. e ≡ Goes place (state_of held.now)) }
{
    let stack = Vec::from_slice(alloc, held.stack.as_slice())?;
    let locals = Vec::from_slice(alloc, held.locals.as_slice())?;
    Ok(Leaving::Goes(
        place,
        State {
            stack: stack.into(),
            locals: locals.into(),
            heap: held.heap,
            token: held.token,
        },
    ))
}

// The exit that goes to a place with what is held but for this int on top of the stack.
fn going_with(alloc: Global, place: u32, int: NodeId, held: &Held) -> Result<Leaving, Memory>
    ensures { IfOk result (λ e. e ≡ Goes place (state_of (record held.now { stack = with_int_node int held.now.stack }))) }
{
    let mut stack = Vec::from_slice(alloc, held.stack.as_slice())?;
    if let Some(top) = stack.first_mut() {
        *top = Cell {
            sort: Sort::Int,
            node: int,
        };
    }
    let locals = Vec::from_slice(alloc, held.locals.as_slice())?;
    Ok(Leaving::Goes(
        place,
        State {
            stack: stack.into(),
            locals: locals.into(),
            heap: held.heap,
            token: held.token,
        },
    ))
}

// Where the method ends with what is held, by no fault and with no value.
fn ended(held: &Held) -> Ending
    ensures { result ≡ ended held.now }
{
    Ending {
        token: held.token,
        fault: held.clear,
        result: held.unit,
        heap: held.heap,
    }
}

// The exit by a fault.
fn faulted(ends: Ending, fault: NodeId) -> Leaving
    ensures { result ≡ faulted ends fault }
{
    Leaving::Throws(Ending { fault, ..ends })
}

// The exit of a way; with `ends` the method ends before the action, and `after` is held after it.
fn leaving_by(
    alloc: Global,
    given: &[NodeId],
    made: &[NodeId],
    ends: Ending,
    after: &Held,
    way: Way,
) -> Result<Leaving, Memory>
    ensures { IfOk result (λ e. e ≡ leaving_by given.now made.now ends after.now way) }
{
    match way {
        Way::Goes(place) => going(alloc, place, after),
        Way::GoesWith(place, int) => { going_with(alloc, place, node_at(given, made, int), after) }
        Way::Throws(fault) => Ok(faulted(ends, node_at(given, made, fault))),
        Way::ThrowsAfter(fault) => Ok(faulted(ended(after), node_at(given, made, fault))),
        Way::Gives(value) => Ok(Leaving::Returns(Ending {
            result: node_at(given, made, value),
            ..ends
        })),
        Way::Ends => Ok(Leaving::Returns(ends)),
    }
}

// The nodes of tests.
fn tests(
    alloc: Global,
    given: &[NodeId],
    made: &[NodeId],
    kids: &[Kid],
) -> Result<Vec<NodeId>, AllocError>
    ensures { IfOk result (λ v. v.items ≡ map (node_at given.now made.now) kids.now) }
{
    kids.iter()
        .map(|kid| node_at(given, made, *kid))
        .collect(alloc)
}

// The exits of all ways.
fn leavings(
    alloc: Global,
    given: &[NodeId],
    made: &[NodeId],
    ends: Ending,
    after: &Held,
    ways: &[Way],
) -> Result<Vec<Leaving>, Memory>
    ensures { IfOk result (λ exits. exits.items ≡ map (leaving_by given.now made.now ends after.now) ways.now) }
{
    let mut exits = Vec::new(alloc);
    for way in ways {
        exits.push(leaving_by(alloc, given, made, ends, after, *way)?)?;
    }
    Ok(exits)
}

// The tests and exits of a row over given nodes.
fn left(
    alloc: Global,
    g: &mut Graph,
    row: &Row,
    given: &[NodeId],
    ends: Ending,
    after: &Held,
) -> Result<Ran, Memory>
    requires sorted { IsSorted g.old after.now }
    requires ends { IsSortedEnding g.old sort.Unknown ends }
    requires fit { Fit g.old given.now row.now.lines }
    ensures leaves { IfOk result (λ ran. LeavesByRow row.now g.old.nodes given.now ends after.now g.new.nodes ran) }
    ensures sorted { IfOk result (λ ran. KeepsSorts row.now g.old given.now g.new ran) }
    ensures grows { Grows g.old g.new }
{
    let made = emit(alloc, g, given, row.lines.as_slice())?;
    let tests = tests(alloc, given, &made, row.tests.as_slice())?;
    let exits = leavings(alloc, given, &made, ends, after, row.exits.as_slice())?;
    Ok(Ran { tests, exits })
}

// ---- the last action

// Whether an action ends the method.
fn ends_method(action: &Action) -> bool
    ensures { result ≡ ends_method action.now }
{
    matches!(action, Action::Give(_) | Action::Throw)
}

// The tests and exits of an action with its operands, which goes on to the place `next`.
fn leave_with(
    alloc: Global,
    g: &mut Graph,
    gives: Option<JType>,
    next: u32,
    action: &Action,
    held: Held,
    operands: &[Cell],
) -> Result<Option<Ran>, Memory>
    requires plain { IsPlain action.now }
    requires gives { GivesResult gives action.now }
    requires sorted { IsSorted g.old held }
    requires operands { AreSorted g.old operands.now }
    requires known { AreKnown operands.now }
    requires takes { map sort_in operands.now ≡ takes action.now }
    ensures stands { IfOk result (λ o. LeavesFrom gives next action.now g.old.nodes held operands.now g.new.nodes o) }
    ensures sorted { IfOk result (λ o. IfSome o (λ ran. AreSortedExits g.new (result_sort gives) ran)) }
    ensures grows { Grows g.old g.new }
{
    let row = row_for(alloc, gives, next, action)?;
    let given = given_nodes(alloc, &held, operands)?;
    let ends = ended(&held);
    if ends_method(action) {
        return Ok(Some(left(alloc, g, &row, &given, ends, &held)?));
    }
    let Some(after) = act_on(alloc, g, held, action, operands)? else {
        return Ok(None);
    };
    Ok(Some(left(alloc, g, &row, &given, ends, &after)?))
}

/// The tests and exits of a block whose last action, at this place, is this one: none where the action
/// doesn't find what it needs. The method gives a value of the type `gives`.
pub(crate) fn leave(
    alloc: Global,
    g: &mut Graph,
    gives: Option<JType>,
    place: u32,
    action: &Action,
    held: Held,
) -> Result<Option<Ran>, Memory>
    requires few { place + 1 < 2 ^ 32 }
    requires plain { IsPlain action.now }
    requires gives { GivesResult gives action.now }
    requires sorted { IsSorted g.old held }
    ensures stands { IfOk result (λ o. LeavesAs gives place action.now g.old.nodes held g.new.nodes o) }
    ensures sorted { IfOk result (λ o. IfSome o (λ ran. AreSortedExits g.new (result_sort gives) ran)) }
    ensures grows { Grows g.old g.new }
{
    let Some((operands, held)) = pop(alloc, held, action)? else {
        return Ok(None);
    };
    leave_with(alloc, g, gives, place + 1, action, held, &operands)
}
