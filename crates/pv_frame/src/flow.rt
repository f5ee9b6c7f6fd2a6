//! Frames along edges.

ghost use Rattle.std.specs.Prelude.{◌≡◌, ◌↔◌, ◌≤◌, ◌++◌, length, true, false, IsTrue, IfOk};
ghost use Rattle.std.specs.List.{AllZip};
ghost use Rattle.std.specs.Option.{option_map};
ghost use Rattle.pv_frame.specs.Effects.{takes, gives, sorts_given};
ghost use Rattle.pv_frame.specs.Frames.{Flows, frame_done, frame_after, passed_to, entry_frame, IsEnd, Leaves};
ghost use Rattle.pv_frame.specs.Inferring.{FoundOr, KnowsLess, met, merged, SameStack};

use crate::action::Action;
use crate::effect::{gives, sort_of_type, takes};
use crate::frame::Frame;
use crate::program::Program;
use crate::sort::Sort;
use crate::stack::{below, fits, has_room, holds, moved, set_local};
use crate::stop::Untyped;
use pv_list::Listed;
use pv_value::JType;
use std::alloc::{AllocError, Global};

/// Whether two lists of sorts are equal.
fn same_sorts(first: &[Sort], second: &[Sort]) -> bool
    ensures { IsTrue result ↔ (first.now ≡ second.now) }
{
    first == second
}

/// Whether each of the second locals is the first's or unknown.
fn knows_less(source: &[Sort], target: &[Sort]) -> bool
    ensures { IsTrue result ↔ KnowsLess source.now target.now }
{
    let mut left = source;
    let mut others = target;
    while let [first, more @ ..] = left {
        let [second, rest @ ..] = others else {
            return false;
        };
        if second != first && *second != Sort::Unknown {
            return false;
        }
        left = more;
        others = rest;
    }
    others.is_empty()
}

/// Whether the first frame flows to the second.
pub(crate) fn flows(source: &Frame, target: &Frame) -> bool
    ensures { IsTrue result ↔ Flows source.now target.now }
{
    same_sorts(target.stack.as_slice(), source.stack.as_slice())
        && knows_less(source.locals.as_slice(), target.locals.as_slice())
}

/// What two lists of locals both know.
fn met(alloc: Global, source: &[Sort], target: &[Sort]) -> Result<Vec<Sort>, AllocError>
    ensures { IfOk result (λ v. v.items ≡ met source.now target.now) }
{
    let mut both = Vec::new(alloc);
    let mut left = source;
    let mut others = target;
    while let [first, more @ ..] = left {
        let [second, rest @ ..] = others else {
            return Ok(both);
        };
        if fits(*first, *second) {
            both.push(*second)?;
        } else {
            both.push(Sort::Unknown)?;
        }
        left = more;
        others = rest;
    }
    Ok(both)
}

/// A frame with these sorts.
fn framed(alloc: Global, stack: &[Sort], locals: &[Sort]) -> Result<Frame, AllocError>
    ensures { IfOk result (λ f. f ≡ record { stack = stack.now; locals = locals.now }) }
{
    Ok(Frame {
        stack: Vec::from_slice(alloc, stack)?.into(),
        locals: Vec::from_slice(alloc, locals)?.into(),
    })
}

/// The frame at a place once an edge from the source leads there, where the stacks are the same.
pub(crate) fn merged(alloc: Global, source: &Frame, slot: &Option<Frame>) -> Result<Frame, Untyped>
    ensures { FoundOr result
        (λ f. SameStack source.now slot.now × (f ≡ merged source.now slot.now))
        (¬ SameStack source.now slot.now) }
{
    let Some(target) = slot else {
        return Ok(framed(alloc, source.stack.as_slice(), source.locals.as_slice())?);
    };
    let stack = target.stack.as_slice();
    if !same_sorts(stack, source.stack.as_slice()) {
        return Err(Untyped::Types);
    }
    let locals = met(alloc, source.locals.as_slice(), target.locals.as_slice())?;
    Ok(Frame {
        stack: Vec::from_slice(alloc, stack)?.into(),
        locals: locals.into(),
    })
}

/// The frame with a value of this sort, if any, on the stack.
fn pushed(
    alloc: Global,
    sort: Option<Sort>,
    stack: &[Sort],
    locals: &[Sort],
) -> Result<Frame, AllocError>
    ensures { IfOk result
        (λ f. f ≡ record { stack = sorts_given sort ++ stack.now; locals = locals.now }) }
{
    let mut top = Vec::new(alloc);
    if let Some(sort) = sort {
        top.push(sort)?;
    }
    top.extend_from_slice(stack)?;
    Ok(Frame {
        stack: top.into(),
        locals: Vec::from_slice(alloc, locals)?.into(),
    })
}

/// The frame after an action that has taken its operands, `None` where it doesn't find what it
/// needs, or ends the method.
fn frame_done(
    alloc: Global,
    action: &Action,
    stack: &[Sort],
    locals: &[Sort],
) -> Result<Option<Frame>, AllocError>
    ensures { IfOk result
        (λ o. o ≡ frame_done action.now (record { stack = stack.now; locals = locals.now })) }
{
    match action {
        Action::Load(sort, place) if !holds(locals, *place, *sort) => Ok(None),
        Action::Increase(place, _) if !holds(locals, *place, Sort::Int) => Ok(None),
        Action::Store(sort, place) if !has_room(*sort, *place, locals) => Ok(None),
        Action::Store(sort, place) => Ok(Some(Frame {
            stack: Vec::from_slice(alloc, stack)?.into(),
            locals: set_local(alloc, *place, *sort, locals)?.into(),
        })),
        Action::Move(step) => {
            let Some(stack) = moved(alloc, *step, stack)? else {
                return Ok(None);
            };
            Ok(Some(Frame {
                stack: stack.into(),
                locals: Vec::from_slice(alloc, locals)?.into(),
            }))
        }
        Action::Give(_) | Action::Throw => Ok(None),
        _ => Ok(Some(pushed(alloc, gives(action), stack, locals)?)),
    }
}

/// The frame after an action, `None` where it doesn't find what it needs, or ends the method.
pub(crate) fn frame_after(
    alloc: Global,
    action: &Action,
    frame: &Frame,
) -> Result<Option<Frame>, AllocError>
    ensures { IfOk result (λ o. o ≡ frame_after action.now frame.now) }
{
    let operands = takes(alloc, action)?;
    let Some(stack) = below(&operands, frame.stack.as_slice()) else {
        return Ok(None);
    };
    frame_done(alloc, action, stack, frame.locals.as_slice())
}

/// Whether the action ends the method, with a value as its descriptor says.
fn is_end(program: &Program, action: &Action) -> bool
    ensures { IsTrue result ↔ IsEnd program.now action.now }
{
    match action {
        Action::Give(sort) => *sort == program.desc.result.map(|value| sort_of_type(value)),
        Action::Throw => true,
        _ => false,
    }
}

/// Whether the action ends the method, with its operands on the stack.
pub(crate) fn leaves(
    alloc: Global,
    program: &Program,
    action: &Action,
    frame: &Frame,
) -> Result<bool, AllocError>
    ensures { IfOk result (λ b. IsTrue b ↔ Leaves program.now action.now frame.now) }
{
    if !is_end(program, action) {
        return Ok(false);
    }
    let operands = takes(alloc, action)?;
    Ok(below(&operands, frame.stack.as_slice()).is_some())
}

/// The sorts that `this` and the parameters take.
fn passed_to(alloc: Global, program: &Program) -> Result<Vec<Sort>, AllocError>
    ensures { IfOk result (λ v. v.items ≡ passed_to program.now) }
{
    let mut sorts = Vec::new(alloc);
    if program.instance {
        sorts.push(Sort::Ref)?;
    }
    for param in program.desc.params.as_slice() {
        sorts.push(sort_of_type(*param))?;
        if matches!(*param, JType::J | JType::D) {
            sorts.push(Sort::Unknown)?;
        }
    }
    Ok(sorts)
}

/// The frame with which a method begins, where what `this` and the parameters take is within the
/// locals.
pub(crate) fn entry_frame(alloc: Global, program: &Program) -> Result<Frame, Untyped>
    ensures { FoundOr result
        (λ f. (length (passed_to program.now) ≤ program.now.max_locals)
        × (f ≡ entry_frame program.now))
        (¬ (length (passed_to program.now) ≤ program.now.max_locals)) }
{
    let mut locals = passed_to(alloc, program)?;
    let room = program.max_locals as usize;
    if locals.len() > room {
        return Err(Untyped::Types);
    }
    locals.resize(room, Sort::Unknown)?;
    Ok(Frame {
        stack: Listed::from(Vec::new(alloc)),
        locals: locals.into(),
    })
}
