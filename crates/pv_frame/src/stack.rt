//! Operand stacks, with their top first, and locals, by the sorts of their values.

ghost use Rattle.std.specs.Prelude.{◌≡◌, ◌↔◌, ◌++◌, ◌<◌, ◌≤◌, length, true, IsTrue, IfOk, sum_by, slice_get};
ghost use Rattle.std.specs.Option.{option_map};
ghost use Rattle.pv_frame.specs.declared.sort.Sort.TheVariants.{Unknown};
ghost use Rattle.pv_frame.specs.Stacks.{fits, is_wide, width, popped, one, two, moved, copied, dropped, exchanged, has_room, set_local};
ghost use Rattle.pv_frame.specs.Frames.{same, holds};
ghost use Rattle.pv_frame.specs.Stacking.{taken_by, lost_before};

use crate::action::Move;
use crate::sort::Sort;
use std::alloc::{AllocError, Global};

/// Whether a value of the first sort is there where one of the second is asked for.
pub fn fits(found: Sort, asked: Sort) -> bool
    ensures { result ≡ fits found asked }
{
    match (found, asked) {
        (Sort::Int, Sort::Int) => true,
        (Sort::Long, Sort::Long) => true,
        (Sort::Ref, Sort::Ref) => true,
        _ => false,
    }
}

/// Whether a value of this sort is of category 2 (JVMS 2.11.1).
pub fn is_wide(sort: Sort) -> bool
    ensures { result ≡ is_wide sort }
{
    matches!(sort, Sort::Long)
}

/// The stack below operands of these sorts, of which the last lies on top, `None` where they don't
/// lie there.
pub(crate) fn below<'a>(sorts: &[Sort], stack: &'a [Sort]) -> Option<&'a [Sort]>
    ensures { option_map (λ rest. rest.now) result
        ≡ option_map (λ q. q.1) (popped same sorts.now stack.now) }
{
    let mut asked = sorts;
    let mut rest = stack;
    while let [others @ .., last] = asked {
        let [top, more @ ..] = rest else {
            return None;
        };
        if !fits(*top, *last) {
            return None;
        }
        asked = others;
        rest = more;
    }
    Some(rest)
}

/// What a move takes from the top of the stack.
#[derive(Clone, Copy, Debug)]
pub enum Part {
    Nothing,
    /// A value of category 1.
    One,
    /// Two values of category 1, or one of category 2.
    Two,
}

/// A value of category 1 on top, and the stack below it.
fn one(stack: &[Sort]) -> Option<(&[Sort], &[Sort])>
    ensures { option_map (λ q. (q.0.now, q.1.now)) result ≡ one same stack.now }
{
    match stack {
        [] => None,
        [top, ..] => {
            if is_wide(*top) {
                None
            } else {
                Some(stack.split_at(1))
            }
        }
    }
}

/// Two values of category 1 on top, or one of category 2, and the stack below.
fn two(stack: &[Sort]) -> Option<(&[Sort], &[Sort])>
    ensures { option_map (λ q. (q.0.now, q.1.now)) result ≡ two same stack.now }
{
    match stack {
        [] => None,
        [top, below @ ..] => {
            if is_wide(*top) {
                return Some(stack.split_at(1));
            }
            one(below)?;
            Some(stack.split_at(2))
        }
    }
}

/// What a move takes, and the stack below it.
fn taken(part: Part, stack: &[Sort]) -> Option<(&[Sort], &[Sort])>
    ensures { option_map (λ q. (q.0.now, q.1.now)) result ≡ taken_by same part stack.now }
{
    match part {
        Part::Nothing => Some(stack.split_at(0)),
        Part::One => one(stack),
        Part::Two => two(stack),
    }
}

/// Four runs of sorts, one after the other.
fn joined(
    alloc: Global,
    first: &[Sort],
    second: &[Sort],
    third: &[Sort],
    rest: &[Sort],
) -> Result<Vec<Sort>, AllocError>
    ensures { IfOk result (λ v. v.items ≡ first.now ++ second.now ++ third.now ++ rest.now) }
{
    let mut stack = Vec::from_slice(alloc, first)?;
    stack.extend_from_slice(second)?;
    stack.extend_from_slice(third)?;
    stack.extend_from_slice(rest)?;
    Ok(stack)
}

/// The stack without what is taken.
fn dropped(alloc: Global, part: Part, stack: &[Sort]) -> Result<Option<Vec<Sort>>, AllocError>
    ensures { IfOk result (λ o. option_map (λ v. v.items) o ≡ dropped (taken_by same part stack.now)) }
{
    match taken(part, stack) {
        Some((_, rest)) => Ok(Some(Vec::from_slice(alloc, rest)?)),
        None => Ok(None),
    }
}

/// The stack with what the first takes put also under what the second takes.
fn copied(
    alloc: Global,
    above: Part,
    under: Part,
    stack: &[Sort],
) -> Result<Option<Vec<Sort>>, AllocError>
    ensures { IfOk result
        (λ o. option_map (λ v. v.items) o ≡ copied (taken_by same above) (taken_by same under) stack.now) }
{
    let Some((top, below)) = taken(above, stack) else {
        return Ok(None);
    };
    let Some((next, rest)) = taken(under, below) else {
        return Ok(None);
    };
    Ok(Some(joined(alloc, top, next, top, rest)?))
}

/// The stack with its two topmost values of category 1 exchanged.
fn exchanged(alloc: Global, stack: &[Sort]) -> Result<Option<Vec<Sort>>, AllocError>
    ensures { IfOk result
        (λ o. option_map (λ v. v.items) o ≡ exchanged (one same) (one same) stack.now) }
{
    let Some((top, below)) = one(stack) else {
        return Ok(None);
    };
    let Some((next, rest)) = one(below) else {
        return Ok(None);
    };
    Ok(Some(joined(alloc, next, top, rest, &[])?))
}

/// The stack after a move, `None` where it doesn't find what it needs (JVMS 6.5).
pub(crate) fn moved(
    alloc: Global,
    step: Move,
    stack: &[Sort],
) -> Result<Option<Vec<Sort>>, AllocError>
    ensures { IfOk result (λ o. option_map (λ v. v.items) o ≡ moved same step stack.now) }
{
    match step {
        Move::Pop => dropped(alloc, Part::One, stack),
        Move::Pop2 => dropped(alloc, Part::Two, stack),
        Move::Dup => copied(alloc, Part::One, Part::Nothing, stack),
        Move::DupX1 => copied(alloc, Part::One, Part::One, stack),
        Move::DupX2 => copied(alloc, Part::One, Part::Two, stack),
        Move::Dup2 => copied(alloc, Part::Two, Part::Nothing, stack),
        Move::Dup2X1 => copied(alloc, Part::Two, Part::One, stack),
        Move::Dup2X2 => copied(alloc, Part::Two, Part::Two, stack),
        Move::Swap => exchanged(alloc, stack),
    }
}

/// Whether a stack is at most this wide, where a long counts two.
pub(crate) fn is_within(stack: &[Sort], limit: u16) -> bool
    ensures { IsTrue result ↔ (sum_by width stack.now ≤ limit) }
{
    let mut total = 0;
    for sort in stack {
        total += if is_wide(*sort) { 2 } else { 1 };
        if total > usize::from(limit) {
            return false;
        }
    }
    true
}

/// Whether a local holds a value of a sort.
pub(crate) fn holds(locals: &[Sort], place: u16, asked: Sort) -> bool
    ensures { result ≡ holds (slice_get locals.now place) asked }
{
    match locals.get(place as usize) {
        Some(found) => fits(*found, asked),
        None => false,
    }
}

/// Whether there are locals for a value of a sort from this one on.
pub fn has_room<T>(sort: Sort, place: u16, locals: &[T]) -> bool
    ensures { result ≡ has_room sort place locals.now }
{
    let last = if is_wide(sort) {
        place as usize + 1
    } else {
        place as usize
    };
    last < locals.len()
}

/// Forgets a long in the local before this one, whose second half this one is.
fn lose_long(locals: &mut Vec<Sort>, place: usize)
    requires { place < length locals.old.items }
    ensures { locals.new.items ≡ lost_before same Unknown place locals.old.items }
{
    if place > 0 && is_wide(locals[place - 1]) {
        locals[place - 1] = Sort::Unknown;
    }
}

/// The locals after a value of a sort is stored into one (JVMS 2.6.1): a long takes the next local
/// too, and a long that the local was the second half of is lost.
pub(crate) fn set_local(
    alloc: Global,
    place: u16,
    sort: Sort,
    locals: &[Sort],
) -> Result<Vec<Sort>, AllocError>
    requires { has_room sort place locals.now ≡ true }
    ensures { IfOk result (λ v. v.items ≡ set_local same Unknown place sort locals.now) }
{
    let mut after = Vec::from_slice(alloc, locals)?;
    let place = place as usize;
    lose_long(&mut after, place);
    after[place] = sort;
    if is_wide(sort) {
        after[place + 1] = Sort::Unknown;
    }
    Ok(after)
}
