//! Operand stacks with their top first.

ghost use Rattle.std.specs.Prelude.{◌≡◌, ◌++◌, ◌≤◌, length, IfOk, take, reverse};
ghost use Rattle.std.specs.Option.{option_map};
ghost use Rattle.pv_frame.specs.Stacks.{fits, is_wide, popped, one, two, moved, copied, dropped, exchanged};
ghost use Rattle.pv_block.specs.Cells.{sort_in, taken_by};

use crate::held::Cell;
use pv_frame::{Move, Sort};
use pv_value::Memory;
use std::alloc::Global;

/// Whether a value of the first sort is there where one of the second is asked for.
pub(crate) fn fits(found: Sort, asked: Sort) -> bool
    ensures { result ≡ fits found asked }
{
    match (found, asked) {
        (Sort::Int, Sort::Int) => true,
        (Sort::Long, Sort::Long) => true,
        (Sort::Ref, Sort::Ref) => true,
        _ => false,
    }
}

/// Whether a value of this sort is of category 2 (JVMS 2.11.1).
pub(crate) fn is_wide(sort: Sort) -> bool
    ensures { result ≡ is_wide sort }
{
    matches!(sort, Sort::Long)
}

// The stack below operands of these sorts, of which the last lies on top.
fn below<'a>(sorts: &[Sort], stack: &'a [Cell]) -> Option<&'a [Cell]>
    ensures { option_map (λ rest. rest.now) result
        ≡ option_map (λ q. q.1) (popped sort_in sorts.now stack.now) }
{
    let mut asked = sorts;
    let mut rest = stack;
    while let [others @ .., last] = asked {
        let [top, more @ ..] = rest else {
            return None;
        };
        if !fits(top.sort, *last) {
            return None;
        }
        asked = others;
        rest = more;
    }
    Some(rest)
}

// The first cells, the last of them first.
fn reversed(alloc: Global, cells: &[Cell], count: usize) -> Result<Vec<Cell>, Memory>
    requires { count ≤ length cells.now }
    ensures { IfOk result (λ v. v.items ≡ reverse (take count cells.now)) }
{
    let mut found = Vec::from_slice(alloc, &cells[..count])?;
    found.reverse();
    Ok(found)
}

/// Operands of these sorts in the order in which they were pushed, and the stack below them.
pub(crate) fn operands<'a>(
    alloc: Global,
    sorts: &[Sort],
    stack: &'a [Cell],
) -> Result<Option<(Vec<Cell>, &'a [Cell])>, Memory>
    ensures { IfOk result (λ o. option_map (λ q. (q.0.items, q.1.now)) o ≡ popped sort_in sorts.now stack.now) }
{
    let Some(rest) = below(sorts, stack) else {
        return Ok(None);
    };
    let found = reversed(alloc, stack, sorts.len())?;
    Ok(Some((found, rest)))
}

/// What a move takes from the top of the stack.
#[derive(Clone, Copy, Debug)]
pub(crate) enum Part {
    Nothing,
    /// A value of category 1.
    One,
    /// Two values of category 1, or one of category 2.
    Two,
}

// A value of category 1 on top, and the stack below it.
fn one(stack: &[Cell]) -> Option<(&[Cell], &[Cell])>
    ensures { option_map (λ q. (q.0.now, q.1.now)) result ≡ one sort_in stack.now }
{
    match stack {
        [] => None,
        [top, ..] => {
            if is_wide(top.sort) {
                None
            } else {
                Some(stack.split_at(1))
            }
        }
    }
}

// Two values of category 1 on top, or one of category 2, and the stack below.
fn two(stack: &[Cell]) -> Option<(&[Cell], &[Cell])>
    ensures { option_map (λ q. (q.0.now, q.1.now)) result ≡ two sort_in stack.now }
{
    match stack {
        [] => None,
        [top, below @ ..] => {
            if is_wide(top.sort) {
                return Some(stack.split_at(1));
            }
            one(below)?;
            Some(stack.split_at(2))
        }
    }
}

// What a move takes, and the stack below it.
fn taken(part: Part, stack: &[Cell]) -> Option<(&[Cell], &[Cell])>
    ensures { option_map (λ q. (q.0.now, q.1.now)) result ≡ taken_by part stack.now }
{
    match part {
        Part::Nothing => Some(stack.split_at(0)),
        Part::One => one(stack),
        Part::Two => two(stack),
    }
}

// Four runs of cells, one after the other.
fn joined(
    alloc: Global,
    first: &[Cell],
    second: &[Cell],
    third: &[Cell],
    rest: &[Cell],
) -> Result<Vec<Cell>, Memory>
    ensures { IfOk result (λ v. v.items ≡ first.now ++ second.now ++ third.now ++ rest.now) }
{
    let mut stack = Vec::from_slice(alloc, first)?;
    stack.extend_from_slice(second)?;
    stack.extend_from_slice(third)?;
    stack.extend_from_slice(rest)?;
    Ok(stack)
}

// The stack without what is taken.
fn dropped(alloc: Global, part: Part, stack: &[Cell]) -> Result<Option<Vec<Cell>>, Memory>
    ensures { IfOk result (λ o. option_map (λ v. v.items) o ≡ dropped (taken_by part stack.now)) }
{
    match taken(part, stack) {
        Some((_, rest)) => Ok(Some(Vec::from_slice(alloc, rest)?)),
        None => Ok(None),
    }
}

// The stack with what the first takes put also under what the second takes.
fn copied(
    alloc: Global,
    above: Part,
    under: Part,
    stack: &[Cell],
) -> Result<Option<Vec<Cell>>, Memory>
    ensures { IfOk result
        (λ o. option_map (λ v. v.items) o ≡ copied (taken_by above) (taken_by under) stack.now) }
{
    let Some((top, below)) = taken(above, stack) else {
        return Ok(None);
    };
    let Some((next, rest)) = taken(under, below) else {
        return Ok(None);
    };
    Ok(Some(joined(alloc, top, next, top, rest)?))
}

// The stack with its two topmost values of category 1 exchanged.
fn exchanged(alloc: Global, stack: &[Cell]) -> Result<Option<Vec<Cell>>, Memory>
    ensures { IfOk result
        (λ o. option_map (λ v. v.items) o ≡ exchanged (one sort_in) (one sort_in) stack.now) }
{
    let Some((top, below)) = one(stack) else {
        return Ok(None);
    };
    let Some((next, rest)) = one(below) else {
        return Ok(None);
    };
    Ok(Some(joined(alloc, next, top, rest, &[])?))
}

/// The stack after a move, `None` where it doesn't find what it needs (JVMS 6.5).
pub(crate) fn moved(alloc: Global, step: Move, stack: &[Cell]) -> Result<Option<Vec<Cell>>, Memory>
    ensures { IfOk result (λ o. option_map (λ v. v.items) o ≡ moved sort_in step stack.now) }
{
    match step {
        Move::Pop => dropped(alloc, Part::One, stack),
        Move::Pop2 => dropped(alloc, Part::Two, stack),
        Move::Dup => copied(alloc, Part::One, Part::Nothing, stack),
        Move::DupX1 => copied(alloc, Part::One, Part::One, stack),
        Move::DupX2 => copied(alloc, Part::One, Part::Two, stack),
        Move::Dup2 => copied(alloc, Part::Two, Part::Nothing, stack),
        Move::Dup2X1 => copied(alloc, Part::Two, Part::One, stack),
        Move::Dup2X2 => copied(alloc, Part::Two, Part::Two, stack),
        Move::Swap => exchanged(alloc, stack),
    }
}
