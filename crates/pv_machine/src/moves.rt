//! Moves of the operand stack, from pop to swap (JVMS 6.5).

ghost use Rattle.std.specs.Prelude.{◌≡◌, ◌≤◌, ◌+◌, ◌++◌, length, reverse, OnErr, IfOk};
ghost use Rattle.pv_frame.specs.Stacks.{one, two, dropped, copied, exchanged, moved};
ghost use Rattle.pv_frame.specs.Stacking.{taken_by};
ghost use Rattle.pv_frame.specs.Effects.{sort_of};
ghost use Rattle.pv_machine.specs.Moves.{values, size, IsTaken, IsMoved, IsOverfull};

use crate::stack::Stack;
use pv_frame::{Move, Part, is_wide, sort_of};
use pv_value::{Memory, Num};

/// The numbers that a move takes, with the topmost last.
#[derive(Clone, Copy, Debug)]
pub(crate) enum Block {
    Nothing,
    One(Num),
    Two(Num, Num),
}

impl Block {
    /// How many numbers they are.
    pub(crate) fn size(self) -> usize
        ensures { result ≡ size self }
    {
        match self {
            Block::Nothing => 0,
            Block::One(_) => 1,
            Block::Two(_, _) => 2,
        }
    }
}

// A value of category 1.
fn one(nums: &[Num]) -> Option<Block>
    ensures { IsTaken (one sort_of (reverse nums.now)) (reverse nums.now) result }
{
    let (top, _) = nums.split_last()?;
    if is_wide(sort_of(*top)) {
        None
    } else {
        Some(Block::One(*top))
    }
}

// Two values of category 1, or one of category 2.
fn two(nums: &[Num]) -> Option<Block>
    ensures { IsTaken (two sort_of (reverse nums.now)) (reverse nums.now) result }
{
    let (top, below) = nums.split_last()?;
    if is_wide(sort_of(*top)) {
        return Some(Block::One(*top));
    }
    let (next, _) = below.split_last()?;
    if is_wide(sort_of(*next)) {
        None
    } else {
        Some(Block::Two(*next, *top))
    }
}

/// The last numbers that a move takes.
pub(crate) fn taken(part: Part, nums: &[Num]) -> Option<Block>
    ensures { IsTaken (taken_by sort_of part (reverse nums.now)) (reverse nums.now) result }
{
    match part {
        Part::Nothing => Some(Block::Nothing),
        Part::One => one(nums),
        Part::Two => two(nums),
    }
}

// What is taken goes away. False where it isn't there.
fn dropped(stack: &mut Stack, part: Part) -> bool
    ensures moved { IsMoved (dropped (taken_by sort_of part stack.old.nums)) stack.old result stack.new }
    ensures room { stack.new.room ≡ stack.old.room }
{
    let Some(top) = stack.taken(0, part) else {
        return false;
    };
    stack.discard(top.size());
    true
}

// What the first takes is put also under what the second takes. False where they aren't there.
fn copied(stack: &mut Stack, above: Part, under: Part) -> Result<bool, Memory>
    ensures moved { IfOk result (λ done. IsMoved (copied (taken_by sort_of above) (taken_by sort_of under) stack.old.nums) stack.old done stack.new) }
    ensures err { OnErr result (stack.new.nums ≡ stack.old.nums) }
    ensures room { stack.old.room ≤ stack.new.room }
    ensures full { OnErr result (IsOverfull (copied (taken_by sort_of above) (taken_by sort_of under) stack.old.nums) stack.old.room) }
{
    let Some(top) = stack.taken(0, above) else {
        return Ok(false);
    };
    let Some(next) = stack.taken(top.size(), under) else {
        return Ok(false);
    };
    stack.reserve(stack.len() + top.size())?;
    stack.discard(top.size() + next.size());
    stack.put_block(top);
    stack.put_block(next);
    stack.put_block(top);
    Ok(true)
}

// The two topmost values of category 1 are exchanged. False where they aren't there.
fn exchanged(stack: &mut Stack) -> bool
    ensures moved { IsMoved (exchanged (one sort_of) (one sort_of) stack.old.nums) stack.old result stack.new }
    ensures room { stack.new.room ≡ stack.old.room }
{
    let Some(top) = stack.taken(0, Part::One) else {
        return false;
    };
    let Some(next) = stack.taken(top.size(), Part::One) else {
        return false;
    };
    stack.discard(top.size() + next.size());
    stack.put_block(top);
    stack.put_block(next);
    true
}

/// Moves the values on top of the stack. False, and the stack is as it was, where they aren't there.
pub(crate) fn moved(stack: &mut Stack, step: Move) -> Result<bool, Memory>
    ensures moved { IfOk result (λ done. IsMoved (moved sort_of step stack.old.nums) stack.old done stack.new) }
    ensures err { OnErr result (stack.new.nums ≡ stack.old.nums) }
    ensures room { stack.old.room ≤ stack.new.room }
    ensures full { OnErr result (IsOverfull (moved sort_of step stack.old.nums) stack.old.room) }
{
    match step {
        Move::Pop => Ok(dropped(stack, Part::One)),
        Move::Pop2 => Ok(dropped(stack, Part::Two)),
        Move::Dup => copied(stack, Part::One, Part::Nothing),
        Move::DupX1 => copied(stack, Part::One, Part::One),
        Move::DupX2 => copied(stack, Part::One, Part::Two),
        Move::Dup2 => copied(stack, Part::Two, Part::Nothing),
        Move::Dup2X1 => copied(stack, Part::Two, Part::One),
        Move::Dup2X2 => copied(stack, Part::Two, Part::Two),
        Move::Swap => Ok(exchanged(stack)),
    }
}
