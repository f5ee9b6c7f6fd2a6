//! The operand stack (JVMS 2.6.2).

ghost use Rattle.std.specs.Prelude.{◌≡◌, ◌≤◌, ◌<◌, ◌+◌, ◌-◌, ◌^◌, [], ◌∷◌, ◌++◌, length, drop, reverse, OnOk, OnErr, IfSome, MatchOption};
ghost use Rattle.pv_frame.specs.Stacks.{popped};
ghost use Rattle.pv_frame.specs.Stacking.{taken_by};
ghost use Rattle.pv_frame.specs.Effects.{sort_of};
ghost use Rattle.pv_machine.specs.Operands.{lie_on};
ghost use Rattle.pv_machine.specs.Moves.{values, size, IsTaken};

use crate::moves::{Block, taken};
use pv_frame::{Part, Sort, fits, sort_of};
use pv_value::{Memory, Num};
use std::alloc::Global;
use std::marker::Model;

// Whether the last numbers have these sorts, in the same order.
fn lie_on(sorts: &[Sort], nums: &[Num]) -> bool
    ensures { result ≡ lie_on (reverse sorts.now) (reverse nums.now) }
{
    let mut asked = sorts;
    let mut rest = nums;
    while let [others @ .., last] = asked {
        let Some((top, below)) = rest.split_last() else {
            return false;
        };
        if !fits(sort_of(*top), *last) {
            return false;
        }
        asked = others;
        rest = below;
    }
    true
}

/// An operand stack, seen as its numbers with the top first, and for how many it has memory. The
/// numbers are kept with the top last.
#[derive(Debug, Drop)]
pub(crate) struct Stack {
    items: Vec<Num>,
}

impl Model for Stack {
    ghost use Rattle.std.specs.Prelude.{reverse, vec_capacity};
    ghost use Rattle.pv_machine.specs.InMemory.{StackInMemory};

    ghost Value = { StackInMemory };

    ghost view = { λ s. record { nums = reverse s.items.items; room = vec_capacity s.items } };
}

impl Stack {
    /// The empty stack.
    pub(crate) fn new(alloc: Global) -> Stack
        ensures { result.nums ≡ [] }
    {
        Stack {
            items: Vec::new(alloc),
        }
    }

    /// Makes room for `n` numbers in all.
    pub(crate) fn reserve(&mut self, n: usize) -> Result<(), Memory>
        ensures ok { OnOk result (n ≤ self.new.room) }
        ensures nums { self.new.nums ≡ self.old.nums }
        ensures room { self.old.room ≤ self.new.room }
        ensures full { OnErr result (self.old.room < n) }
    {
        self.items.reserve(n.saturating_sub(self.items.len()))?;
        Ok(())
    }

    /// Takes numbers from the top, and puts one there. After `Memory` the numbers are as they were.
    pub(crate) fn put(&mut self, taken: usize, n: Num) -> Result<(), Memory>
        requires { taken ≤ length self.old.nums }
        ensures ok { OnOk result (self.new.nums ≡ n ∷ drop taken self.old.nums) }
        ensures err { OnErr result (self.new.nums ≡ self.old.nums) }
        ensures room { self.old.room ≤ self.new.room }
        ensures full { OnErr result (self.old.room < length (n ∷ drop taken self.old.nums)) }
    {
        let below = self.items.len() - taken;
        self.reserve(below + 1)?;
        self.items.truncate(below);
        self.items.push_reserved(n);
        Ok(())
    }

    /// Takes numbers from the top.
    pub(crate) fn discard(&mut self, taken: usize)
        requires { taken ≤ length self.old.nums }
        ensures nums { self.new.nums ≡ drop taken self.old.nums }
        ensures room { self.new.room ≡ self.old.room }
        ensures left { taken + length self.new.nums ≤ self.new.room }
    {
        self.items.truncate(self.items.len() - taken);
    }

    /// The operands of these sorts, in the order in which they were pushed: the last lies on top.
    pub(crate) fn operands(&self, sorts: &[Sort]) -> Option<&[Num]>
        ensures found { MatchOption result (popped sort_of sorts.now self.now.nums ≡ None) (λ nums. popped sort_of sorts.now self.now.nums ≡ Some (nums.now, drop (length nums.now) self.now.nums)) }
        ensures there { IfSome result (λ nums. length nums.now ≤ length self.now.nums) }
    {
        if !lie_on(sorts, &self.items) {
            return None;
        }
        Some(&self.items[self.items.len() - sorts.len()..])
    }

    /// How many numbers it has.
    pub(crate) fn len(&self) -> usize
        ensures len { result ≡ length self.now.nums }
        ensures small { result < 2 ^ 63 }
    {
        self.items.len()
    }

    /// What a move takes below the topmost numbers.
    pub(crate) fn taken(&self, above: usize, part: Part) -> Option<Block>
        requires { above ≤ length self.now.nums }
        ensures { IsTaken (taken_by sort_of part (drop above self.now.nums)) (drop above self.now.nums) result }
    {
        taken(part, &self.items[..self.items.len() - above])
    }

    /// Puts the numbers of a block on top, for which there is room.
    pub(crate) fn put_block(&mut self, block: Block)
        requires { size block + length self.old.nums ≤ self.old.room }
        ensures nums { self.new.nums ≡ values block ++ self.old.nums }
        ensures room { self.new.room ≡ self.old.room }
    {
        match block {
            Block::Nothing => {}
            Block::One(n) => self.items.push_reserved(n),
            Block::Two(below, top) => {
                self.items.push_reserved(below);
                self.items.push_reserved(top);
            }
        }
    }
}
