//! Blocks of instructions, and where they are left.

use pv_list::Listed;

/// How a block is left: to the block of this number, or out of the method.
#[derive(Clone, Copy, Debug, PartialEq, Eq)]
pub enum Exit {
    /// To the block of this number in the list of blocks.
    To(u32),
    /// By a return.
    Return,
    /// By an exception.
    Throw,
}

/// Instructions that are entered at the first and left at the last alone.
///
/// A block with n exits has n - 1 tests: yes of a test leaves by the exit of its place, no goes on to
/// the next test, and no of the last test leaves by the last exit.
#[derive(Debug, Drop)]
pub struct Block {
    /// The place of the first instruction in the list of instructions.
    pub first: u32,
    /// The place of the last, which is the first itself in a block of one instruction.
    pub last: u32,
    /// How the last instruction leaves the block, in the order of its tests.
    pub exits: Listed<Exit>,
}

/// The blocks of a method that are reached, in the order of the code.
#[derive(Debug, Drop)]
pub struct Flow {
    pub blocks: Listed<Block>,
}
