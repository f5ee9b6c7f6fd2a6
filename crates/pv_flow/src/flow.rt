//! The blocks of a method.

ghost use Rattle.std.specs.Prelude.{◌≡◌, ◌+◌, ◌<◌, ◌^◌, length, IfOk};
ghost use Rattle.pv_frame.specs.Frames.{AreFrames};
ghost use Rattle.pv_flow.specs.Answers.{Answers};
ghost use Rattle.pv_flow.specs.Finding.{AreBegins, IsHead, IsMade};

use crate::begin::begins;
use crate::block::{Block, Flow};
use crate::exit::exits;
use crate::head::{Heads, last_of, number_heads};
use pv_frame::{Cause, CauseKind, Refused, Typed};
use std::alloc::{AllocError, Global};

/// The most blocks that may be reached.
pub const MOST_BLOCKS: usize = 512;

/// The block that begins at a place that is reached, by the marks where blocks begin and the numbers of
/// the blocks at places.
fn block(
    alloc: Global,
    typed: &Typed,
    begins: &[bool],
    numbers: &[u32],
    first: u32,
) -> Result<Block, AllocError>
    requires well_typed { AreFrames typed.now.program typed.now.frames }
    requires few { length typed.now.program.actions + 1 < 2 ^ 32 }
    requires begins { AreBegins typed.now.program begins.now }
    requires numbers { length numbers.now ≡ length typed.now.frames }
    requires head { IsHead begins.now typed.now.frames first }
    ensures { IfOk result (λ block. IsMade typed.now.program numbers.now first block) }
{
    let last = last_of(begins, first);
    let action = &typed.program.actions.as_slice()[last as usize];
    let exits = exits(alloc, numbers, last, action)?;
    Ok(Block {
        first,
        last,
        exits: exits.into(),
    })
}

/// The blocks of a method that are reached, in the order of the code. Block 0 begins at place 0.
///
/// A block begins at place 0, at each target, also of an instruction that isn't reached, and after each
/// instruction that branches, ends the method or can throw. The cause is `Blocks` at 0 exactly where
/// more than `MOST_BLOCKS` are reached. `Memory` says nothing of the method; it also comes where there are
/// as many instructions as a `u32` can count, or more.
pub fn blocks(alloc: Global, typed: &Typed) -> Result<Flow, Refused>
    requires { AreFrames typed.now.program typed.now.frames }
    ensures { Answers typed.now.program result }
{
    if typed.program.actions.as_slice().len() >= u32::MAX as usize {
        return Err(Refused::Memory);
    }
    let begins = begins(alloc, typed)?;
    let Heads { places, numbers } = number_heads(alloc, &begins, typed.frames.as_slice())?;
    let mut blocks = Vec::new(alloc);
    for first in &places {
        blocks.push(block(alloc, typed, &begins, &numbers, *first)?)?;
    }
    if blocks.len() > MOST_BLOCKS {
        return Err(Refused::Cause(Cause {
            kind: CauseKind::Blocks,
            at: 0,
        }));
    }
    Ok(Flow {
        blocks: blocks.into(),
    })
}
