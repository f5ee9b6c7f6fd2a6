//! The class of the methods that are made.

ghost use Rattle.std.specs.Prelude.{◌≡◌, ◌≤◌, IfOk, Some, map};
ghost use Rattle.pv_maker.specs.Classes.{IsMade};

use crate::methods::listing;
use pv_asm::{AsmFault, assemble_lines};
use pv_list::Listed;
use pv_listing::Line;
use pv_value::Memory;
use std::alloc::{AllocError, Global};

/// The most methods of a class that is made.
pub const MOST_MADE: u32 = 2000;

// Lines that all have a reading.
fn all_read(alloc: Global, lines: Listed<Line>) -> Result<Vec<Option<Line>>, AllocError>
    ensures { IfOk result (λ v. v.items ≡ map (λ line. Some line) lines) }
{
    lines.into_vec().into_iter().map(Some).collect(alloc)
}

/// The class of `count` random methods that the draws from a seed give, or of their twins, each of which adds in the other order.
pub fn generate(alloc: Global, seed: u64, count: u32, twin: bool) -> Result<Vec<u8>, Memory>
    requires { count ≤ MOST_MADE }
    ensures { IfOk result (λ v. IsMade seed count twin v.items) }
{
    let lines = all_read(alloc, listing(alloc, seed, count, twin)?)?;
    match assemble_lines(alloc, &lines) {
        Ok(bytes) => Ok(bytes),
        Err(AsmFault::Memory) => Err(Memory),
        Err(AsmFault::Line(_)) => unreachable!(),
    }
}
