//! The numbers of blocks, and where each ends.

ghost use Rattle.std.specs.Prelude.{◌≡◌, ◌≤◌, ◌<◌, ◌^◌, suc, length, IfOk};
ghost use Rattle.pv_flow.specs.Finding.{AreHeads, HasLast, IsLast};

use pv_frame::Frame;
use std::alloc::{AllocError, Global};

/// Where the blocks begin that are reached.
#[derive(Drop)]
pub(crate) struct Heads {
    /// The places, in ascending order.
    pub(crate) places: Vec<u32>,
    /// For each place of the code, how many of those come before it: at one of those, its own number.
    pub(crate) numbers: Vec<u32>,
}

/// Numbers the places where blocks begin that are reached: those with a mark and a frame, in order.
pub(crate) fn number_heads(
    alloc: Global,
    begins: &[bool],
    frames: &[Option<Frame>],
) -> Result<Heads, AllocError>
    requires few { length frames.now < 2 ^ 32 }
    requires marks { length begins.now ≡ suc (length frames.now) }
    ensures { IfOk result (λ heads.
        AreHeads begins.now frames.now (length frames.now) heads.places.items heads.numbers.items) }
{
    let mut places = Vec::new(alloc);
    let mut numbers = Vec::new(alloc);
    for (place, frame) in frames.iter().enumerate() {
        numbers.push(places.len() as u32)?;
        if begins[place] && frame.is_some() {
            places.push(place as u32)?;
        }
    }
    Ok(Heads { places, numbers })
}

/// The last place of the block that begins at a place. Each place is asked for once over all blocks, so
/// that the time is linear.
pub(crate) fn last_of(begins: &[bool], first: u32) -> u32
    requires few { length begins.now ≤ 2 ^ 32 }
    requires ends { HasLast begins.now first }
    ensures { IsLast begins.now first result }
{
    let mut last = first;
    while !begins[last as usize + 1] {
        last += 1;
    }
    last
}
