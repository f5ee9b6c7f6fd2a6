//! Inference of frames: from the entry along edges, place by place.

ghost use Rattle.std.specs.Prelude.{◌≡◌, ◌≤◌, ◌<◌, ◌^◌, [], ◌∷◌, ◌++◌, length, replicate, IfOk, None};
ghost use Rattle.pv_frame.specs.Frames.{HasFrames, IsInferred};
ghost use Rattle.pv_frame.specs.Inferring.{FoundOr, HaveLocals, Follows, Clashes, Inferring, Visits};

use crate::effect::successors;
use crate::flow::{entry_frame, flows, frame_after, leaves, merged};
use crate::frame::Frame;
use crate::program::Program;
use crate::stack::is_within;
use crate::stop::Untyped;
use std::alloc::{AllocError, Global};

/// Follows an edge from a frame to a place. Where the frame there changes, the place is to be
/// visited.
fn follow(
    alloc: Global,
    frames: &mut Vec<Option<Frame>>,
    work: &mut Vec<u32>,
    source: &Frame,
    place: u32,
) -> Result<(), Untyped>
    requires { HaveLocals (length source.now.locals) frames.old.items }
    ensures { FoundOr result
        (λ _. Follows frames.old.items work.old.items source.now (place ∷ [])
        frames.new.items work.new.items)
        (Clashes frames.old.items source.now (place ∷ [])) }
{
    let index = place as usize;
    if index >= frames.len() {
        return Err(Untyped::Types);
    }
    let slot = &frames[index];
    if let Some(target) = slot {
        if flows(source, target) {
            return Ok(());
        }
    }
    let next = merged(alloc, source, slot)?;
    work.push(place)?;
    frames[index] = Some(next);
    Ok(())
}

/// Follows the edges from a frame to some places.
fn follow_all(
    alloc: Global,
    frames: &mut Vec<Option<Frame>>,
    work: &mut Vec<u32>,
    source: &Frame,
    places: &[u32],
) -> Result<(), Untyped>
    requires { HaveLocals (length source.now.locals) frames.old.items }
    ensures { FoundOr result
        (λ _. Follows frames.old.items work.old.items source.now places.now
        frames.new.items work.new.items)
        (Clashes frames.old.items source.now places.now) }
{
    for place in places {
        follow(alloc, frames, work, source, *place)?;
    }
    Ok(())
}

/// Visits a place that waits: its instruction agrees with its frame, and its edges are followed.
fn visit(
    alloc: Global,
    program: &Program,
    frames: &mut Vec<Option<Frame>>,
    work: &mut Vec<u32>,
    place: u32,
) -> Result<(), Untyped>
    requires inferring { Inferring program.now frames.old.items (place ∷ work.old.items) }
    requires few { length program.now.actions < 2 ^ 32 }
    ensures { FoundOr result
        (λ _. Visits program.now frames.old.items work.old.items frames.new.items work.new.items)
        (¬ HasFrames program.now) }
{
    let Some(Some(frame)) = frames.get(place as usize) else {
        return Ok(());
    };
    let action = &program.actions.as_slice()[place as usize];
    if !is_within(frame.stack.as_slice(), program.max_stack) {
        return Err(Untyped::Types);
    }
    if leaves(alloc, program, action, frame)? {
        return Ok(());
    }
    let Some(after) = frame_after(alloc, action, frame)? else {
        return Err(Untyped::Types);
    };
    let places = successors(alloc, place, action)?;
    follow_all(alloc, frames, work, &after, &places)
}

/// No frame at each of some places.
fn no_frames(alloc: Global, count: usize) -> Result<Vec<Option<Frame>>, AllocError>
    ensures { IfOk result (λ v. v.items ≡ replicate count None) }
{
    let mut frames = Vec::new(alloc);
    for _ in 0..count {
        frames.push(None)?;
    }
    Ok(frames)
}

/// The frames of a program that have the fewest unknown locals (JVMS 4.10.1), `None` exactly where
/// an instruction isn't reached.
///
/// A place is visited again only after it has lost a known local, so each edge is followed at most
/// once more than there are locals.
pub(crate) fn frames_of(alloc: Global, program: &Program) -> Result<Vec<Option<Frame>>, Untyped>
    requires { length program.now.actions < 2 ^ 32 }
    ensures { FoundOr result (λ v. IsInferred program.now v.items) (¬ HasFrames program.now) }
{
    let entry = entry_frame(alloc, program)?;
    let mut frames = no_frames(alloc, program.actions.as_slice().len())?;
    let mut work = Vec::new(alloc);
    follow(alloc, &mut frames, &mut work, &entry, 0)?;
    while let Some(place) = work.pop() {
        visit(alloc, program, &mut frames, &mut work, place)?;
    }
    Ok(frames)
}
