//! Frames with the locals that are live.

ghost use Rattle.std.specs.Prelude.{◌≡◌, length, IfOk};
ghost use Rattle.pv_frame.specs.Frames.{IsInferred};
ghost use Rattle.pv_live.specs.Needed.{AreNeeded};
ghost use Rattle.pv_live.specs.Marks.{AreKept, IsKeptFrame, IsKeptOption, AreKeptFrames, HasLocals, Match};

use crate::table::live_locals;
use pv_frame::{Frame, Sort, Typed};
use pv_list::Listed;
use pv_value::Memory;
use std::alloc::{AllocError, Global};

/// The locals that are marked, and unknown for the others.
fn kept(alloc: Global, row: &[bool], locals: &[Sort]) -> Result<Vec<Sort>, AllocError>
    requires { length row.now ≡ length locals.now }
    ensures { IfOk result (λ v. AreKept row.now locals.now v.items) }
{
    let mut sorts = Vec::with_capacity(alloc, locals.len())?;
    for local in 0..locals.len() {
        let sort = if row[local] {
            locals[local]
        } else {
            Sort::Unknown
        };
        sorts.push(sort)?;
    }
    Ok(sorts)
}

/// A frame with the locals that are marked.
fn kept_frame(alloc: Global, row: &[bool], frame: &Frame) -> Result<Frame, AllocError>
    requires { length row.now ≡ length frame.now.locals }
    ensures { IfOk result (λ g. IsKeptFrame row.now frame.now g) }
{
    Ok(Frame {
        stack: Vec::from_slice(alloc, frame.stack.as_slice())?.into(),
        locals: kept(alloc, row, frame.locals.as_slice())?.into(),
    })
}

/// The same where there may be none.
fn kept_option(
    alloc: Global,
    row: &[bool],
    frame: &Option<Frame>,
) -> Result<Option<Frame>, AllocError>
    requires { HasLocals (length row.now) frame.now }
    ensures { IfOk result (λ g. IsKeptOption row.now frame.now g) }
{
    match frame {
        Some(frame) => Ok(Some(kept_frame(alloc, row, frame)?)),
        None => Ok(None),
    }
}

/// Frames with the locals that are marked at their places.
fn kept_frames(
    alloc: Global,
    rows: &[Listed<bool>],
    frames: &[Option<Frame>],
) -> Result<Vec<Option<Frame>>, AllocError>
    requires { Match rows.now frames.now }
    ensures { IfOk result (λ v. AreKeptFrames rows.now frames.now v.items) }
{
    let mut all = Vec::with_capacity(alloc, frames.len())?;
    for place in 0..frames.len() {
        let frame = kept_option(alloc, rows[place].as_slice(), &frames[place])?;
        all.push(frame)?;
    }
    Ok(all)
}

/// The typed method with the frames that know the live locals alone: the sort of a local is unknown
/// where the local isn't live. All else stays. `Memory` says nothing of the method.
pub fn needed(alloc: Global, typed: Typed) -> Result<Typed, Memory>
    requires { IsInferred typed.program typed.frames }
    ensures needed { IfOk result (λ t. AreNeeded t.program t.frames) }
    ensures code { IfOk result (λ t. t.code ≡ typed.code) }
    ensures uses { IfOk result (λ t. t.uses ≡ typed.uses) }
    ensures program { IfOk result (λ t. t.program ≡ typed.program) }
{
    let rows = live_locals(alloc, &typed.program)?;
    let frames = kept_frames(alloc, &rows, typed.frames.as_slice())?;
    Ok(Typed {
        code: typed.code,
        uses: typed.uses,
        program: typed.program,
        frames: frames.into(),
    })
}
