//! Rows of marks, one for each local at a place.

ghost use Rattle.std.specs.Prelude.{◌≡◌, ◌<◌, [], ◌∷◌, length, IfOk, map, replicate, false};
ghost use Rattle.std.specs.Bool.{Decides};
ghost use Rattle.pv_frame.specs.Effects.{successors};
ghost use Rattle.pv_live.specs.Live.{Reads, Writes};
ghost use Rattle.pv_live.specs.Marks.{IsMarked, Marks, MarkedAtOne, IsLiveIf, IsLiveBefore};

use pv_frame::Action;
use pv_insn::Case;
use pv_list::Listed;
use std::alloc::{AllocError, Global};

/// Whether an action reads a local.
fn reads(action: &Action, local: usize) -> bool
    ensures { Decides result (Reads action.now local) }
{
    match action {
        Action::Load(_, place) => local == *place as usize,
        Action::Increase(place, _) => local == *place as usize,
        _ => false,
    }
}

/// Whether an action writes a local.
fn writes(action: &Action, local: usize) -> bool
    ensures { Decides result (Writes action.now local) }
{
    match action {
        Action::Store(_, place) => local == *place as usize,
        _ => false,
    }
}

/// Whether a local is live before an action, by whether it is after it.
fn is_live_before(action: &Action, local: usize, after: bool) -> bool
    ensures { Decides result (IsLiveIf action.now local after) }
{
    reads(action, local) || (after && !writes(action, local))
}

/// Marks the locals that another row marks.
fn join(row: &mut [bool], other: &[bool])
    ensures { Marks (IsMarked other.now) row.old row.new }
{
    for local in 0..row.len() {
        if local < other.len() && other[local] {
            row[local] = true;
        }
    }
}

/// Marks the locals that are marked at a place, where there is one.
fn join_at(row: &mut [bool], rows: &[Listed<bool>], place: usize)
    ensures { Marks (MarkedAtOne rows.now (place ∷ [])) row.old row.new }
{
    if let Some(other) = rows.get(place) {
        join(row, other.as_slice());
    }
}

/// Marks the locals that are marked at the target of some case.
fn join_cases(row: &mut [bool], rows: &[Listed<bool>], cases: &[Case])
    ensures { Marks (MarkedAtOne rows.now (map (λ c. c.target) cases.now)) row.old row.new }
{
    for case in cases {
        join_at(row, rows, case.target as usize);
    }
}

/// Marks the locals that are marked at a place to which the action at this place may lead.
fn join_next(row: &mut [bool], rows: &[Listed<bool>], action: &Action, place: usize)
    requires { place < length rows.now }
    ensures { Marks (MarkedAtOne rows.now (successors place action.now)) row.old row.new }
{
    match action {
        Action::Branch(_, target) => {
            join_at(row, rows, *target as usize);
            join_at(row, rows, place + 1);
        }
        Action::Jump(target) => join_at(row, rows, *target as usize),
        Action::Switch(default, cases) => {
            join_at(row, rows, *default as usize);
            join_cases(row, rows, cases.as_slice());
        }
        Action::Give(_) | Action::Throw => {}
        _ => join_at(row, rows, place + 1),
    }
}

/// A row with no mark.
pub(crate) fn no_marks(alloc: Global, locals: usize) -> Result<Vec<bool>, AllocError>
    ensures { IfOk result (λ v. v.items ≡ replicate locals false) }
{
    let mut row = Vec::new(alloc);
    row.resize(locals, false)?;
    Ok(row)
}

/// The locals that are marked after the action at a place: at a place to which it may lead.
pub(crate) fn live_after(
    alloc: Global,
    rows: &[Listed<bool>],
    action: &Action,
    place: usize,
    locals: usize,
) -> Result<Vec<bool>, AllocError>
    requires { place < length rows.now }
    ensures { IfOk result
        (λ row. Marks (MarkedAtOne rows.now (successors place action.now)) (replicate locals false) row.items) }
{
    let mut row = no_marks(alloc, locals)?;
    join_next(&mut row, rows, action, place);
    Ok(row)
}

/// The locals that are marked before an action, and those that are live there by what is marked after it, in the place of the latter.
pub(crate) fn live_before(action: &Action, before: &[bool], after: Vec<bool>) -> Vec<bool>
    requires { length after.items ≡ length before.now }
    ensures { Marks (IsLiveBefore action.now after.items) before.now result.items }
{
    let mut row = after;
    for local in 0..before.len() {
        row[local] = before[local] || is_live_before(action, local, row[local]);
    }
    row
}
