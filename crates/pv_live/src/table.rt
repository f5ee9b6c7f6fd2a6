//! Which locals are live, by sweeps over a table of marks.

ghost use Rattle.std.specs.Prelude.{◌≡◌, ◌↔◌, ◌<◌, length, IfOk, IsTrue, replicate, false};
ghost use Rattle.pv_live.specs.Marks.{IsTable, Visited, Swept, KnowLive};

use crate::row::{live_after, live_before, no_marks};
use pv_frame::Program;
use pv_list::Listed;
use std::alloc::{AllocError, Global};

/// A table with no mark: a row for each place, of this many locals.
fn no_rows(alloc: Global, places: usize, locals: usize) -> Result<Vec<Listed<bool>>, AllocError>
    ensures { IfOk result (λ v. v.items ≡ replicate places (replicate locals false)) }
{
    let mut rows = Vec::with_capacity(alloc, places)?;
    for _ in 0..places {
        rows.push(Listed::from(no_marks(alloc, locals)?))?;
    }
    Ok(rows)
}

/// Whether two rows are equal.
fn same_marks(first: &[bool], second: &[bool]) -> bool
    ensures { IsTrue result ↔ (first.now ≡ second.now) }
{
    first == second
}

/// Marks what is live at a place by the marks after it, and says whether it marked anything new.
fn mark_at(
    alloc: Global,
    program: &Program,
    rows: &mut Vec<Listed<bool>>,
    place: usize,
) -> Result<bool, AllocError>
    requires table { IsTable program.now rows.old.items }
    requires place { place < length program.now.actions }
    ensures table { IfOk result (λ _. IsTable program.now rows.new.items) }
    ensures visited { IfOk result
        (λ marked. Visited program.now place rows.old.items rows.new.items marked) }
{
    let action = &program.actions.as_slice()[place];
    let locals = program.max_locals as usize;
    let after = live_after(alloc, rows, action, place, locals)?;
    let before = rows[place].as_slice();
    let row = live_before(action, before, after);
    if same_marks(&row, before) {
        return Ok(false);
    }
    rows[place] = Listed::from(row);
    Ok(true)
}

/// Goes over all places, from the last to the first, and says whether it marked anything new.
fn sweep(alloc: Global, program: &Program, rows: &mut Vec<Listed<bool>>) -> Result<bool, AllocError>
    requires { IsTable program.now rows.old.items }
    ensures table { IfOk result (λ _. IsTable program.now rows.new.items) }
    ensures swept { IfOk result
        (λ marked. Swept program.now rows.old.items rows.new.items marked) }
{
    let mut marked = false;
    let mut place = program.actions.as_slice().len();
    while place > 0 {
        place -= 1;
        if mark_at(alloc, program, rows, place)? {
            marked = true;
        }
    }
    Ok(marked)
}

/// The locals that are live at each place. It sweeps until nothing new is marked.
pub(crate) fn live_locals(alloc: Global, program: &Program) -> Result<Vec<Listed<bool>>, AllocError>
    ensures { IfOk result (λ rows. KnowLive program.now rows.items) }
{
    let places = program.actions.as_slice().len();
    let mut rows = no_rows(alloc, places, program.max_locals as usize)?;
    while sweep(alloc, program, &mut rows)? {}
    Ok(rows)
}
