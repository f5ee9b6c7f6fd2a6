//! The locals of a method (JVMS 2.6.1).

ghost use Rattle.std.specs.Prelude.{◌≡◌, ◌<◌, true, length, IfOk};
ghost use Rattle.pv_frame.specs.Stacks.{is_wide, has_room, set_local};
ghost use Rattle.pv_block.specs.Cells.{sort_in, lost_before, stored, local_of};

use crate::held::Cell;
use crate::stack::{fits, is_wide};
use pv_frame::Sort;
use pv_value::Memory;
use std::alloc::Global;

/// A local, where it has this sort.
pub(crate) fn local(locals: &[Cell], place: u16, asked: Sort) -> Option<Cell>
    ensures { result ≡ local_of asked place locals.now }
{
    match locals.get(place as usize) {
        Some(cell) if fits(cell.sort, asked) => Some(*cell),
        _ => None,
    }
}

/// Whether there are locals for a value of a sort from this one on.
pub(crate) fn has_room(sort: Sort, place: u16, locals: &[Cell]) -> bool
    ensures { result ≡ has_room sort place locals.now }
{
    let place = place as usize;
    let last = if is_wide(sort) { place + 1 } else { place };
    last < locals.len()
}

// Forgets a long in the local before this one, whose second half this one is.
fn lose_long(locals: &mut Vec<Cell>, place: usize, unset: Cell)
    requires { place < length locals.old.items }
    ensures { locals.new.items ≡ lost_before unset place locals.old.items }
{
    if place > 0 && is_wide(locals[place - 1].sort) {
        locals[place - 1] = unset;
    }
}

/// The locals after a value is stored into one (JVMS 2.6.1): a long takes the next local too, and a
/// long that the local was the second half of is lost; `unset` stands where no value is.
pub(crate) fn set_local(
    alloc: Global,
    unset: Cell,
    place: u16,
    cell: Cell,
    locals: &[Cell],
) -> Result<Vec<Cell>, Memory>
    requires { has_room cell.sort place locals.now ≡ true }
    ensures { IfOk result (λ v. v.items ≡ set_local sort_in unset place cell locals.now) }
{
    let mut after = Vec::from_slice(alloc, locals)?;
    let place = place as usize;
    lose_long(&mut after, place, unset);
    after[place] = cell;
    if is_wide(cell.sort) {
        after[place + 1] = unset;
    }
    Ok(after)
}
