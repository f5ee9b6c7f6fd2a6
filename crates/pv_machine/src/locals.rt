//! The locals of a method (JVMS 2.6.1).

ghost use Rattle.std.specs.Prelude.{◌≡◌, ◌<◌, true, length, slice_set, Some, None};
ghost use Rattle.pv_frame.specs.Stacks.{is_wide, has_room};
ghost use Rattle.pv_frame.specs.Stacking.{lost_before, stored};
ghost use Rattle.pv_frame.specs.Effects.{sort_of, sort_of_local};
ghost use Rattle.pv_machine.specs.Machine.{held, increased};
ghost use Rattle.pv_machine.specs.Storing.{IsStored};

use pv_frame::{Sort, fits, has_room, sort_of};
use pv_value::{Num, ScalarOp, scalar};

/// The number in a local, where it has this sort.
pub(crate) fn held(locals: &[Option<Num>], place: u16, asked: Sort) -> Option<Num>
    ensures { result ≡ held locals.now place asked }
{
    match locals.get(usize::from(place)) {
        Some(Some(n)) if fits(sort_of(*n), asked) => Some(*n),
        _ => None,
    }
}

/// An int with a constant added, which wraps; None of another number.
pub(crate) fn increased(by: i16, n: Num) -> Option<Num>
    ensures { result ≡ increased by n }
{
    match n {
        Num::Int(n) => {
            let sum = scalar(ScalarOp::Iadd, i64::from(n), i64::from(by));
            Some(Num::Int(sum as i32))
        }
        _ => None,
    }
}

// Whether a local holds a long.
fn is_wide(local: Option<Num>) -> bool
    ensures { result ≡ is_wide (sort_of_local local) }
{
    matches!(local, Some(Num::Long(_)))
}

// Forgets a long in the local before this one, whose second half this one is.
fn lose_long(locals: &mut Vec<Option<Num>>, place: usize)
    requires { place < length locals.old.items }
    ensures { locals.new.items ≡ lost_before sort_of_local None place locals.old.items }
{
    if place > 0 && is_wide(locals[place - 1]) {
        locals[place - 1] = None;
    }
}

// Puts a number into a local, and clears the next one where it takes that too.
fn put(locals: &mut Vec<Option<Num>>, place: u16, n: Num)
    requires { has_room (sort_of n) place locals.old.items ≡ true }
    ensures { locals.new.items ≡ stored sort_of_local None place (Some n) locals.old.items }
{
    let place = usize::from(place);
    locals[place] = Some(n);
    if is_wide(Some(n)) {
        locals[place + 1] = None;
    }
}

/// Stores a number into a local: a long takes the next local too, and a long of which the local was
/// the second half is lost. False, and the locals are as they were, where there are too few.
pub(crate) fn store(locals: &mut Vec<Option<Num>>, place: u16, n: Num) -> bool
    ensures { IsStored locals.old.items place n result locals.new.items }
{
    if !has_room(sort_of(n), place, locals) {
        return false;
    }
    lose_long(locals, usize::from(place));
    put(locals, place, n);
    true
}

/// Puts a number in the place of another, where there is such a local.
pub(crate) fn replace(locals: &mut Vec<Option<Num>>, place: u16, n: Num)
    ensures { locals.new.items ≡ slice_set locals.old.items place (Some n) }
{
    let place = usize::from(place);
    if place < locals.len() {
        locals[place] = Some(n);
    }
}
