//! Reading single items of a class file.
//!
//! Each function reads what stands at the front of the bytes, which run to the end of the file, and
//! gives the bytes after it too.

ghost use Rattle.pv_class.specs.Checks.{utf8, class, class_or_none};
ghost use Rattle.pv_class.specs.Grammars.{u2, u4, run};
ghost use Rattle.pv_class.specs.ClassGrammar.{index, contents, in_file};
ghost use Rattle.pv_class.specs.Deciding.{is_class};
ghost use Rattle.pv_format.specs.GrammarReading.{read};
ghost use Rattle.pv_format.specs.Stopping.{Gives};
ghost use Rattle.std.specs.Prelude.{◌≡◌};
ghost use Rattle.pv_pool.specs.Pools.{entry_under};

use crate::fault::{Cause, Stop};
use crate::room::{IN_FILE, Room, failed};
use pv_pool::{Entry, Pool};

/// A number of two bytes, the high one first.
#[tactic(auto, unfolding(pv_format::specs::GrammarReading::read))]
pub(crate) fn u16_at(room: Room, bytes: &[u8]) -> Result<(u16, &[u8]), Stop>
    ensures { Gives (λ x. (x.0, x.1.now)) result (read (u2 room) bytes.now) }
{
    match pv_format::u16_at(bytes) {
        Some((number, rest)) if room.after <= rest.len() => Ok((number, rest)),
        _ => Err(room.short(bytes.len())),
    }
}

/// A number of four bytes, the highest first.
#[tactic(auto, unfolding(pv_format::specs::GrammarReading::read))]
pub(crate) fn u32_at(room: Room, bytes: &[u8]) -> Result<(u32, &[u8]), Stop>
    ensures { Gives (λ x. (x.0, x.1.now)) result (read (u4 room) bytes.now) }
{
    match pv_format::u32_at(bytes) {
        Some((number, rest)) if room.after <= rest.len() => Ok((number, rest)),
        _ => Err(room.short(bytes.len())),
    }
}

/// A run of `size` bytes.
#[tactic(auto, unfolding(pv_format::specs::GrammarReading::read))]
pub(crate) fn run_at(room: Room, size: usize, bytes: &[u8]) -> Result<(&[u8], &[u8]), Stop>
    ensures { Gives (λ x. (x.0.now, x.1.now)) result (read (run room size) bytes.now) }
{
    match pv_format::run_at(size, bytes) {
        Some((run, rest)) if room.after <= rest.len() => Ok((run, rest)),
        _ => Err(room.short(bytes.len())),
    }
}

/// Whether a Class stands under an index.
fn has_class(pool: &Pool, i: u16) -> bool
    ensures { result ≡ is_class (entry_under pool.now i) }
{
    matches!(pool.entry(i), Some(Entry::Class(_)))
}

/// The index of a Utf8.
#[tactic(auto, unfolding(crate::specs::ClassGrammar::index), using(pv_format::proofs::Cited::steps))]
pub(crate) fn text_index_at<'a>(
    pool: &Pool,
    room: Room,
    bytes: &'a [u8],
) -> Result<(u16, &'a [u8]), Stop>
    ensures { Gives (λ x. (x.0, x.1.now)) result (read (index room (utf8 pool.now)) bytes.now) }
{
    let (i, rest) = u16_at(room, bytes)?;
    if pool.text(i).is_none() {
        return Err(failed(Cause::Reference, bytes.len()));
    }
    Ok((i, rest))
}

/// The index of a Class.
#[tactic(auto, unfolding(crate::specs::ClassGrammar::index), using(pv_format::proofs::Cited::steps))]
pub(crate) fn class_index_at<'a>(
    pool: &Pool,
    room: Room,
    bytes: &'a [u8],
) -> Result<(u16, &'a [u8]), Stop>
    ensures { Gives (λ x. (x.0, x.1.now)) result (read (index room (class pool.now)) bytes.now) }
{
    let (i, rest) = u16_at(room, bytes)?;
    if !has_class(pool, i) {
        return Err(failed(Cause::Reference, bytes.len()));
    }
    Ok((i, rest))
}

/// The index of a Class, or 0.
#[tactic(auto, unfolding(crate::specs::ClassGrammar::index), using(pv_format::proofs::Cited::steps))]
pub(crate) fn super_index_at<'a>(pool: &Pool, bytes: &'a [u8]) -> Result<(u16, &'a [u8]), Stop>
    ensures { Gives (λ x. (x.0, x.1.now)) result (read (index in_file (class_or_none pool.now)) bytes.now) }
{
    let (i, rest) = u16_at(IN_FILE, bytes)?;
    if i != 0 && !has_class(pool, i) {
        return Err(failed(Cause::Reference, bytes.len()));
    }
    Ok((i, rest))
}

/// The contents of an attribute that is skipped, after its name (JVMS 4.7).
#[tactic(auto, unfolding(crate::specs::ClassGrammar::contents), using(pv_format::proofs::Cited::steps))]
pub(crate) fn contents_at(room: Room, bytes: &[u8]) -> Result<&[u8], Stop>
    ensures { Gives (λ x. (tt, x.now)) result (read (contents room) bytes.now) }
{
    let (size, rest) = u32_at(room, bytes)?;
    let (_contents, rest) = run_at(room, size as usize, rest)?;
    Ok(rest)
}
