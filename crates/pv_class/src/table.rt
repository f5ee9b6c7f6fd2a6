//! Reading tables whose entries are only tested.

ghost use Rattle.std.specs.Prelude.{◌≡◌};
ghost use Rattle.pv_format.specs.Grammars.{times};
ghost use Rattle.pv_class.specs.Grammars.{table};
ghost use Rattle.pv_class.specs.ClassGrammar.{skipped, handler, interface};
ghost use Rattle.pv_format.specs.GrammarReading.{read};
ghost use Rattle.pv_format.specs.Stopping.{Gives};
ghost use Rattle.pv_class.specs.Reading.{entry_of};

use crate::fault::Stop;
use crate::items::{class_index_at, contents_at, text_index_at, u16_at};
use crate::room::Room;
use pv_pool::Pool;

/// What the entries of a table are.
#[derive(Clone, Copy)]
pub(crate) enum Entries {
    /// Attributes that are skipped (JVMS 4.7).
    Attributes,
    /// The entries of an exception table (JVMS 4.7.3).
    Handlers,
    /// The interfaces of a class (JVMS 4.1).
    Interfaces,
}

#[tactic(auto, unfolding(crate::specs::ClassGrammar::skipped), using(pv_format::proofs::Cited::steps))]
fn attribute_at<'a>(pool: &Pool, room: Room, bytes: &'a [u8]) -> Result<&'a [u8], Stop>
    ensures { Gives (λ x. (tt, x.now)) result (read (skipped room pool.now) bytes.now) }
{
    let (_name, rest) = text_index_at(pool, room, bytes)?;
    contents_at(room, rest)
}

#[tactic(auto, unfolding(crate::specs::ClassGrammar::handler), using(pv_format::proofs::Cited::steps))]
fn handler_at(room: Room, bytes: &[u8]) -> Result<&[u8], Stop>
    ensures { Gives (λ x. (tt, x.now)) result (read (handler room) bytes.now) }
{
    let (_start, rest) = u16_at(room, bytes)?;
    let (_end, rest) = u16_at(room, rest)?;
    let (_target, rest) = u16_at(room, rest)?;
    let (_catch, rest) = u16_at(room, rest)?;
    Ok(rest)
}

#[tactic(auto, unfolding(crate::specs::ClassGrammar::interface), using(pv_format::proofs::Cited::steps))]
fn interface_at<'a>(pool: &Pool, room: Room, bytes: &'a [u8]) -> Result<&'a [u8], Stop>
    ensures { Gives (λ x. (tt, x.now)) result (read (interface room pool.now) bytes.now) }
{
    let (_class, rest) = class_index_at(pool, room, bytes)?;
    Ok(rest)
}

/// An entry of a table.
fn entry_at<'a>(
    entries: Entries,
    pool: &Pool,
    room: Room,
    bytes: &'a [u8],
) -> Result<&'a [u8], Stop>
    ensures { Gives (λ x. (tt, x.now)) result (read (entry_of entries pool.now room) bytes.now) }
{
    match entries {
        Entries::Attributes => attribute_at(pool, room, bytes),
        Entries::Handlers => handler_at(room, bytes),
        Entries::Interfaces => interface_at(pool, room, bytes),
    }
}

/// `count` entries.
#[tactic(auto, unfolding(pv_format::specs::Grammars::times), using(pv_format::proofs::Cited::steps))]
fn times_at<'a>(
    entries: Entries,
    pool: &Pool,
    room: Room,
    count: u16,
    bytes: &'a [u8],
) -> Result<&'a [u8], Stop>
    ensures { Gives (λ x. (tt, x.now)) result (read (times count (entry_of entries pool.now room)) bytes.now) }
{
    let mut rest = bytes;
    for _ in 0..count {
        rest = entry_at(entries, pool, room, rest)?;
    }
    Ok(rest)
}

/// A table, with the number of its entries.
#[tactic(auto, using(pv_format::proofs::Cited::steps))]
pub(crate) fn table_at<'a>(
    entries: Entries,
    pool: &Pool,
    room: Room,
    bytes: &'a [u8],
) -> Result<(u16, &'a [u8]), Stop>
    ensures { Gives (λ x. (x.0, x.1.now)) result (read (table room (entry_of entries pool.now room)) bytes.now) }
{
    let (count, rest) = u16_at(room, bytes)?;
    let rest = times_at(entries, pool, room, count, rest)?;
    Ok((count, rest))
}
