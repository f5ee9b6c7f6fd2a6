//! Reading the code of a method.

ghost use Rattle.std.specs.Prelude.{◌≡◌, length};
ghost use Rattle.pv_class.specs.ClassGrammar.{code_front, code_contents, code};
ghost use Rattle.pv_format.specs.GrammarReading.{read};
ghost use Rattle.pv_format.specs.Stopping.{Gives};

use crate::fault::{Cause, Stop};
use crate::file::Code;
use crate::items::{run_at, u16_at, u32_at};
use crate::room::{IN_FILE, Room, failed};
use crate::table::{Entries, table_at};
use pv_list::Listed;
use pv_pool::Pool;
use std::alloc::Global;

/// The bytes of the longest code of a method (JVMS 4.7.3).
const LONGEST_CODE: u32 = 65535;

/// A Code up to its exception table (JVMS 4.7.3), in an attribute that begins where `start` bytes are
/// left.
#[tactic(auto, unfolding(crate::specs::ClassGrammar::code_front), using(pv_format::proofs::Cited::steps))]
fn code_front_at(room: Room, start: usize, bytes: &[u8]) -> Result<((u16, u16, &[u8]), &[u8]), Stop>
    ensures { Gives (λ x. ((x.0.0, x.0.1, x.0.2.now), x.1.now)) result (read (code_front room start) bytes.now) }
{
    let (max_stack, rest) = u16_at(room, bytes)?;
    let (max_locals, rest) = u16_at(room, rest)?;
    let (size, rest) = u32_at(room, rest)?;
    if size == 0 || size > LONGEST_CODE {
        return Err(failed(Cause::Code, start));
    }
    let (code, rest) = run_at(room, size as usize, rest)?;
    Ok(((max_stack, max_locals, code), rest))
}

/// The contents of a Code attribute that begins where `start` bytes are left, with contents of `size`
/// bytes (JVMS 4.7.3).
#[tactic(auto, unfolding(crate::specs::ClassGrammar::code_contents), using(pv_format::proofs::Cited::steps))]
fn code_contents_at<'a>(
    alloc: Global,
    pool: &Pool,
    room: Room,
    start: usize,
    size: u32,
    bytes: &'a [u8],
) -> Result<(Code, &'a [u8]), Stop>
    ensures { Gives (λ x. (x.0, x.1.now)) result (read (code_contents pool.now room start size (length bytes.now)) bytes.now) }
{
    let ((max_stack, max_locals, code), rest) = code_front_at(room, start, bytes)?;
    let (handlers, rest) = table_at(Entries::Handlers, pool, room, rest)?;
    let (_attributes, rest) = table_at(Entries::Attributes, pool, room, rest)?;
    if rest.len() + size as usize != bytes.len() {
        return Err(failed(Cause::Code, start));
    }
    let code = Code {
        max_stack,
        max_locals,
        bytes: Listed::from(Vec::from_slice(alloc, code)?),
        handlers: usize::from(handlers),
    };
    Ok((code, rest))
}

/// A Code after its name, in an attribute that begins where `start` bytes are left.
#[tactic(auto, unfolding(crate::specs::ClassGrammar::code), using(pv_format::proofs::Cited::steps))]
pub(crate) fn code_at<'a>(
    alloc: Global,
    pool: &Pool,
    start: usize,
    bytes: &'a [u8],
) -> Result<(Code, &'a [u8]), Stop>
    ensures { Gives (λ x. (x.0, x.1.now)) result (read (code pool.now start) bytes.now) }
{
    let (size, rest) = u32_at(IN_FILE, bytes)?;
    let room = Room::in_code(start, size as usize, rest.len());
    code_contents_at(alloc, pool, room, start, size, rest)
}
