//! Reading a class file.

ghost use Rattle.std.specs.Prelude.{◌≡◌, [], IfOk};
ghost use Rattle.pv_format.specs.Grammars.{bind};
ghost use Rattle.pv_class.specs.Grammars.{table};
ghost use Rattle.pv_class.specs.ClassGrammar.{in_file, interface, field, all_methods, head, class_front, class_end, tail};
ghost use Rattle.pv_format.specs.GrammarReading.{read};
ghost use Rattle.pv_format.specs.Stopping.{Gives};
ghost use Rattle.pv_class.specs.Reading.{fault_in, of_pool};
ghost use Rattle.pv_class.specs.Answers.{Answers, Tells};

use crate::fault::{Cause, ClassFault, PoolWord, Stop};
use crate::file::ClassFile;
use crate::items::{class_index_at, super_index_at, u16_at, u32_at};
use crate::methods::Methods;
use crate::reading::{fields_at, methods_at};
use crate::room::{IN_FILE, failed};
use crate::table::{Entries, table_at};
use pv_pool::{Pool, PoolFault, read_pool};
use std::alloc::Global;

/// The bytes of the longest file that is read.
pub const LONGEST_FILE: usize = 4194304;

/// The number that begins each class file.
const MAGIC: u32 = 0xCAFE_BABE;

/// The major versions that are read.
const OLDEST: u16 = 45;

const NEWEST: u16 = 69;

/// Where the constant pool begins, after the magic number and the version.
const POOL: usize = 8;

/// The fault of a file of `len` bytes.
fn in_file(stop: Stop, len: usize) -> ClassFault
    ensures { result ≡ fault_in len stop }
{
    match stop {
        Stop::Failed(failure) => failure.cause.at(len.saturating_sub(failure.left)),
        Stop::Memory => ClassFault::Memory,
    }
}

/// A fault of the constant pool as one of the file.
fn of_pool(fault: PoolFault) -> ClassFault
    ensures { result ≡ of_pool fault }
{
    match fault {
        PoolFault::Truncated(at) => ClassFault::Truncated(at),
        PoolFault::Tag(at) => ClassFault::Pool(PoolWord::Tag, at),
        PoolFault::Utf8(at) => ClassFault::Pool(PoolWord::Utf8, at),
        PoolFault::Reference(at) => ClassFault::Pool(PoolWord::Reference, at),
        PoolFault::Memory => ClassFault::Memory,
    }
}

/// What stands before the constant pool (JVMS 4.1).
#[tactic(auto, unfolding(pv_format::specs::GrammarReading::read, pv_format::specs::Grammars::bind, crate::specs::ClassGrammar::head))]
fn head_at(bytes: &[u8]) -> Result<&[u8], Stop>
    ensures { Gives (λ x. (tt, x.now)) result (read head bytes.now) }
{
    let (magic, rest) = u32_at(IN_FILE, bytes)?;
    if magic != MAGIC {
        return Err(failed(Cause::Magic, bytes.len()));
    }
    let (_minor, after) = u16_at(IN_FILE, rest)?;
    let (major, after) = u16_at(IN_FILE, after)?;
    if major < OLDEST || major > NEWEST {
        return Err(failed(Cause::Version, rest.len()));
    }
    Ok(after)
}

/// The flags, the class and its superclass.
#[tactic(auto, unfolding(crate::specs::ClassGrammar::class_front), using(pv_format::proofs::Cited::steps))]
fn class_front_at<'a>(pool: &Pool, bytes: &'a [u8]) -> Result<&'a [u8], Stop>
    ensures { Gives (λ x. (tt, x.now)) result (read (class_front pool.now) bytes.now) }
{
    let (_flags, rest) = u16_at(IN_FILE, bytes)?;
    let (_this, rest) = class_index_at(pool, IN_FILE, rest)?;
    let (_super, rest) = super_index_at(pool, rest)?;
    Ok(rest)
}

/// The fields, with their number.
#[tactic(auto, using(pv_format::proofs::Cited::steps))]
fn all_fields_at<'a>(alloc: Global, pool: &Pool, bytes: &'a [u8]) -> Result<(u16, &'a [u8]), Stop>
    ensures { Gives (λ x. (x.0, x.1.now)) result (read (table in_file (field pool.now)) bytes.now) }
{
    let (count, rest) = u16_at(IN_FILE, bytes)?;
    let rest = fields_at(alloc, pool, count, rest)?;
    Ok((count, rest))
}

/// The methods.
#[tactic(auto, unfolding(crate::specs::ClassGrammar::all_methods), using(pv_format::proofs::Cited::steps))]
fn all_methods_at<'a>(
    alloc: Global,
    pool: &Pool,
    bytes: &'a [u8],
) -> Result<(Methods, &'a [u8]), Stop>
    ensures { Gives (λ x. (x.0, x.1.now)) result (read (all_methods pool.now) bytes.now) }
{
    let (count, rest) = u16_at(IN_FILE, bytes)?;
    methods_at(alloc, pool, count, rest)
}

/// The methods and the attributes, after which nothing stands.
#[tactic(auto, unfolding(crate::specs::ClassGrammar::class_end), using(pv_format::proofs::Cited::steps))]
fn class_end_at<'a>(
    alloc: Global,
    pool: &Pool,
    bytes: &'a [u8],
) -> Result<(Methods, &'a [u8]), Stop>
    ensures read { Gives (λ x. (x.0, x.1.now)) result (read (class_end pool.now) bytes.now) }
    ensures end { IfOk result (λ x. x.1.now ≡ []) }
{
    let (methods, rest) = all_methods_at(alloc, pool, bytes)?;
    let (_attributes, rest) = table_at(Entries::Attributes, pool, IN_FILE, rest)?;
    if !rest.is_empty() {
        return Err(failed(Cause::Trailing, rest.len()));
    }
    Ok((methods, rest))
}

/// What stands after the constant pool.
#[tactic(auto, unfolding(crate::specs::ClassGrammar::tail), using(pv_format::proofs::Cited::steps))]
fn tail_at<'a>(alloc: Global, pool: &Pool, bytes: &'a [u8]) -> Result<(Methods, &'a [u8]), Stop>
    ensures read { Gives (λ x. (x.0, x.1.now)) result (read (tail pool.now) bytes.now) }
    ensures end { IfOk result (λ x. x.1.now ≡ []) }
{
    let rest = class_front_at(pool, bytes)?;
    let (_interfaces, rest) = table_at(Entries::Interfaces, pool, IN_FILE, rest)?;
    let (_fields, rest) = all_fields_at(alloc, pool, rest)?;
    class_end_at(alloc, pool, rest)
}

/// Reads a class file (JVMS 4.1, 4.5 to 4.7.3) of major version 45 to 69 and at most `LONGEST_FILE` bytes,
/// front to back. Any minor version is accepted, attributes other than a method's Code are skipped.
///
/// The fault is that of the first item that fails, with its place; references within the constant
/// pool are tested once the whole pool is read.
pub fn read_class(alloc: Global, bytes: &[u8]) -> Result<ClassFile, ClassFault>
    ensures exact { Answers bytes.now result }
    ensures only { Tells bytes.now result }
{
    if bytes.len() > LONGEST_FILE {
        return Err(ClassFault::TooLong(LONGEST_FILE));
    }
    if let Err(stop) = head_at(bytes) {
        return Err(in_file(stop, bytes.len()));
    }
    let (pool, after) = match read_pool(alloc, bytes, POOL) {
        Ok(read) => read,
        Err(fault) => return Err(of_pool(fault)),
    };
    let (_, rest) = bytes.split_at(after);
    match tail_at(alloc, &pool, rest) {
        Ok((methods, _)) => Ok(ClassFile { pool, methods }),
        Err(stop) => Err(in_file(stop, bytes.len())),
    }
}
