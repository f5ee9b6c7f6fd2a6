//! Two files, read as classes.

ghost use Rattle.std.specs.Prelude.{◌≡◌, IfOk};
ghost use Rattle.pv_class.specs.Answers.{IsAnswer};
ghost use Rattle.pv_report.specs.Judging.{IsRead, IsReadPair, ReadsFetched, ReadsPair};

use crate::verdict::Side;
use pv_class::{ClassFault, ClassFile, LONGEST_FILE, read_class};
use pv_value::Memory;
use std::alloc::Global;

/// What a fetch gave: the bytes of a file, or that there are more of them than its limit.
#[derive(Drop)]
pub enum Fetched {
    Bytes(Vec<u8>),
    TooLong,
}

/// The classes of two files.
#[derive(Debug, Drop)]
pub struct Pair {
    pub first: ClassFile,
    pub second: ClassFile,
}

/// The first of two files that is no class file, and its fault.
#[derive(Clone, Copy, Debug, PartialEq, Eq)]
pub struct BadClass {
    pub side: Side,
    pub fault: ClassFault,
}

/// The classes of two files, or the first of the two that is none. The limit of the fetches is `LONGEST_FILE`. Out of
/// memory is the one error.
pub fn read_pair(
    alloc: Global,
    first: &Fetched,
    second: &Fetched,
) -> Result<Result<Pair, BadClass>, Memory>
    ensures reads { IfOk result (λ read. ReadsPair first.now second.now read) }
    ensures classes { IfOk result (λ read. IfOk read (λ pair. IsReadPair pair)) }
{
    let first = match class_of(alloc, first)? {
        Ok(class) => class,
        Err(fault) => return Ok(Err(bad_class(Side::First, fault))),
    };
    let second = match class_of(alloc, second)? {
        Ok(class) => class,
        Err(fault) => return Ok(Err(bad_class(Side::Second, fault))),
    };
    Ok(Ok(Pair { first, second }))
}

fn bad_class(side: Side, fault: ClassFault) -> BadClass
    ensures side { result.side ≡ side }
    ensures fault { result.fault ≡ fault }
{
    BadClass { side, fault }
}

// The class that a file holds, or its fault.
fn class_of(alloc: Global, fetched: &Fetched) -> Result<Result<ClassFile, ClassFault>, Memory>
    ensures reads { IfOk result (λ read. ReadsFetched fetched.now read) }
    ensures class { IfOk result (λ read. IfOk read (λ file. IsRead file)) }
{
    match fetched {
        Fetched::Bytes(bytes) => class_in(alloc, bytes),
        Fetched::TooLong => Ok(Err(ClassFault::TooLong(LONGEST_FILE))),
    }
}

/// The class that some bytes are, or their fault. Out of memory is the one error.
pub fn class_in(alloc: Global, bytes: &[u8]) -> Result<Result<ClassFile, ClassFault>, Memory>
    ensures { IfOk result (λ read. IsAnswer bytes.now read) }
{
    match read_class(alloc, bytes) {
        Ok(file) => Ok(Ok(file)),
        Err(fault) => match fault {
            ClassFault::Memory => Err(Memory),
            fault => Ok(Err(fault)),
        },
    }
}
