//! Three files, read as classes.

ghost use Rattle.std.specs.Prelude.{IfOk};
ghost use Rattle.pv_links.specs.Made.{BadFetched, FaultFetched};

use crate::stage::Stage;
use pv_class::{ClassFault, ClassFile, LONGEST_FILE};
use pv_report::{Fetched, class_in};
use pv_value::Memory;
use std::alloc::Global;

/// The three classes of a chain.
#[derive(Drop)]
pub(crate) struct Classes {
    pub(crate) first: ClassFile,
    pub(crate) middle: ClassFile,
    pub(crate) last: ClassFile,
}

/// The first of three files that is no class file, and its fault.
#[derive(Clone, Copy, Debug, PartialEq, Eq)]
pub(crate) struct BadStage {
    pub(crate) stage: Stage,
    pub(crate) fault: ClassFault,
}

// The fault of a file, if it is no class file.
fn fault_of(alloc: Global, fetched: &Fetched) -> Result<Option<ClassFault>, Memory>
    ensures { IfOk result (λ fault. FaultFetched fetched.now fault) }
{
    match fetched {
        Fetched::Bytes(bytes) => Ok(class_in(alloc, bytes)?.err()),
        Fetched::TooLong => Ok(Some(ClassFault::TooLong(LONGEST_FILE))),
    }
}

/// The first of three files that is no class file, if there is one.
pub(crate) fn first_bad(
    alloc: Global,
    first: &Fetched,
    second: &Fetched,
    third: &Fetched,
) -> Result<Option<BadStage>, Memory>
    ensures { IfOk result (λ bad. BadFetched first.now second.now third.now bad) }
{
    if let Some(fault) = fault_of(alloc, first)? {
        let stage = Stage::First;
        return Ok(Some(BadStage { stage, fault }));
    }
    if let Some(fault) = fault_of(alloc, second)? {
        let stage = Stage::Middle;
        return Ok(Some(BadStage { stage, fault }));
    }
    if let Some(fault) = fault_of(alloc, third)? {
        let stage = Stage::Last;
        return Ok(Some(BadStage { stage, fault }));
    }
    Ok(None)
}
