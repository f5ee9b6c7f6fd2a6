//! The parts of a chain's text.

ghost use Rattle.std.specs.Prelude.{◌≡◌, ◌↔◌, IfOk, IsTrue};
ghost use Rattle.std.specs.Option.{option_map};
ghost use Rattle.pv_chain.specs.Reading.{AreParts, IsAClass, IsClassOr, parts_of, seen, texts_of};

use crate::head::take_head;
use crate::lines::cut_lines;
use pv_class::{ClassFault, ClassFile, read_class};
use pv_value::Memory;
use std::alloc::Global;

/// What a chain's text has: the bytes of the middle class, and the texts of the two certificates.
#[derive(Drop)]
pub(crate) struct Parts<'t> {
    pub(crate) middle: Vec<u8>,
    pub(crate) first: &'t [u8],
    pub(crate) second: &'t [u8],
}

// The parts of a text by its first lines, whatever the middle is.
fn cut_parts(alloc: Global, text: &[u8]) -> Result<Option<Parts>, Memory>
    ensures { IfOk result (λ r. option_map seen r ≡ option_map texts_of (parts_of text.now)) }
{
    let Some(((middle, count), rest)) = take_head(alloc, text)? else {
        return Ok(None);
    };
    let Some((first, second)) = cut_lines(rest, count) else {
        return Ok(None);
    };
    Ok(Some(Parts {
        middle,
        first,
        second,
    }))
}

// The class that bytes are, if they are one.
fn class_in(alloc: Global, bytes: &[u8]) -> Result<Option<ClassFile>, Memory>
    ensures { IfOk result (λ read. IsClassOr bytes.now read) }
{
    match read_class(alloc, bytes) {
        Ok(file) => Ok(Some(file)),
        Err(fault) => match fault {
            ClassFault::Memory => Err(Memory),
            _ => Ok(None),
        },
    }
}

// Whether bytes are a class.
fn is_class(alloc: Global, bytes: &[u8]) -> Result<bool, Memory>
    ensures { IfOk result (λ yes. IsTrue yes ↔ IsAClass bytes.now) }
{
    let read = class_in(alloc, bytes)?;
    Ok(read.is_some())
}

/// The parts of a text, if the middle is a class.
pub(crate) fn parts_in(alloc: Global, text: &[u8]) -> Result<Option<Parts>, Memory>
    ensures { IfOk result (λ r. AreParts text.now r) }
{
    let Some(parts) = cut_parts(alloc, text)? else {
        return Ok(None);
    };
    if is_class(alloc, &parts.middle)? {
        Ok(Some(parts))
    } else {
        Ok(None)
    }
}
