//! The bytes of instructions.

ghost use Rattle.std.specs.Prelude.{◌≡◌, ◌∷◌, ◌++◌, [], ◌+ℤ◌, ◌-ℤ◌, pos, IfSome, IfOk, OnOk};
ghost use Rattle.std.specs.List.{flat_map};
ghost use Rattle.std.specs.Int.{w32};
ghost use Rattle.pv_format.specs.Reading.{read_each};
ghost use Rattle.pv_insn.specs.Pieces.{signed};
ghost use Rattle.pv_asm.specs.Labels.{padding};
ghost use Rattle.pv_asm.specs.Codes.{offset, branch_bytes, index_bytes, number_bytes, switch_bytes, case_of, table_bytes, lookup_bytes, operand_bytes, insn_bytes};
ghost use Rattle.pv_asm.specs.Stopping.{Yields};

use crate::labels::{Labels, padding};
use crate::opcode::{BIPUSH, GOTO_W, LDC};
use crate::stop::Stop;
use pv_listing::Operands;
use pv_value::Name;
use std::alloc::{AllocError, Global};

/// An instruction at an address, as far as its operands need it: its opcode, the index of its entry, and the labels
/// of its method.
#[derive(Clone, Copy)]
pub(crate) struct Site<'l> {
    pub labels: &'l Labels,
    pub at: usize,
    pub index: u16,
    pub op: u8,
}

// The offset to a label.
fn offset<'l>(site: &Site<'l>, label: &Name) -> Result<i32, Stop>
    ensures { Yields (λ z. z) result (offset site.now.labels.now site.now.at label.now) }
{
    let Some(address) = site.labels.address_of(label) else {
        return Err(Stop::NoReading);
    };
    let (Ok(address), Ok(at)) = (i64::try_from(address), i64::try_from(site.at)) else {
        return Err(Stop::Memory);
    };
    match i32::try_from(address - at) {
        Ok(offset) => Ok(offset),
        Err(_) => Err(Stop::Memory),
    }
}

// The bytes of an offset.
fn branch_bytes(alloc: Global, op: u8, offset: i32) -> Result<Vec<u8>, Stop>
    ensures { Yields (λ v. v.items) result (branch_bytes op offset) }
{
    if op == GOTO_W {
        return Ok(Vec::from_slice(alloc, &offset.to_be_bytes())?);
    }
    match i16::try_from(offset) {
        Ok(offset) => Ok(Vec::from_slice(alloc, &offset.to_be_bytes())?),
        Err(_) => Err(Stop::NoReading),
    }
}

// The bytes of an index.
fn index_bytes(alloc: Global, op: u8, index: u16) -> Result<Vec<u8>, Stop>
    ensures { Yields (λ v. v.items) result (index_bytes op index) }
{
    if op != LDC {
        return Ok(Vec::from_slice(alloc, &index.to_be_bytes())?);
    }
    match u8::try_from(index) {
        Ok(index) => Ok(Vec::from_slice(alloc, &[index])?),
        Err(_) => Err(Stop::NoReading),
    }
}

// The bytes of a number that is pushed.
fn number_bytes(alloc: Global, op: u8, number: i16) -> Result<Vec<u8>, Stop>
    ensures { Yields (λ v. v.items) result (number_bytes op number) }
{
    if op != BIPUSH {
        return Ok(Vec::from_slice(alloc, &number.to_be_bytes())?);
    }
    match i8::try_from(number) {
        Ok(number) => Ok(Vec::from_slice(alloc, &[number.cast_unsigned()])?),
        Err(_) => Err(Stop::NoReading),
    }
}

// Numbers of four bytes.
fn push_numbers(out: &mut Vec<u8>, numbers: &[i32]) -> Result<(), AllocError>
    ensures { OnOk result (out.new.items ≡ out.old.items ++ flat_map (signed w32) numbers.now) }
{
    for number in numbers {
        out.extend_from_slice(&number.to_be_bytes())?;
    }
    Ok(())
}

// The padding of a switch and its numbers, the first three or two of which are apart.
fn switch_bytes(
    alloc: Global,
    at: usize,
    front: &[i32],
    back: &[i32],
) -> Result<Vec<u8>, AllocError>
    ensures { IfOk result (λ v. v.items ≡ switch_bytes at (front.now ++ back.now)) }
{
    let mut out = vec![in alloc; 0; padding(at)]?;
    push_numbers(&mut out, front)?;
    push_numbers(&mut out, back)?;
    Ok(out)
}

// The offsets to labels.
fn offsets<'l>(alloc: Global, site: &Site<'l>, targets: &[Name]) -> Result<Vec<i32>, Stop>
    ensures { Yields (λ v. v.items) result (read_each (offset site.now.labels.now site.now.at) targets.now) }
{
    let mut list = Vec::new(alloc);
    for target in targets {
        list.push(offset(site, target)?)?;
    }
    Ok(list)
}

// Keys, each with the offset to its label.
fn cases<'l>(alloc: Global, site: &Site<'l>, pairs: &[(i32, Name)]) -> Result<Vec<(i32, i32)>, Stop>
    ensures { Yields (λ v. v.items) result (read_each (case_of site.now.labels.now site.now.at) pairs.now) }
{
    let mut list = Vec::new(alloc);
    for pair in pairs {
        list.push((pair.0, offset(site, &pair.1)?))?;
    }
    Ok(list)
}

// Keys, each with its offset, as numbers one after the other.
fn case_numbers(alloc: Global, cases: &[(i32, i32)]) -> Result<Vec<i32>, AllocError>
    ensures { IfOk result (λ v. v.items ≡ flat_map (λ c. c.0 ∷ c.1 ∷ []) cases.now) }
{
    let mut list = Vec::new(alloc);
    for case in cases {
        list.push(case.0)?;
        list.push(case.1)?;
    }
    Ok(list)
}

// The highest of n numbers from the lowest on; None where that is no int.
fn highest(low: i32, n: usize) -> Option<i32>
    ensures { IfSome result (λ high. high ≡ (low +ℤ pos n) -ℤ pos 1) }
{
    let Ok(n) = i32::try_from(n) else {
        return None;
    };
    match i32::try_from(i64::from(low) + i64::from(n) - 1) {
        Ok(high) => Some(high),
        Err(_) => None,
    }
}

// The bytes of a tableswitch after its opcode.
fn table_bytes<'l>(
    alloc: Global,
    site: &Site<'l>,
    low: i32,
    default: &Name,
    targets: &[Name],
) -> Result<Vec<u8>, Stop>
    ensures { Yields (λ v. v.items) result (table_bytes site.now.labels.now site.now.at low default.now targets.now) }
{
    let default = offset(site, default)?;
    let offsets = offsets(alloc, site, targets)?;
    let Some(high) = highest(low, offsets.len()) else {
        return Err(Stop::Memory);
    };
    Ok(switch_bytes(alloc, site.at, &[default, low, high], &offsets)?)
}

// The bytes of a lookupswitch after its opcode.
fn lookup_bytes<'l>(
    alloc: Global,
    site: &Site<'l>,
    default: &Name,
    pairs: &[(i32, Name)],
) -> Result<Vec<u8>, Stop>
    ensures { Yields (λ v. v.items) result (lookup_bytes site.now.labels.now site.now.at default.now pairs.now) }
{
    let default = offset(site, default)?;
    let cases = cases(alloc, site, pairs)?;
    let Ok(count) = i32::try_from(cases.len()) else {
        return Err(Stop::Memory);
    };
    let numbers = case_numbers(alloc, &cases)?;
    Ok(switch_bytes(alloc, site.at, &[default, count], &numbers)?)
}

// The bytes of an instruction after its opcode.
fn operand_bytes<'l>(alloc: Global, site: &Site<'l>, operands: &Operands) -> Result<Vec<u8>, Stop>
    ensures { Yields (λ v. v.items) result (operand_bytes site.now.labels.now site.now.at site.now.index site.now.op operands.now) }
{
    match operands {
        Operands::Nothing => Ok(Vec::new(alloc)),
        Operands::Number(number) => number_bytes(alloc, site.op, *number),
        Operands::Local(local) => Ok(Vec::from_slice(alloc, &[*local])?),
        Operands::Increment(local, number) => {
            Ok(Vec::from_slice(alloc, &[*local, number.cast_unsigned()])?)
        }
        Operands::Int(_) | Operands::Long(_) | Operands::Member(_) => {
            index_bytes(alloc, site.op, site.index)
        }
        Operands::Label(label) => branch_bytes(alloc, site.op, offset(site, label)?),
        Operands::Table(low, default, labels) => {
            table_bytes(alloc, site, *low, default, labels.as_slice())
        }
        Operands::Lookup(default, pairs) => lookup_bytes(alloc, site, default, pairs.as_slice()),
    }
}

/// The bytes of an instruction.
pub(crate) fn insn_bytes<'l>(
    alloc: Global,
    site: &Site<'l>,
    operands: &Operands,
) -> Result<Vec<u8>, Stop>
    ensures { Yields (λ v. v.items) result (insn_bytes site.now.labels.now site.now.at site.now.index site.now.op operands.now) }
{
    let operands = operand_bytes(alloc, site, operands)?;
    let mut bytes = Vec::new(alloc);
    bytes.push(site.op)?;
    bytes.extend_from_slice(&operands)?;
    Ok(bytes)
}
