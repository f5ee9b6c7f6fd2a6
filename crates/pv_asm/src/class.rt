//! The bytes of a class.

ghost use Rattle.std.specs.Prelude.{◌≡◌, ◌++◌, length, map, IfOk, OnOk};
ghost use Rattle.std.specs.List.{flat_map};
ghost use Rattle.pv_class.specs.Items.{u2, u4, table, code_text, member_text, file_text};
ghost use Rattle.pv_asm.specs.Classes.{code_of, member_of, items_of};

use crate::draft::{Draft, Method};
use pv_value::Memory;
use std::alloc::{AllocError, Global};

/// The first four bytes of a class file.
const MAGIC: u32 = 0xCAFEBABE;

/// The version.
const MAJOR: u16 = 52;

/// Flags (JVMS 4.1, 4.6).
const ACC_PUBLIC: u16 = 0x0001;

const ACC_PUBLIC_STATIC: u16 = 0x0009;

const ACC_PUBLIC_SUPER: u16 = 0x0021;

// A number of two bytes.
fn push_u2(out: &mut Vec<u8>, n: u16) -> Result<(), AllocError>
    ensures { OnOk result (out.new.items ≡ out.old.items ++ u2 n) }
{
    out.extend_from_slice(&n.to_be_bytes())
}

// How many there are of something, as a number of two bytes.
fn push_count(out: &mut Vec<u8>, count: usize) -> Result<(), Memory>
    ensures { OnOk result (out.new.items ≡ out.old.items ++ u2 count) }
{
    match u16::try_from(count) {
        Ok(n) => Ok(push_u2(out, n)?),
        Err(_) => Err(Memory),
    }
}

// How many bytes there are, as a number of four bytes, and the bytes.
fn push_run(out: &mut Vec<u8>, bytes: &[u8]) -> Result<(), Memory>
    ensures { OnOk result (out.new.items ≡ out.old.items ++ (u4 (length bytes.now) ++ bytes.now)) }
{
    let Ok(len) = u32::try_from(bytes.len()) else {
        return Err(Memory);
    };
    out.extend_from_slice(&len.to_be_bytes())?;
    out.extend_from_slice(bytes)?;
    Ok(())
}

// The contents of a Code attribute (JVMS 4.7.3), which has neither handlers nor attributes.
fn code_contents(alloc: Global, method: &Method) -> Result<Vec<u8>, Memory>
    ensures { IfOk result (λ v. v.items ≡ code_text (code_of method.now)) }
{
    let mut out = Vec::new(alloc);
    push_u2(&mut out, method.head.stack)?;
    push_u2(&mut out, method.head.locals)?;
    push_run(&mut out, method.code.as_slice())?;
    push_u2(&mut out, 0)?;
    push_u2(&mut out, 0)?;
    Ok(out)
}

// The flags of a method.
fn flags_of(method: &Method) -> u16
    ensures { result ≡ (member_of method.now).flags }
{
    if method.head.is_static {
        ACC_PUBLIC_STATIC
    } else {
        ACC_PUBLIC
    }
}

// A method, whose one attribute is its Code.
fn push_method(alloc: Global, out: &mut Vec<u8>, method: &Method) -> Result<(), Memory>
    ensures { OnOk result (out.new.items ≡ out.old.items ++ member_text (member_of method.now)) }
{
    let contents = code_contents(alloc, method)?;
    push_u2(out, flags_of(method))?;
    push_u2(out, method.head.name)?;
    push_u2(out, method.head.desc)?;
    push_u2(out, 1)?;
    push_u2(out, method.head.code)?;
    push_run(out, &contents)?;
    Ok(())
}

// Methods one after the other.
fn push_each(alloc: Global, out: &mut Vec<u8>, methods: &[Method]) -> Result<(), Memory>
    ensures { OnOk result (out.new.items ≡ out.old.items ++ flat_map member_text (map member_of methods.now)) }
{
    for method in methods {
        push_method(alloc, out, method)?;
    }
    Ok(())
}

// How many methods there are, and the methods.
fn push_methods(alloc: Global, out: &mut Vec<u8>, methods: &[Method]) -> Result<(), Memory>
    ensures { OnOk result (out.new.items ≡ out.old.items ++ table member_text (map member_of methods.now)) }
{
    push_count(out, methods.len())?;
    push_each(alloc, out, methods)?;
    Ok(())
}

/// The bytes of a class, which has no interfaces, no fields and no attributes.
pub(crate) fn class_bytes(alloc: Global, draft: &Draft) -> Result<Vec<u8>, Memory>
    ensures { IfOk result (λ v. v.items ≡ file_text (items_of draft.now)) }
{
    let mut out = Vec::new(alloc);
    out.extend_from_slice(&MAGIC.to_be_bytes())?;
    push_u2(&mut out, 0)?;
    push_u2(&mut out, MAJOR)?;
    draft.pool.push(&mut out)?;
    push_u2(&mut out, ACC_PUBLIC_SUPER)?;
    push_u2(&mut out, draft.class)?;
    push_u2(&mut out, draft.superclass)?;
    push_u2(&mut out, 0)?;
    push_u2(&mut out, 0)?;
    push_methods(alloc, &mut out, draft.methods.as_slice())?;
    push_u2(&mut out, 0)?;
    Ok(out)
}
