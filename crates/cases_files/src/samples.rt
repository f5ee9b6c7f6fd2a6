//! Class files that are made of methods.
//!
//! A line `make NAME METHOD ..` names the bytes of a class file with these methods, in the order of JVMS
//! 4.1, and answers how many bytes they are. A METHOD is `NAME,DESCRIPTOR,FLAGS` for one without code, and
//! else `NAME,DESCRIPTOR,FLAGS,STACK,LOCALS,CODE`, with the flags in hexadecimal, and after them, where its
//! Code has an exception table or attributes, `,BYTES`, which are the end of the Code from there on. The
//! file has version 52, flags 0021, the class A and the superclass java/lang/Object, and its constant pool
//! has their names and Classes, the name and descriptor of each method, and `Code`, in this order: the
//! Class A is 2, and after one method 8 is the next index. A word `pool=COUNT,BYTES` before the methods puts
//! these entries after them, which have that many indices.

use cases_words::answers::{Answer, NoAnswer};
use cases_words::bench::{Bench, number, unescaped, words};
use std::alloc::{AllocError, Global};

/// A method of a class file.
#[derive(Drop)]
struct Sample {
    flags: u16,
    name: Vec<u8>,
    desc: Vec<u8>,
    code: Option<SampleCode>,
}

#[derive(Drop)]
struct SampleCode {
    max_stack: u16,
    max_locals: u16,
    bytes: Vec<u8>,
    end: Vec<u8>,
}

// Entries at the end of a constant pool.
#[derive(Drop)]
struct Entries {
    count: usize,
    bytes: Vec<u8>,
}

/// `make NAME METHOD ..`
pub fn make(bench: &mut Bench, rest: &str) -> Answer {
    let alloc = bench.alloc();
    let words = words(alloc, rest)?;
    let [name, methods @ ..] = words.as_slice() else {
        return Err(NoAnswer::Unreadable);
    };
    let bytes = class_of(bench, methods)?;
    let length = bytes.len();
    bench.name(name, bytes)?;
    Ok(format!(in alloc; "{length} bytes")?)
}

/// The bytes of a class file with the methods that words write.
pub fn class_of(bench: &Bench, words: &[&str]) -> Result<Vec<u8>, NoAnswer> {
    let alloc = bench.alloc();
    let (entries, methods) = read_entries(bench, words)?;
    let mut samples = Vec::new(alloc);
    for method in methods {
        samples.push(read_sample(bench, method)?)?;
    }
    Ok(class(alloc, &entries, &samples)?)
}

// The entries that come first in the words, and the words after them.
fn read_entries<'a>(
    bench: &Bench,
    words: &'a [&'a str],
) -> Result<(Entries, &'a [&'a str]), NoAnswer> {
    if let [first, methods @ ..] = words {
        if let Some(entries) = first.strip_prefix("pool=") {
            let (count, bytes) = entries.split_once(',').ok_or(NoAnswer::Unreadable)?;
            let (count, bytes) = (number(count)?, bench.bytes(bytes)?);
            return Ok((Entries { count, bytes }, methods));
        }
    }
    let bytes = Vec::new(bench.alloc());
    Ok((Entries { count: 0, bytes }, words))
}

fn read_sample(bench: &Bench, word: &str) -> Result<Sample, NoAnswer> {
    let alloc = bench.alloc();
    let parts: Vec<&str> = word.split(',').collect(alloc)?;
    let [name, desc, flags, code @ ..] = parts.as_slice() else {
        return Err(NoAnswer::Unreadable);
    };
    Ok(Sample {
        flags: read_flags(flags)?,
        name: unescaped(alloc, name)?,
        desc: unescaped(alloc, desc)?,
        code: read_code(bench, code)?,
    })
}

// Flags in hexadecimal.
fn read_flags(word: &str) -> Result<u16, NoAnswer> {
    match u16::from_str_radix(word, 16) {
        Ok(flags) => Ok(flags),
        Err(_) => Err(NoAnswer::Unreadable),
    }
}

fn read_code(bench: &Bench, words: &[&str]) -> Result<Option<SampleCode>, NoAnswer> {
    let (max_stack, max_locals, code, end) = match *words {
        [] => return Ok(None),
        [max_stack, max_locals, code] => (max_stack, max_locals, code, "00000000"),
        [max_stack, max_locals, code, end] => (max_stack, max_locals, code, end),
        _ => return Err(NoAnswer::Unreadable),
    };
    Ok(Some(SampleCode {
        max_stack: number(max_stack)?,
        max_locals: number(max_locals)?,
        bytes: bench.bytes(code)?,
        end: bench.bytes(end)?,
    }))
}

// The bytes of a class with these entries and methods.
fn class(alloc: Global, entries: &Entries, methods: &[Sample]) -> Result<Vec<u8>, AllocError> {
    let mut out = Vec::new(alloc);
    out.extend_from_slice(b"\xCA\xFE\xBA\xBE\x00\x00\x00\x34")?;
    let code_name = methods.len().saturating_mul(2).saturating_add(5);
    let indices = code_name.saturating_add(1);
    push_u16(&mut out, indices.saturating_add(entries.count))?;
    push_text(&mut out, b"A")?;
    out.extend_from_slice(&[7, 0, 1])?;
    push_text(&mut out, b"java/lang/Object")?;
    out.extend_from_slice(&[7, 0, 3])?;
    for method in methods {
        push_text(&mut out, &method.name)?;
        push_text(&mut out, &method.desc)?;
    }
    push_text(&mut out, b"Code")?;
    out.extend_from_slice(&entries.bytes)?;
    out.extend_from_slice(&[0, 0x21, 0, 2, 0, 4, 0, 0, 0, 0])?;
    push_methods(&mut out, methods, code_name)?;
    out.extend_from_slice(&[0, 0])?;
    Ok(out)
}

fn push_methods(out: &mut Vec<u8>, methods: &[Sample], code_name: usize) -> Result<(), AllocError> {
    push_u16(out, methods.len())?;
    let mut name: usize = 5;
    for method in methods {
        push_method(out, method, name, code_name)?;
        name = name.saturating_add(2);
    }
    Ok(())
}

// A method whose name has this index, in a class where `Code` has that one (JVMS 4.6).
fn push_method(
    out: &mut Vec<u8>,
    method: &Sample,
    name: usize,
    code_name: usize,
) -> Result<(), AllocError> {
    out.extend_from_slice(&method.flags.to_be_bytes())?;
    push_u16(out, name)?;
    push_u16(out, name.saturating_add(1))?;
    let Some(code) = &method.code else {
        return out.extend_from_slice(&[0, 0]);
    };
    out.extend_from_slice(&[0, 1])?;
    push_u16(out, code_name)?;
    push_code(out, code)
}

// The length and the contents of a Code attribute (JVMS 4.7.3).
fn push_code(out: &mut Vec<u8>, code: &SampleCode) -> Result<(), AllocError> {
    let head: usize = 8;
    let length = head.saturating_add(code.bytes.len());
    push_u32(out, length.saturating_add(code.end.len()))?;
    out.extend_from_slice(&code.max_stack.to_be_bytes())?;
    out.extend_from_slice(&code.max_locals.to_be_bytes())?;
    push_u32(out, code.bytes.len())?;
    out.extend_from_slice(&code.bytes)?;
    out.extend_from_slice(&code.end)
}

fn push_text(out: &mut Vec<u8>, text: &[u8]) -> Result<(), AllocError> {
    out.extend_from_slice(&[1])?;
    push_u16(out, text.len())?;
    out.extend_from_slice(text)
}

// The low two bytes of a number, and the low four.
fn push_u16(out: &mut Vec<u8>, number: usize) -> Result<(), AllocError> {
    let [_, _, _, _, _, _, high, low] = (number as u64).to_be_bytes();
    out.extend_from_slice(&[high, low])
}

fn push_u32(out: &mut Vec<u8>, number: usize) -> Result<(), AllocError> {
    let [_, _, _, _, a, b, c, d] = (number as u64).to_be_bytes();
    out.extend_from_slice(&[a, b, c, d])
}
