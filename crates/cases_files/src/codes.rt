//! Calls of `pv_insn`, and the way back from instructions to bytes.
//!
//! | Line | Answer |
//! |---|---|
//! | `decode CODE` | the instructions, each after its address; or the fault |
//! | `count CODE` | how many instructions there are |
//! | `respell CODE` | the bytes that the decoded instructions spell |
//! | `respell-file PATH` | decodes the code of each method of a class file, spells it back and compares: how many methods and bytes, or the first method that fails and what is wrong |

use crate::classes;
use crate::spelling::spelled;
use cases_words::answers::{Answer, List, NoAnswer, shown};
use cases_words::bench::Bench;
use cases_words::values::escaped;
use pv_base::{Files, HostFiles};
use pv_class::{LONGEST_FILE, Method, read_class};
use pv_insn::{Placed, decode};
use std::alloc::Global;
use std::rt;

/// `decode CODE`
pub fn decoding(bench: &Bench, rest: &str) -> Answer {
    let alloc = bench.alloc();
    let insns = match decode(alloc, &bench.bytes(rest)?) {
        Ok(insns) => insns,
        Err(fault) => return shown(alloc, fault),
    };
    let mut list = List::new(alloc);
    for placed in insns.as_slice() {
        let (at, insn) = (placed.at, &placed.insn);
        list.add(format!(in alloc; "{at} {insn:?}")?.as_str())?;
    }
    list.into_text()
}

/// `count CODE`
pub fn count(bench: &Bench, rest: &str) -> Answer {
    match decode(bench.alloc(), &bench.bytes(rest)?) {
        Ok(insns) => shown(bench.alloc(), insns.as_slice().len()),
        Err(fault) => shown(bench.alloc(), fault),
    }
}

/// `respell CODE`
pub fn respelling(bench: &Bench, rest: &str) -> Answer {
    let code = bench.bytes(rest)?;
    match decode(bench.alloc(), &code) {
        Ok(insns) => spelling(bench.alloc(), &code, insns.as_slice()),
        Err(fault) => shown(bench.alloc(), fault),
    }
}

fn spelling(alloc: Global, code: &[u8], placed: &[Placed]) -> Answer {
    match spelled(alloc, code, placed) {
        Ok(bytes) => Ok(hex::encode_upper(alloc, bytes.as_slice())?),
        Err(fault) => shown(alloc, fault),
    }
}

/// `respell-file PATH`
pub fn respelling_file<R: rt::Files>(rt: &R, alloc: Global, path: &str) -> Answer {
    let bytes = match HostFiles::new(rt).fetch(alloc, path, LONGEST_FILE) {
        Ok(bytes) => bytes,
        Err(fault) => return shown(alloc, fault),
    };
    match read_class(alloc, &bytes) {
        Ok(class) => respelling_methods(alloc, class.methods.as_slice()),
        Err(fault) => classes::fault_text(alloc, fault),
    }
}

fn respelling_methods(alloc: Global, methods: &[Method]) -> Answer {
    let mut codes: u64 = 0;
    let mut bytes: u64 = 0;
    for method in methods {
        let Some(code) = &method.code else {
            continue;
        };
        let code = code.bytes.as_slice();
        if let Some(wrong) = wrong_spelling(alloc, code)? {
            let name = escaped(alloc, method.name.bytes())?;
            let desc = escaped(alloc, method.desc.bytes())?;
            return Ok(format!(in alloc; "{name} {desc} {wrong}")?);
        }
        codes = codes.saturating_add(1);
        bytes = bytes.saturating_add(code.len() as u64);
    }
    Ok(format!(in alloc; "{codes} methods, {bytes} bytes")?)
}

// What is wrong with a code: it doesn't decode, or what was decoded spells other bytes.
fn wrong_spelling(alloc: Global, code: &[u8]) -> Result<Option<String>, NoAnswer> {
    let insns = match decode(alloc, code) {
        Ok(insns) => insns,
        Err(fault) => return Ok(Some(shown(alloc, fault)?)),
    };
    let bytes = match spelled(alloc, code, insns.as_slice()) {
        Ok(bytes) => bytes,
        Err(fault) => return Ok(Some(shown(alloc, fault)?)),
    };
    match first_difference(&bytes, code) {
        Some(at) => Ok(Some(format!(in alloc; "differs at {at}")?)),
        None => Ok(None),
    }
}

// Where bytes differ first, which is at the end of the fewer where these begin the others.
fn first_difference(a: &[u8], b: &[u8]) -> Option<usize> {
    for (i, (x, y)) in a.iter().zip(b).enumerate() {
        if *x != *y {
            return Some(i);
        }
    }
    if a.len() == b.len() {
        None
    } else {
        Some(a.len().min(b.len()))
    }
}
