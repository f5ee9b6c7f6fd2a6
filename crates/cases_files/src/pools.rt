//! Calls of `pv_pool`.
//!
//! | Line | Answer |
//! |---|---|
//! | `pool BYTES` | the tag of the entry that begins under each index from 0 on, `-` where none does, and the offset after the pool |
//! | `pool BYTES PLACE` | the same of the pool that begins at this place |
//! | `pool-entry BYTES INDEX` | the entry under an index of a pool that begins at 0, if one is there |
//! | `pool-text BYTES INDEX` | the text under it |
//! | `pool-constant BYTES INDEX` | the constant under it |
//! | `pool-member BYTES INDEX` | the tag of the member under it, its class, name and descriptor |
//!
//! Where there is no pool, each answers the fault.

use cases_words::answers::{Answer, List, NoAnswer, said, shown};
use cases_words::bench::{Bench, number, words};
use cases_words::values::escaped;
use pv_pool::{Pool, read_pool};
use std::alloc::Global;

/// `pool BYTES [PLACE]`
pub fn pool(bench: &Bench, rest: &str) -> Answer {
    let alloc = bench.alloc();
    let (bytes, at) = match *words(alloc, rest)?.as_slice() {
        [bytes] => (bench.bytes(bytes)?, 0),
        [bytes, at] => (bench.bytes(bytes)?, number(at)?),
        _ => return Err(NoAnswer::Unreadable),
    };
    if at > bytes.len() {
        return Err(NoAnswer::Unreadable);
    }
    match read_pool(alloc, &bytes, at) {
        Ok((pool, after)) => tags(alloc, &pool, after),
        Err(fault) => shown(alloc, fault),
    }
}

fn tags(alloc: Global, pool: &Pool, after: usize) -> Answer {
    let mut list = List::new(alloc);
    for slot in pool.slots() {
        match slot {
            Some(entry) => list.add(shown(alloc, entry.tag())?.as_str())?,
            None => list.add("-")?,
        }
    }
    list.add(format!(in alloc; "after {after}")?.as_str())?;
    list.into_text()
}

/// What is asked of a pool, under an index.
#[derive(Clone, Copy)]
pub enum Asked {
    Entry,
    Text,
    Constant,
    Member,
}

/// `pool-entry BYTES INDEX`, and so for a text, a constant and a member
pub fn under(bench: &Bench, asked: Asked, rest: &str) -> Answer {
    let alloc = bench.alloc();
    let words = words(alloc, rest)?;
    let [bytes, index] = *words.as_slice() else {
        return Err(NoAnswer::Unreadable);
    };
    let index = number(index)?;
    let pool = match read_pool(alloc, &bench.bytes(bytes)?, 0) {
        Ok((pool, _)) => pool,
        Err(fault) => return shown(alloc, fault),
    };
    match asked {
        Asked::Entry => shown(alloc, pool.entry(index)),
        Asked::Text => text(alloc, &pool, index),
        Asked::Constant => shown(alloc, pool.constant(index)),
        Asked::Member => member(alloc, &pool, index),
    }
}

fn text(alloc: Global, pool: &Pool, index: u16) -> Answer {
    match pool.text(index) {
        Some(text) => escaped(alloc, text.bytes()),
        None => said(alloc, "None"),
    }
}

fn member(alloc: Global, pool: &Pool, index: u16) -> Answer {
    let Some(member) = pool.member(alloc, index)? else {
        return said(alloc, "None");
    };
    let kind = member.kind;
    let class = escaped(alloc, member.sym.class.bytes())?;
    let name = escaped(alloc, member.sym.name.bytes())?;
    let desc = escaped(alloc, member.sym.desc.bytes())?;
    Ok(format!(in alloc; "{kind} {class} {name} {desc}")?)
}
