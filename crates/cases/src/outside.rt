//! Calls of `pv_base`.
//!
//! | Line | Answer |
//! |---|---|
//! | `files SETTING; STEP; ..` | what each step on a store in memory answers |
//! | `host STEP; ..` | what each step on real files answers |
//! | `sink ROOM BYTES ..` | what each put on a sink in memory answers, and what it took |
//! | `take-all LIMIT LEFT FAILS` | what the loop over a reader answers that has so many bytes left, gives one at a time and fails with so many left (`never`: it doesn't) |
//! | `put-all ROOM BYTES` | whether the loop over a writer is Ok that takes a byte at a time while it has room, and what it took |
//!
//! A SETTING is words `NAME=BYTES`, which are files, and `fail=2,6`, the numbers of the calls that fail. A
//! STEP is `fetch NAME LIMIT`, which answers the bytes as a text, `place NAME BYTES`, on a store in memory
//! `asked`, which answers the calls so far, and on real files `remove NAME`.

use cases_words::answers::{Answer, List, NoAnswer, said, shown};
use cases_words::bench::{Bench, number, words};
use cases_words::values::{escaped, read_name};
use pv_base::{Asked, Files, HostFiles, MemFiles, MemSink, Sink, put_all, take_all};
use pv_value::Name;
use std::alloc::Global;
use std::io::{self, ErrorKind, Read, Write};
use std::{fs, rt};

/// The store that words set up.
pub fn read_files(bench: &Bench, words: &[&str]) -> Result<MemFiles, NoAnswer> {
    let alloc = bench.alloc();
    let mut entries = Vec::new(alloc);
    let mut fail = Vec::new(alloc);
    for word in words {
        match word.split_once('=') {
            Some(("fail", numbers)) => fail = read_numbers(alloc, numbers)?,
            Some((name, bytes)) => entries.push(read_entry(bench, name, bytes)?)?,
            None => return Err(NoAnswer::Unreadable),
        }
    }
    Ok(MemFiles::new(alloc, entries, fail))
}

fn read_entry(bench: &Bench, name: &str, bytes: &str) -> Result<(Name, Vec<u8>), NoAnswer> {
    Ok((read_name(bench.alloc(), name)?, bench.bytes(bytes)?))
}

fn read_numbers(alloc: Global, text: &str) -> Result<Vec<u64>, NoAnswer> {
    let mut numbers = Vec::new(alloc);
    for word in text.split(',') {
        numbers.push(number(word)?)?;
    }
    Ok(numbers)
}

/// `files SETTING; STEP; ..`
pub fn memory_files(bench: &Bench, rest: &str) -> Answer {
    let alloc = bench.alloc();
    let (setting, steps) = rest.split_once(';').ok_or(NoAnswer::Unreadable)?;
    let mut files = read_files(bench, &words(alloc, setting)?)?;
    let mut list = List::new(alloc);
    for step in steps.split(';') {
        let words = words(alloc, step)?;
        let answer = match *words.as_slice() {
            ["asked"] => asked_text(alloc, files.asked())?,
            _ => file_step(bench, &mut files, &words)?,
        };
        list.add(answer.as_str())?;
    }
    list.into_text()
}

/// The calls that a store got.
pub fn asked_text(alloc: Global, asked: &[Asked]) -> Answer {
    if asked.is_empty() {
        return said(alloc, "asked nothing");
    }
    let mut text = String::from_str(alloc, "asked")?;
    for call in asked {
        let (word, name) = match call {
            Asked::Fetch(name) => (" fetch ", name),
            Asked::Place(name) => (" place ", name),
        };
        text.push_str(word)?;
        text.push_str(escaped(alloc, name.bytes())?.as_str())?;
    }
    Ok(text)
}

/// `host STEP; ..`
pub fn host_files<R: rt::Files>(rt: &R, bench: &Bench, rest: &str) -> Answer {
    let alloc = bench.alloc();
    let mut files = HostFiles::new(rt);
    let mut list = List::new(alloc);
    for step in rest.split(';') {
        let words = words(alloc, step)?;
        let answer = match *words.as_slice() {
            ["remove", path] => shown(alloc, fs::remove_file(rt, path).is_ok())?,
            _ => file_step(bench, &mut files, &words)?,
        };
        list.add(answer.as_str())?;
    }
    list.into_text()
}

// A fetch or a place on any store.
fn file_step<F: Files>(bench: &Bench, files: &mut F, words: &[&str]) -> Answer {
    let alloc = bench.alloc();
    match *words {
        ["fetch", name, limit] => match files.fetch(alloc, name, number(limit)?) {
            Ok(bytes) => escaped(alloc, &bytes),
            Err(fault) => shown(alloc, fault),
        },
        ["place", name, bytes] => shown(alloc, files.place(alloc, name, &bench.bytes(bytes)?)),
        _ => Err(NoAnswer::Unreadable),
    }
}

/// `sink ROOM BYTES ..`
pub fn memory_sink(bench: &Bench, rest: &str) -> Answer {
    let alloc = bench.alloc();
    let words = words(alloc, rest)?;
    let [room, puts @ ..] = words.as_slice() else {
        return Err(NoAnswer::Unreadable);
    };
    let mut sink = MemSink::new(alloc, number(room)?)?;
    let mut list = List::new(alloc);
    for put in puts {
        list.add(shown(alloc, sink.put(&bench.bytes(put)?))?.as_str())?;
    }
    let taken = escaped(alloc, sink.taken())?;
    list.add(format!(in alloc; "took {taken}")?.as_str())?;
    list.into_text()
}

// Gives a byte at a time, and fails when so many are left.
#[derive(Drop)]
struct Dripping {
    left: u64,
    fails: Option<u64>,
}

impl Read for Dripping {
    fn read(&mut self, buf: &mut [u8]) -> io::Result<usize> {
        if self.fails == Some(self.left) {
            return Err(io::Error::from(ErrorKind::Other));
        }
        if self.left == 0 || buf.is_empty() {
            return Ok(0);
        }
        self.left -= 1;
        buf[0] = b'a';
        Ok(1)
    }
}

/// `take-all LIMIT LEFT FAILS`
pub fn taking(bench: &Bench, rest: &str) -> Answer {
    let alloc = bench.alloc();
    let words = words(alloc, rest)?;
    let [limit, left, fails] = *words.as_slice() else {
        return Err(NoAnswer::Unreadable);
    };
    let fails = match fails {
        "never" => None,
        _ => Some(number(fails)?),
    };
    let mut from = Dripping {
        left: number(left)?,
        fails,
    };
    match take_all(alloc, &mut from, number(limit)?) {
        Ok(bytes) => escaped(alloc, &bytes),
        Err(fault) => shown(alloc, fault),
    }
}

// Takes a byte at a time, while there is room.
#[derive(Drop)]
struct Narrow {
    taken: Vec<u8>,
    room: usize,
}

impl Write for Narrow {
    fn write(&mut self, buf: &[u8]) -> io::Result<usize> {
        if self.taken.len() >= self.room || buf.is_empty() {
            return Ok(0);
        }
        self.taken.push(buf[0])?;
        Ok(1)
    }

    fn flush(&mut self) -> io::Result<()> {
        Ok(())
    }
}

/// `put-all ROOM BYTES`
pub fn putting(bench: &Bench, rest: &str) -> Answer {
    let alloc = bench.alloc();
    let words = words(alloc, rest)?;
    let [room, bytes] = *words.as_slice() else {
        return Err(NoAnswer::Unreadable);
    };
    let mut to = Narrow {
        taken: Vec::new(alloc),
        room: number(room)?,
    };
    let is_ok = put_all(&mut to, &bench.bytes(bytes)?).is_ok();
    let taken = escaped(alloc, &to.taken)?;
    Ok(format!(in alloc; "{is_ok}; took {taken}")?)
}
