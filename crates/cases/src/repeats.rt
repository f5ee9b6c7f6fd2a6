//! Calls that are repeated with other bytes.
//!
//! | Line | Does the call |
//! |---|---|
//! | `each-front BYTES CALL` | with `$front` as each front of the bytes, the shortest first, but for the whole |
//! | `each-change BYTES NEW CALL` | with `$changed` as the bytes in which each place in turn is each of the new bytes |
//!
//! The answer has each answer once, after how often it came in a row.

use crate::calls;
use cases_words::answers::{Answer, List, NoAnswer};
use cases_words::bench::Bench;
use std::alloc::{AllocError, Global};
use std::rt::Files;
use std::thread::Threads;

/// Answers in a row, of which equal ones are counted.
#[derive(Drop)]
struct Counted {
    alloc: Global,
    list: List,
    last: String,
    times: u64,
}

impl Counted {
    fn new(alloc: Global) -> Counted {
        Counted {
            alloc,
            list: List::new(alloc),
            last: String::new(alloc),
            times: 0,
        }
    }

    fn add(&mut self, answer: String) -> Result<(), AllocError> {
        if self.times > 0 && self.last == answer {
            self.times = self.times.saturating_add(1);
            return Ok(());
        }
        self.flush()?;
        self.last = answer;
        self.times = 1;
        Ok(())
    }

    // Puts the last answer into the list.
    fn flush(&mut self) -> Result<(), AllocError> {
        if self.times > 0 {
            let (times, last) = (self.times, self.last.as_str());
            self.list
                .add(format!(in self.alloc; "{times} {last}")?.as_str())?;
        }
        Ok(())
    }

    fn into_text(mut self) -> Answer {
        self.flush()?;
        let Counted { list, .. } = self;
        list.into_text()
    }
}

/// `each-front BYTES CALL`
pub fn each_front<R: Files + Threads + Sync>(rt: &R, bench: &mut Bench, rest: &str) -> Answer {
    let alloc = bench.alloc();
    let (word, call) = rest.split_once(' ').ok_or(NoAnswer::Unreadable)?;
    let bytes = bench.bytes(word)?;
    let mut answers = Counted::new(alloc);
    for n in 0..bytes.len() {
        bench.name("front", Vec::from_slice(alloc, &bytes[..n])?)?;
        answers.add(calls::answer(rt, bench, call)?)?;
    }
    answers.into_text()
}

/// `each-change BYTES NEW CALL`
pub fn each_change<R: Files + Threads + Sync>(rt: &R, bench: &mut Bench, rest: &str) -> Answer {
    let alloc = bench.alloc();
    let (word, rest) = rest.split_once(' ').ok_or(NoAnswer::Unreadable)?;
    let (new, call) = rest.split_once(' ').ok_or(NoAnswer::Unreadable)?;
    let (bytes, new) = (bench.bytes(word)?, bench.bytes(new)?);
    let mut answers = Counted::new(alloc);
    for place in 0..bytes.len() {
        for byte in &new {
            let mut changed = Vec::from_slice(alloc, &bytes)?;
            if let Some(there) = changed.get_mut(place) {
                *there = *byte;
            }
            bench.name("changed", changed)?;
            answers.add(calls::answer(rt, bench, call)?)?;
        }
    }
    answers.into_text()
}
