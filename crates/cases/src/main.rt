//! The program of cases: it reads lines from standard input, does the call that a line names, and
//! writes what the call answers, in words, on a line of its own.
//!
//! Line n of the output answers line n of the input: an empty line and a line that begins with `#`
//! stand in the output as they are, and a line that can't be read is answered by `?`. The first word
//! of a line names the call (`calls` has the table), and the module of its layer says what follows it
//! and what is answered: a value as its type's `Debug` writes it, a text as it is, with `%` and two
//! hexadecimal digits for a byte that isn't visible, for a space and for `%`. `bench` says how bytes are
//! written.
//!
//! The answers go out through `pv_base::HostSink`. The layers' promises are proved in their own crates;
//! what is proved here is that no call is made outside what it requires, and that each line is done
//! with.
#![tactic(auto)]

mod calls;
mod facts;
mod outside;
mod repeats;
mod runs;

use cases_files::samples;
use cases_words::answers::{Answer, NoAnswer};
use cases_words::bench::Bench;
use pv_base::{HostSink, Sink};
use std::alloc::AllocError;
use std::io::{self, BufRead, BufReader};
use std::process::ExitCode;
use std::rt::Files;
use std::thread::Threads;

fn main(rt: HostRuntime) -> io::Result<ExitCode> {
    let mut bench = Bench::new(rt.alloc());
    let mut out = HostSink::new(&rt);
    for line in BufReader::new(rt.alloc(), rt.reader())?.lines(rt.alloc()) {
        let mut text = output(&rt, &mut bench, line?.as_str())?;
        text.push('\n')?;
        if out.put(text.as_bytes()).is_err() {
            return Ok(ExitCode::FAILURE);
        }
    }
    Ok(ExitCode::SUCCESS)
}

// What is written for a line.
fn output<R: Files + Threads + Sync>(
    rt: &R,
    bench: &mut Bench,
    line: &str,
) -> Result<String, AllocError> {
    let alloc = bench.alloc();
    if line.is_empty() || line.starts_with('#') {
        return String::from_str(alloc, line);
    }
    match answer(rt, bench, line) {
        Ok(text) => Ok(text),
        Err(NoAnswer::Unreadable) => String::from_str(alloc, "?"),
        Err(NoAnswer::Memory) => String::from_str(alloc, "out of memory"),
    }
}

// The answer to a line, which may name bytes or repeat a call.
fn answer<R: Files + Threads + Sync>(rt: &R, bench: &mut Bench, line: &str) -> Answer {
    let (word, rest) = line.split_once(' ').unwrap_or((line, ""));
    match word {
        "let" => bench.define(rest),
        "series" => bench.define_series(rest),
        "make" => samples::make(bench, rest),
        "each-front" => repeats::each_front(rt, bench, rest),
        "each-change" => repeats::each_change(rt, bench, rest),
        _ => calls::answer(rt, bench, line),
    }
}
