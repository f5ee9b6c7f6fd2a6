//! The program `graphs [--dot] A B NAME DESC` over real files and standard output: it draws the least graph of a method of the class
//! file A and its partner in B.
//!
//! It hands the words of the command line after the program's name to `pv_draw::run`, and exits with its status as a number.
#![tactic(auto)]

ghost use Rattle.std.specs.Prelude.{◌≡◌, List, Option, ℕ};
ghost use Rattle.pv_base.specs.Outside.{Rose};
ghost use Rattle.pv_words.specs.CommandLine.{after_name};
ghost use Rattle.pv_draw.specs.Requests.{IsRequest, Request};
ghost use Rattle.pv_draw.specs.Run.{Answered, CallsFor};

use pv_base::{Files, HostFiles, HostSink, Sink};
use pv_draw::{Status, run};
use pv_words::{command_line, command_words};
use std::io;
use std::process::ExitCode;

fn main(rt: HostRuntime) -> ExitCode {
    let mut files = HostFiles::new(&rt);
    let mut out = HostSink::new(&rt);
    let status = match command_line(&rt) {
        Ok(words) => run_words(&rt, &words, &mut files, &mut out),
        // A word that isn't UTF-8 asks for nothing.
        Err(e) if e.kind() == io::ErrorKind::InvalidData => run_words(
            &rt,
            &[],
            &mut files,
            &mut out,
        ),
        Err(_) => Status::Memory,
    };
    ExitCode::from(status.number())
}

// Does what the words after the first ask for. Where there is no memory for them, nothing is asked or said.
fn run_words<R: AllocGlobal, F: Files, K: Sink>(
    rt: &R,
    words: &[String],
    files: &mut F,
    out: &mut K,
) -> Status
    ensures answered { (r : Option Request) → IsRequest (after_name words.now) r → Answered (F.held files.old) r (K.sent out.old) (K.sent out.new) (Rose (F.failures files.old) (F.failures files.new)) (Rose (K.failures out.old) (K.failures out.new)) result }
    ensures asked { (r : Option Request) → IsRequest (after_name words.now) r → CallsFor (F.held files.old) r (F.asked files.old) (F.asked files.new) result }
    ensures held { F.held files.new ≡ F.held files.old }
{
    let Ok(rest) = command_words(rt.alloc(), words) else {
        return Status::Memory;
    };
    run(rt.alloc(), &rest, files, out)
}
