//! The program: the commands of `pv_top`, over real files and standard output.
//!
//! It hands the words of the command line after the program's name to `pv_top::run`, and exits with
//! its status as a number.
#![tactic(auto)]

ghost use Rattle.std.specs.Prelude.{List, Option, Some, ℕ};
ghost use Rattle.pv_base.specs.Outside.{Rose};
ghost use Rattle.pv_words.specs.CommandLine.{after_name};
ghost use Rattle.pv_top.specs.Words.{IsCommand, first_of, second_of};
ghost use Rattle.pv_top.specs.declared.words.Command as commands;
ghost use Rattle.pv_top.specs.Promise.{EachEquivalent};
ghost use Rattle.pv_top.specs.Run.{Answered, CallsFor, Leaves};

use pv_base::{Files, HostFiles, HostSink, OpenGate, Sink};
use pv_top::{Status, run};
use pv_words::{command_line, command_words};
use std::io;
use std::process::ExitCode;
use std::thread::Threads;

fn main(rt: HostRuntime) -> ExitCode {
    let mut files = HostFiles::new(&rt);
    let mut out = HostSink::new(&rt);
    let status = match command_line(&rt) {
        Ok(words) => run_words(&rt, &words, &mut files, &mut out),
        // A word that isn't UTF-8 is no word of a command.
        Err(e) if e.kind() == io::ErrorKind::InvalidData => run_words(
            &rt,
            &[],
            &mut files,
            &mut out,
        ),
        Err(_) => Status::Memory,
    };
    ExitCode::from(status.number())
}

// Runs the command that the words after the first are. Where there is no memory for them, nothing is
// asked or said.
fn run_words<R: AllocGlobal + Threads + Sync, F: Files, K: Sink>(
    rt: &R,
    words: &[String],
    files: &mut F,
    out: &mut K,
) -> Status
    ensures equivalent { (c : commands.Command (List ℕ)) → IsCommand (after_name words.now) (Some c) → EachEquivalent (F.held files.old) (first_of c) (second_of c) (K.sent out.old) (K.sent out.new) }
    ensures answered { (c : Option (commands.Command (List ℕ))) → IsCommand (after_name words.now) c → Answered (F.held files.old) c (K.sent out.old) (K.sent out.new) (Rose (F.failures files.old) (F.failures files.new)) (Rose (K.failures out.old) (K.failures out.new)) result }
    ensures asked { (c : Option (commands.Command (List ℕ))) → IsCommand (after_name words.now) c → CallsFor (F.held files.old) c (F.asked files.old) (F.asked files.new) (Rose (K.failures out.old) (K.failures out.new)) result }
    ensures held { (c : Option (commands.Command (List ℕ))) → IsCommand (after_name words.now) c → Leaves c (F.held files.old) (F.held files.new) (Rose (F.failures files.old) (F.failures files.new)) (Rose (K.failures out.old) (K.failures out.new)) result }
{
    let Ok(rest) = command_words(rt.alloc(), words) else {
        return Status::Memory;
    };
    run(rt, rt.alloc(), &rest, files, out, &OpenGate)
}
