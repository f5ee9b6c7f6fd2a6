//! The table of the words that name calls.

use crate::{facts, outside, runs};
use cases_certs::{certs, sections};
use cases_classes::classes as node_classes;
use cases_files::pools::Asked;
use cases_files::{classes, codes, listings, pools};
use cases_graphs::{axioms, bases, graphs, leasts, loops, trees};
use cases_methods::{flows, frames, machine, roots};
use cases_search::{counting, joined, searching};
use cases_words::answers::{Answer, NoAnswer};
use cases_words::bench::Bench;
use cases_words::values;
use std::rt::Files;
use std::thread::Threads;

/// What the call that a line names answers.
pub fn answer<R: Files + Threads + Sync>(rt: &R, bench: &Bench, line: &str) -> Answer {
    let (call, rest) = line.split_once(' ').unwrap_or((line, ""));
    match call {
        "field-type" => values::field_type(bench, rest),
        "descriptor" => values::descriptor(bench, rest),
        "name" => values::name(bench, rest),
        "numbers" => values::numbers(bench, rest),
        "scalar" => values::scalar_value(bench, rest),
        "heap" => values::heap(bench, rest),
        "facts" => facts::facts(bench, rest),

        "files" => outside::memory_files(bench, rest),
        "host" => outside::host_files(rt, bench, rest),
        "sink" => outside::memory_sink(bench, rest),
        "take-all" => outside::taking(bench, rest),
        "put-all" => outside::putting(bench, rest),

        "pool" => pools::pool(bench, rest),
        "pool-entry" => pools::under(bench, Asked::Entry, rest),
        "pool-text" => pools::under(bench, Asked::Text, rest),
        "pool-constant" => pools::under(bench, Asked::Constant, rest),
        "pool-member" => pools::under(bench, Asked::Member, rest),

        "class" => classes::class(bench, rest),

        "frames" => frames::frames(bench, rest),

        "decode" => codes::decoding(bench, rest),
        "count" => codes::count(bench, rest),
        "respell" => codes::respelling(bench, rest),
        "respell-file" => codes::respelling_file(rt, bench.alloc(), rest),

        "assemble" => listings::assembling(bench, rest),
        "generate" => listings::generating(bench, rest),

        "graph" => graphs::graph(bench, rest),
        "base" => bases::base(bench, rest),
        "chain" => leasts::chain(bench, rest),
        "classes" => node_classes::classes(bench, rest),
        "matches" => joined::joined_matches(rt, bench, rest),
        "cleared" => counting::cleared(bench, rest),
        "counted" => counting::counted(bench, rest),
        "search" => searching::search(rt, bench, rest),
        "search-methods" => searching::search_methods(rt, bench, rest),

        "axioms" => axioms::axioms(bench),
        "axiom" => axioms::equation(bench, rest),

        "loops" => loops::loops(bench, rest),
        "blocks" => flows::flow(bench, rest),
        "tree" => trees::tree(bench, rest),

        "machine" => machine::machine(bench, false, rest),
        "machine-step" => machine::machine(bench, true, rest),

        "root" => roots::root(bench, rest),
        "cleared-root" => roots::cleared_root(bench, rest),

        "cert" => certs::cert(bench, rest),
        "cert-1" => certs::cert_1(bench, rest),
        "lemmas" => sections::lemmas(rt, bench, rest),
        "section" => sections::section(rt, bench, rest),
        "pieces" => sections::pieces(rt, bench, rest),
        "steps" => sections::steps(rt, bench, rest),
        "trim" => sections::trim(rt, bench, rest),

        "run" => runs::running(rt, bench, rest),
        "meets" => runs::meeting(rt, bench, rest),
        "validate" => runs::validation(rt, bench, rest),
        "refute" => runs::refutation(rt, bench, rest),
        "one-line" => runs::one_line(rt, bench, rest),
        "placed" => runs::placing(rt, bench, rest),
        "certified" => runs::certified(rt, bench, rest),
        "made" => runs::made(rt, bench, rest),
        "stored" => runs::stored(rt, bench, rest),
        "linked" => runs::linked(rt, bench, rest),

        _ => Err(NoAnswer::Unreadable),
    }
}
