//! Calls of `pv_match` and `pv_rounds`.
//!
//! | Line | Answer |
//! |---|---|
//! | `search FIRST SECOND; STEP; .. \| BEGINNING; STEP; ..` | what each step on a search answers, which begins with the least graph of two nodes of the graph that the steps before the bar make, as those of a line `graph` |
//! | `search-methods BYTES PLACE BYTES PLACE \| BEGINNING; STEP; ..` | the same, with the least graph of the roots of two methods, each at its place in a class file |
//!
//! A BEGINNING is the greatest number of matches of a round, and after it `endings` where the nodes count as ending for which the first root
//! waits. The axioms are those of the core.
//!
//! | Step | Answer |
//! |---|---|
//! | `matches LIMIT` | all matches, with commas between them, or `more` and one more than the limit |
//! | `scalar LIMIT` | the same, by the axioms on numbers, choices and tokens alone |
//! | `matches LIMIT WORKERS`, `scalar LIMIT WORKERS` | the same, by this many pieces at once, of which there is one at least |
//! | `scalar-meets LIMIT WORKERS MEETINGS` | what `scalar` answers, and before it whether at a gate for this many meetings (`MeetGate`) no call looked for its partner in vain, and how often the gate was passed |
//! | `scalar-starts LIMIT` | at how many nodes matching by these looked: how often one worker passed the gate as piece 0 |
//! | `scalar-again LIMIT NODE ..` | the same matches as `scalar` gives, found by `rematch`, where all are known and these nodes are touched, and before them how often one worker passed the gate |
//! | `scalar-anew LIMIT` | the same, where none is known and all nodes are touched |
//! | `look` | `over` and one more than the greatest number of matches; `saturated`, where no match joins more; or `open` and how many matches there are |
//! | `round` | what `look` answers; after `open` it makes a round |
//! | `joined FIRST SECOND` | whether two nodes are in one class |
//! | `numbers` | for each node the number of its class |
//! | `count` | how many nodes there are |
//! | `node NUMBER` | the operation and the kids of a node |
//! | `nodes` | those of all nodes, with commas between them |
//! | `endings` | the nodes that count as ending |
//!
//! A match is the number of its axiom, its parameters in brackets (`depth 1`, `C f I`, `int[]`, `int 5` or `long 5`), in the order in which
//! the left side names them, and class numbers: for each kid of its family and then for each variable.

ghost use Rattle.std.specs.Prelude.{◌≡◌, IfOk, OnOk, map};
ghost use Rattle.pv_axioms.specs.Entries.{AreAxioms, NumbersOnce};
ghost use Rattle.pv_match.specs.Reading.{AreReadable};
ghost use Rattle.pv_pattern.specs.Seen.{axiom_seen};
ghost use Rattle.pv_rounds.specs.Searching.{IsBegun, IsLeastGraph, Looks};

use crate::gates::CountingGate;
use crate::methods::least_of_two;
use crate::nodes::least_of_nodes;
use crate::showing::{all_nodes_text, looked_text, matches_answer, read_member};
use crate::tables::core_axioms;
use cases_graphs::graphs::{node_text, read_node};
use cases_words::answers::{Answer, List, NoAnswer, shown};
use cases_words::bench::{Bench, number, words};
use pv_alike::Least;
use pv_base::{Gate, MeetGate, OpenGate};
use pv_classes::Classes;
use pv_endings::endings;
use pv_graph::{Graph, NodeId};
use pv_match::{Match, Matches, matches, rematch};
use pv_pattern::Axiom;
use pv_pieces::Workers;
use pv_rounds::{Looked, Search};
use pv_scalar::scalar_axioms;
use pv_value::Memory;
use std::alloc::Global;
use std::thread::Threads;

// More matches than there are.
const MOST_MATCHES: &str = "1000000";

/// `search FIRST SECOND; STEP; .. | BEGINNING; STEP; ..`
pub fn search<R: Threads + Sync>(rt: &R, bench: &Bench, rest: &str) -> Answer {
    let alloc = bench.alloc();
    let (making, asking) = rest.split_once('|').ok_or(NoAnswer::Unreadable)?;
    let (nodes, steps) = making.split_once(';').ok_or(NoAnswer::Unreadable)?;
    let least = least_of_nodes(alloc, nodes, steps)?;
    searched(&Workers::new(rt, &OpenGate, 1), alloc, &least, asking)
}

/// `search-methods BYTES PLACE BYTES PLACE | BEGINNING; STEP; ..`
pub fn search_methods<R: Threads + Sync>(rt: &R, bench: &Bench, rest: &str) -> Answer {
    let alloc = bench.alloc();
    let (methods, asking) = rest.split_once('|').ok_or(NoAnswer::Unreadable)?;
    let least = least_of_two(bench, &words(alloc, methods)?)?;
    searched(&Workers::new(rt, &OpenGate, 1), alloc, &least, asking)
}

// What the steps of a search answer.
fn searched<R: Threads + Sync, G: Gate>(
    workers: &Workers<R, G>,
    alloc: Global,
    least: &Least,
    asking: &str,
) -> Answer
    requires { IsLeastGraph least.now.graph }
{
    let (beginning, steps) = asking.split_once(';').ok_or(NoAnswer::Unreadable)?;
    let table = core_axioms(alloc)?;
    let mut search = begin(alloc, least, &table, beginning)?;
    let mut list = List::new(alloc);
    for step in steps.split(';') {
        let words = words(alloc, step)?;
        let answer = search_step(workers, alloc, &mut search, &words)?;
        list.add(answer.as_str())?;
    }
    list.into_text()
}

fn begin<'a>(
    alloc: Global,
    least: &Least,
    table: &'a [Axiom],
    beginning: &str,
) -> Result<Search<'a>, NoAnswer>
    requires least { IsLeastGraph least.now.graph }
    requires table { AreAxioms (map axiom_seen table.now) }
    ensures { IfOk result (λ search. IsBegun search) }
{
    let words = words(alloc, beginning)?;
    let (budget, nodes) = match *words.as_slice() {
        [budget] => (budget, Vec::new(alloc)),
        [budget, "endings"] => (budget, endings(alloc, least.graph(), least.first())?),
        _ => return Err(NoAnswer::Unreadable),
    };
    let search = Search::new(alloc, least.graph(), table, nodes, number(budget)?)?;
    Ok(search)
}

fn search_step<R: Threads + Sync, G: Gate>(
    workers: &Workers<R, G>,
    alloc: Global,
    search: &mut Search,
    words: &[&str],
) -> Answer
    requires { IsBegun search.old }
    ensures { IfOk result (λ text. IsBegun search.new) }
{
    match *words {
        ["round"] => round(workers, alloc, search),
        _ => asked(workers, alloc, search, words),
    }
}

// What a step asks of a search.
fn asked<R: Threads + Sync, G: Gate>(
    workers: &Workers<R, G>,
    alloc: Global,
    search: &Search,
    words: &[&str],
) -> Answer
    requires { IsBegun search.now }
{
    match *words {
        ["look"] => looked_text(alloc, &search.look(workers, alloc)?),
        ["matches", limit] => all_matches(workers, alloc, search, limit),
        ["matches", limit, count] => all_matches(
            &workers_in(workers, count)?,
            alloc,
            search,
            limit,
        ),
        ["scalar", limit] => scalar_matches(workers, alloc, search, limit),
        ["scalar", limit, count] => scalar_matches(
            &workers_in(workers, count)?,
            alloc,
            search,
            limit,
        ),
        ["scalar-meets", limit, count, meetings] => scalar_meets(
            &workers_in(workers, count)?,
            alloc,
            search,
            limit,
            meetings,
        ),
        ["scalar-starts", limit] => scalar_starts(&workers.alone(), alloc, search, limit),
        ["scalar-again", limit, ref nodes @ ..] => scalar_again(
            &workers.alone(),
            alloc,
            search,
            limit,
            nodes,
        ),
        ["scalar-anew", limit] => scalar_anew(&workers.alone(), alloc, search, limit),
        ["endings"] => nodes_text(alloc, &search.endings),
        ["numbers"] => nodes_text(alloc, &search.classes.numbers(alloc)?),
        ["joined", first, second] => joined_text(alloc, &search.classes, first, second),
        _ => graph_text(alloc, &search.graph, words),
    }
}

// What a step asks of the graph of a search.
fn graph_text(alloc: Global, graph: &Graph, words: &[&str]) -> Answer {
    match *words {
        ["count"] => shown(alloc, graph.len()),
        ["node", n] => node_text(alloc, graph.node(read_node(graph, n)?)),
        ["nodes"] => all_nodes_text(alloc, graph),
        _ => Err(NoAnswer::Unreadable),
    }
}

// Looks, and makes a round where some match joins more.
fn round<R: Threads + Sync, G: Gate>(
    workers: &Workers<R, G>,
    alloc: Global,
    search: &mut Search,
) -> Answer
    requires { IsBegun search.old }
    ensures { IfOk result (λ text. IsBegun search.new) }
{
    let looked = search.look(workers, alloc)?;
    go_on(alloc, search, &looked)?;
    looked_text(alloc, &looked)
}

fn go_on(alloc: Global, search: &mut Search, looked: &Looked) -> Result<(), Memory>
    requires begun { IsBegun search.old }
    requires looked { Looks search.old looked.now }
    ensures { OnOk result (IsBegun search.new) }
{
    match looked {
        Looked::Open(list) => search.grow(alloc, list),
        _ => Ok(()),
    }
}

// As many workers as a word says, of which there is one at least.
fn workers_in<'a, R, G>(
    workers: &Workers<'a, R, G>,
    word: &str,
) -> Result<Workers<'a, R, G>, NoAnswer> {
    let count = number(word)?;
    if count == 0 {
        return Err(NoAnswer::Unreadable);
    }
    Ok(Workers::new(workers.rt, workers.gate, count))
}

// All matches by the axioms of the search.
fn all_matches<R: Threads + Sync, G: Gate>(
    workers: &Workers<R, G>,
    alloc: Global,
    search: &Search,
    limit: &str,
) -> Answer
    requires { IsBegun search.now }
{
    let answer = matches_by(workers, alloc, search, search.table, limit)?;
    matches_answer(alloc, &answer)
}

// All matches by the axioms on numbers, choices and tokens.
fn scalar_matches<R: Threads + Sync, G: Gate>(
    workers: &Workers<R, G>,
    alloc: Global,
    search: &Search,
    limit: &str,
) -> Answer
    requires { IsBegun search.now }
{
    let answer = matches_by_scalar(workers, alloc, search, limit)?;
    matches_answer(alloc, &answer)
}

// The same, by a gate for some meetings: whether each found its partner, how often the gate was passed, and the matches.
fn scalar_meets<R: Threads + Sync, G: Gate>(
    workers: &Workers<R, G>,
    alloc: Global,
    search: &Search,
    limit: &str,
    meetings: &str,
) -> Answer
    requires { IsBegun search.now }
{
    let gate = MeetGate::new(number(meetings)?);
    let meeting = Workers::new(workers.rt, &gate, workers.count());
    let text = scalar_matches(&meeting, alloc, search, limit)?;
    Ok(format!(in alloc; "{} {} {text}", gate.met(), gate.calls())?)
}

// How often matching by these axioms passes the gate as piece 0.
fn scalar_starts<R: Threads + Sync, G: Gate>(
    workers: &Workers<R, G>,
    alloc: Global,
    search: &Search,
    limit: &str,
) -> Answer
    requires { IsBegun search.now }
{
    let gate = CountingGate::new();
    let counting = Workers::new(workers.rt, &gate, workers.count());
    let _answer = matches_by_scalar(&counting, alloc, search, limit)?;
    shown(alloc, gate.count())
}

// All matches by these axioms, where all are known and some nodes are touched.
fn scalar_again<R: Threads + Sync, G: Gate>(
    workers: &Workers<R, G>,
    alloc: Global,
    search: &Search,
    limit: &str,
    nodes: &[&str],
) -> Answer
    requires { IsBegun search.now }
{
    let mut touched = Vec::new(alloc);
    for node in nodes {
        touched.push(read_node(&search.graph, node)?)?;
    }
    match matches_by_scalar(workers, alloc, search, MOST_MATCHES)? {
        Matches::All(known) => rematched(workers, alloc, search, limit, &known, &touched),
        Matches::More(_) => Err(NoAnswer::Unreadable),
    }
}

// All matches by these axioms, where none is known and all nodes are touched.
fn scalar_anew<R: Threads + Sync, G: Gate>(
    workers: &Workers<R, G>,
    alloc: Global,
    search: &Search,
    limit: &str,
) -> Answer
    requires { IsBegun search.now }
{
    let mut touched = Vec::new(alloc);
    for n in 0..search.graph.len() {
        touched.push(n)?;
    }
    rematched(workers, alloc, search, limit, &[], &touched)
}

// How often the gate is passed where these matches are known and these nodes are touched, and all matches by the axioms on numbers, choices
// and tokens.
fn rematched<R: Threads + Sync, G: Gate>(
    workers: &Workers<R, G>,
    alloc: Global,
    search: &Search,
    limit: &str,
    known: &[Match],
    touched: &[NodeId],
) -> Answer
    requires { IsBegun search.now }
{
    let gate = MeetGate::new(0);
    let counting = Workers::new(workers.rt, &gate, workers.count());
    let table = scalar_axioms(alloc)?;
    let answer = rematched_by(&counting, alloc, search, &table, limit, known, touched)?;
    let text = matches_answer(alloc, &answer)?;
    Ok(format!(in alloc; "{} {text}", gate.calls())?)
}

// All matches by a table, or that there are more than a limit, where these matches are known and these nodes are touched.
fn rematched_by<R: Threads + Sync, G: Gate>(
    workers: &Workers<R, G>,
    alloc: Global,
    search: &Search,
    table: &[Axiom],
    limit: &str,
    known: &[Match],
    touched: &[NodeId],
) -> Result<Matches, NoAnswer>
    requires begun { IsBegun search.now }
    requires readable { AreReadable (map axiom_seen table.now) }
    requires once { NumbersOnce (map axiom_seen table.now) }
{
    let limit = number(limit)?;
    let _count = search.graph.len();
    let answer = rematch(
        workers,
        alloc,
        &search.graph,
        &search.classes,
        &search.marks,
        table,
        known,
        touched,
        limit,
    )?;
    Ok(answer)
}

fn matches_by_scalar<R: Threads + Sync, G: Gate>(
    workers: &Workers<R, G>,
    alloc: Global,
    search: &Search,
    limit: &str,
) -> Result<Matches, NoAnswer>
    requires { IsBegun search.now }
{
    let table = scalar_axioms(alloc)?;
    matches_by(workers, alloc, search, &table, limit)
}

// All matches by a table, or that there are more than a limit.
fn matches_by<R: Threads + Sync, G: Gate>(
    workers: &Workers<R, G>,
    alloc: Global,
    search: &Search,
    table: &[Axiom],
    limit: &str,
) -> Result<Matches, NoAnswer>
    requires begun { IsBegun search.now }
    requires readable { AreReadable (map axiom_seen table.now) }
    requires once { NumbersOnce (map axiom_seen table.now) }
{
    let limit = number(limit)?;
    let _count = search.graph.len();
    let answer = matches(
        workers,
        alloc,
        &search.graph,
        &search.classes,
        &search.marks,
        table,
        limit,
    )?;
    Ok(answer)
}

fn joined_text(alloc: Global, classes: &Classes, first: &str, second: &str) -> Answer {
    let first = read_member(classes, first)?;
    let second = read_member(classes, second)?;
    shown(alloc, classes.joined(first, second))
}

fn nodes_text(alloc: Global, nodes: &[NodeId]) -> Answer {
    Ok(format!(in alloc; "{nodes:?}")?)
}
