//! Calls of `pv_match` over classes that are joined by hand.
//!
//! | Line | Answer |
//! |---|---|
//! | `matches FIRST SECOND; STEP; .. \| LIMIT PAIR ..` | all matches by the axioms of the core, or that there are more than the limit, as the step `matches` of a search writes them: over the least graph of two nodes, as a line `search` makes it, in which the two nodes of each pair, as `3=5`, were joined and the classes closed with all inductions |

ghost use Rattle.std.specs.Prelude.{◌<◌, IfOk, OnOk, length};
ghost use Rattle.pv_classes.specs.Calls.{Knows};
ghost use Rattle.pv_rounds.specs.Searching.{IsLeastGraph};

use crate::nodes::least_of_nodes;
use crate::showing::{matches_answer, read_member};
use crate::tables::core_axioms;
use cases_words::answers::{Answer, NoAnswer};
use cases_words::bench::{Bench, number, words};
use pv_base::{Gate, OpenGate};
use pv_classes::{Classes, Reason};
use pv_graph::{Graph, Kids};
use pv_induct::induct;
use pv_marks::node_marks;
use pv_match::matches;
use pv_pieces::Workers;
use std::alloc::Global;
use std::thread::Threads;

/// `matches FIRST SECOND; STEP; .. | LIMIT PAIR ..`
pub fn joined_matches<R: Threads + Sync>(rt: &R, bench: &Bench, rest: &str) -> Answer {
    let alloc = bench.alloc();
    let (making, asking) = rest.split_once('|').ok_or(NoAnswer::Unreadable)?;
    let (nodes, steps) = making.split_once(';').ok_or(NoAnswer::Unreadable)?;
    let words = words(alloc, asking)?;
    let [limit, pairs @ ..] = words.as_slice() else {
        return Err(NoAnswer::Unreadable);
    };
    let least = least_of_nodes(alloc, nodes, steps)?;
    let workers = Workers::new(rt, &OpenGate, 1);
    matches_over(&workers, alloc, least.graph(), number(limit)?, pairs)
}

// The matches over a least graph with these pairs joined.
fn matches_over<R: Threads + Sync, G: Gate>(
    workers: &Workers<R, G>,
    alloc: Global,
    graph: &Graph,
    limit: usize,
    pairs: &[&str],
) -> Answer
    requires { IsLeastGraph graph.now }
{
    let table = core_axioms(alloc)?;
    let marks = node_marks(alloc, graph, &[])?;
    let mut classes = Classes::new(alloc, graph)?;
    join_pairs(alloc, graph, &mut classes, pairs)?;
    let _counts = (graph.len(), classes.len());
    induct(alloc, graph, &mut classes)?;
    let answer = matches(workers, alloc, graph, &classes, &marks, &table, limit)?;
    matches_answer(alloc, &answer)
}

// Joins the two nodes of each pair.
fn join_pairs(
    alloc: Global,
    graph: &Graph,
    classes: &mut Classes,
    pairs: &[&str],
) -> Result<(), NoAnswer>
    requires { Knows graph.now.nodes classes.old }
    ensures { OnOk result (Knows graph.now.nodes classes.new) }
{
    for pair in pairs {
        let (first, second) = pair.split_once('=').ok_or(NoAnswer::Unreadable)?;
        let first = read_member(classes, first)?;
        let second = read_member(classes, second)?;
        // (by hand: no axiom has the number 0)
        let why = Reason::Axiom(0, Kids::new(alloc, &[])?);
        classes.join(alloc, first, second, why)?;
    }
    Ok(())
}
