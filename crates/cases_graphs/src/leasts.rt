//! Calls of `pv_alike`: two steps of a line `graph`, and a line.
//!
//! | Step | Answer |
//! |---|---|
//! | `least FIRST SECOND` | the nodes of the least graph of two nodes of a sealed graph, and the numbers of its roots |
//! | `become FIRST SECOND` | how many nodes that least graph has, which the graph becomes |
//!
//! | Line | Answer |
//! |---|---|
//! | `chain NODES` | of a chain of so many `ineg`s over a theta that is its own second kid: how many nodes the least graph of the last has, and its root |
//!
//! What `rules` doesn't pass can't be read.

use crate::graphs::{change, node_text, read_node};
use crate::rules::is_well_made;
use cases_words::answers::{Answer, NoAnswer, shown};
use cases_words::bench::{Bench, number, words};
use pv_alike::{Least, least};
use pv_graph::{Graph, GraphFault, NodeId, Op};
use pv_value::ScalarOp;
use std::alloc::Global;

// The steps to node 1, a theta over 0 that is its own second kid.
const THETA: &str = "int 0; begin 1 I; tie 1 0 1";

/// `least FIRST SECOND`
pub fn least_text(alloc: Global, graph: &Graph, first: &str, second: &str) -> Answer {
    let least = find(alloc, graph, first, second)?;
    let mut text = nodes_text(alloc, least.graph())?;
    let (first, second) = (least.first(), least.second());
    text.push_str(format!(in alloc; "roots {first} {second}")?.as_str())?;
    Ok(text)
}

/// `become FIRST SECOND`
pub fn become_least(alloc: Global, graph: &mut Graph, first: &str, second: &str) -> Answer {
    let least = find(alloc, graph, first, second)?;
    *graph = least.graph().copy(alloc)?;
    shown(alloc, graph.len())
}

// The least graph of two nodes.
fn find(alloc: Global, graph: &Graph, first: &str, second: &str) -> Result<Least, NoAnswer> {
    let first = read_node(graph, first)?;
    let second = read_node(graph, second)?;
    if graph.is_open() || !is_well_made(graph) {
        return Err(NoAnswer::Unreadable);
    }
    Ok(least(alloc, graph, first, second)?)
}

// The nodes, each with a comma after it.
fn nodes_text(alloc: Global, graph: &Graph) -> Answer {
    let mut text = String::new(alloc);
    for n in 0..graph.len() {
        text.push_str(node_text(alloc, graph.node(n))?.as_str())?;
        text.push_str(", ")?;
    }
    Ok(text)
}

/// `chain NODES`
pub fn chain(bench: &Bench, rest: &str) -> Answer {
    let alloc = bench.alloc();
    let mut graph = Graph::new(alloc);
    for step in THETA.split(';') {
        change(alloc, &mut graph, &words(alloc, step)?)?;
    }
    let mut last = 1;
    for _ in 0..number::<u32>(rest)? {
        last = negated(alloc, &mut graph, last)?;
    }
    change(alloc, &mut graph, &["seal"])?;
    graph.prepare(alloc)?;
    end_text(alloc, &graph, last)
}

// The number of an `ineg` over a node.
fn negated(alloc: Global, graph: &mut Graph, n: NodeId) -> Result<NodeId, NoAnswer> {
    if n >= graph.len() {
        return Err(NoAnswer::Unreadable);
    }
    match graph.add(alloc, Op::Scalar(ScalarOp::Ineg), &[n]) {
        Ok(n) => Ok(n),
        Err(GraphFault::Sort) => Err(NoAnswer::Unreadable),
        Err(GraphFault::Memory) => Err(NoAnswer::Memory),
    }
}

// How many nodes the least graph of a node has, and its root.
fn end_text(alloc: Global, graph: &Graph, last: NodeId) -> Answer {
    if last >= graph.len() || graph.is_open() || !is_well_made(graph) {
        return Err(NoAnswer::Unreadable);
    }
    let least = least(alloc, graph, last, last)?;
    let (nodes, root) = (least.graph().len(), least.first());
    Ok(format!(in alloc; "{nodes} nodes, root {root}")?)
}
