//! Calls of `pv_graph` that make a base at once.
//!
//! | Line | Answer |
//! |---|---|
//! | `base OPERATION KID ..; ..` | how many nodes the sealed graph with this base has, or the fault |
//!
//! `graphs` says how an OPERATION is written. A kid may be any number. What `rules` doesn't pass can't be read.

use crate::graphs::{fault_text, read_numbers, read_op};
use crate::rules::{are_distinct, rise};
use cases_words::answers::{Answer, NoAnswer};
use cases_words::bench::{Bench, words};
use pv_graph::{Graph, Kids, Node};
use std::alloc::Global;

/// `base OPERATION KID ..; ..`
pub fn base(bench: &Bench, rest: &str) -> Answer {
    let alloc = bench.alloc();
    let mut nodes = Vec::new(alloc);
    for step in rest.split(';') {
        nodes.push(read_operation(alloc, &words(alloc, step)?)?)?;
    }
    if !rise(&nodes) || !are_distinct(&nodes) {
        return Err(NoAnswer::Unreadable);
    }
    match Graph::of_base(alloc, nodes) {
        Ok(graph) => {
            let nodes = graph.len();
            Ok(format!(in alloc; "{nodes} nodes")?)
        }
        Err(fault) => fault_text(alloc, fault),
    }
}

// The operation over kids that words write.
fn read_operation(alloc: Global, words: &[&str]) -> Result<Node, NoAnswer> {
    let (op, kids) = read_op(alloc, words)?;
    let kids = Kids::new(alloc, &read_numbers(alloc, kids)?)?;
    Ok(Node { op, kids })
}
