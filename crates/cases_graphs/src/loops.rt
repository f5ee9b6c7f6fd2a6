//! Calls of `pv_loops`.
//!
//! | Line | Answer |
//! |---|---|
//! | `loops TARGETS ..` | the loops of the shape whose nodes have edges to these targets, and the home of each node; or that it is irreducible, with the steps; or how deep its loops nest |
//!
//! TARGETS are numbers with commas between them, or `-` for none. A loop is written as its header, its depth, the place of
//! the loop around it, and its members: `1 depth 1 in - of 1,2`; homes are places of loops.

ghost use Rattle.std.specs.Prelude.{◌<◌, IsTrue};
ghost use Rattle.std.specs.List.{All};
ghost use Rattle.pv_loops.specs.Shapes.{IsShape};

use cases_words::answers::{Answer, List, NoAnswer, said, shown};
use cases_words::bench::{Bench, number};
use pv_loops::{Forest, LoopFault, Shape, reduce};
use std::alloc::Global;

// More nodes than a line has.
const LIMIT: usize = 1_000_000;

/// `loops TARGETS ..`
pub fn loops(bench: &Bench, rest: &str) -> Answer {
    let alloc = bench.alloc();
    let mut edges = Vec::new(alloc);
    for targets in rest.split_whitespace() {
        edges.push(read_targets(alloc, targets)?)?;
    }
    if edges.len() >= LIMIT {
        return Err(NoAnswer::Unreadable);
    }
    let shape = Shape::new(edges);
    if !is_shape(&shape) {
        return Err(NoAnswer::Unreadable);
    }
    match reduce(alloc, &shape) {
        Ok(forest) => forest_text(alloc, &forest),
        Err(LoopFault::Irreducible(steps)) => Ok(format!(in alloc; "irreducible {steps:?}")?),
        Err(LoopFault::Deep(depth)) => Ok(format!(in alloc; "deep {depth}")?),
        Err(LoopFault::Memory) => Err(NoAnswer::Memory),
    }
}

fn read_targets(alloc: Global, word: &str) -> Result<Vec<u32>, NoAnswer> {
    let mut targets = Vec::new(alloc);
    if word == "-" {
        return Ok(targets);
    }
    for target in word.split(',') {
        targets.push(number(target)?)?;
    }
    Ok(targets)
}

/// Whether there is an entry, and each target is a node.
pub(crate) fn is_shape(shape: &Shape) -> bool
    ensures { IsTrue result → IsShape shape.now }
{
    let nodes = shape.len();
    if nodes == 0 {
        return false;
    }
    for n in 0..nodes {
        if !are_below(nodes, shape.targets(n)) {
            return false;
        }
    }
    true
}

fn are_below(nodes: u32, targets: &[u32]) -> bool
    ensures { IsTrue result → All (λ t. t < nodes) targets.now }
{
    targets.iter().all(|target| *target < nodes)
}

fn forest_text(alloc: Global, forest: &Forest) -> Answer {
    let mut list = List::new(alloc);
    for one in &forest.loops {
        let parent = place_text(alloc, one.parent)?;
        let members = numbers_text(alloc, &one.members)?;
        let (header, depth) = (one.header, one.depth);
        let text = format!(in alloc; "{header} depth {depth} in {parent} of {members}")?;
        list.add(text.as_str())?;
    }
    let homes = homes_text(alloc, &forest.home)?;
    list.add(format!(in alloc; "homes {homes}")?.as_str())?;
    list.into_text()
}

// The place of a loop, `-` for none.
fn place_text(alloc: Global, place: Option<u32>) -> Answer {
    match place {
        None => said(alloc, "-"),
        Some(place) => shown(alloc, place),
    }
}

// Numbers with commas between them.
fn numbers_text(alloc: Global, numbers: &[u32]) -> Answer {
    let mut text = String::new(alloc);
    for n in numbers {
        if !text.is_empty() {
            text.push(',')?;
        }
        text.push_str(shown(alloc, *n)?.as_str())?;
    }
    Ok(text)
}

fn homes_text(alloc: Global, homes: &[Option<u32>]) -> Answer {
    let mut text = String::new(alloc);
    for home in homes {
        if !text.is_empty() {
            text.push(',')?;
        }
        text.push_str(place_text(alloc, *home)?.as_str())?;
    }
    Ok(text)
}
