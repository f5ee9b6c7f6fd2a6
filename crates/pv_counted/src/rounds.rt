//! Rounds that find more and more counted nodes, until one finds no new one.

ghost use Rattle.std.specs.Prelude.{◌≡◌, ◌↔◌, ◌<◌, ◌≤◌, ℕ, length, IsTrue, IfOk, map, slice_index_or, false, vec_len};
ghost use Rattle.std.specs.List.{filter};
ghost use Rattle.pv_counted.specs.Counted.{AreCounted, IsAscending};
ghost use Rattle.pv_counted.specs.Rounds.{AreLoops, IsRound, pass_of, is_ready};

use crate::loops::Loop;
use pv_graph::{Graph, NodeId};
use pv_value::Memory;
use std::alloc::Global;

// The mark of a node.
fn is_marked(marks: &[bool], n: NodeId) -> bool
    ensures { result ≡ slice_index_or marks.now n false }
{
    let n = n as usize;
    if n < marks.len() { marks[n] } else { false }
}

// Whether the start and the bound of a loop are marked.
fn is_ready(marks: &[bool], l: &Loop) -> bool
    ensures { result ≡ is_ready marks.now l.now }
{
    is_marked(marks, l.start) && is_marked(marks, l.bound)
}

// The passes of the loops whose start and bound are marked.
fn ready(alloc: Global, loops: &[Loop], marks: &[bool]) -> Result<Vec<NodeId>, Memory>
    ensures { IfOk result (λ passes. passes.items ≡ map pass_of (filter (is_ready marks.now) loops.now)) }
{
    let passes = loops
        .iter()
        .filter(|l| is_ready(marks, l))
        .map(|l| l.pass)
        .collect(alloc)?;
    Ok(passes)
}

// The loops whose start and bound are settled with the found nodes assumed.
fn round(alloc: Global, g: &Graph, loops: &[Loop], found: &[NodeId]) -> Result<Vec<NodeId>, Memory>
    requires { AreLoops g.now.nodes (length g.now.nodes) loops.now }
    ensures next { IfOk result (λ next. IsRound g.now.nodes found.now next.items) }
    ensures few { IfOk result (λ next. vec_len next ≤ length loops.now) }
{
    let settled = g.settled_marks(alloc, found)?;
    ready(alloc, loops, &settled)
}

/// The counted nodes, ascending, of a graph of which these are the loops that count up. There is at most
/// one round more than there are loops, and the time of each is linear in the number of nodes and kids.
pub(crate) fn rounds(alloc: Global, g: &Graph, loops: &[Loop]) -> Result<Vec<NodeId>, Memory>
    requires { AreLoops g.now.nodes (length g.now.nodes) loops.now }
    ensures all { IfOk result (λ found. AreCounted g.now.nodes found.items) }
    ensures ascending { IfOk result (λ found. IsAscending found.items) }
{
    let mut found = Vec::new(alloc);
    loop {
        let next = round(alloc, g, loops, &found)?;
        if next.len() <= found.len() {
            return Ok(found);
        }
        found = next;
    }
}
