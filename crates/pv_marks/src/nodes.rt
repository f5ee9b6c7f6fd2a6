//! The marks of the nodes of a base.

ghost use Rattle.std.specs.Prelude.{◌≡◌, ◌≤◌, length, IfOk, OnOk, vec_len};
ghost use Rattle.pv_marks.specs.Marks.{AreNodeMarks};
ghost use Rattle.pv_marks.specs.Sweep.{AreMarksBelow, BeginsMark, MarksDepth};

use crate::bits::with_depth;
use pv_graph::{Graph, NodeId};
use pv_value::Memory;
use std::alloc::Global;

// The mark of a node that says whether it is settled, and nothing of depths.
fn first_mark(settled: bool) -> u32
    ensures { BeginsMark settled result }
{
    if settled { 1 } else { 0 }
}

// Marks of all nodes that say which of them are settled, and nothing of depths.
fn settled_bits(alloc: Global, graph: &Graph, assumed: &[NodeId]) -> Result<Vec<u32>, Memory>
    ensures { IfOk result (λ marks. AreMarksBelow graph.now assumed.now 1 marks.items) }
{
    let settled = graph.settled_marks(alloc, assumed)?;
    let mut marks = Vec::new(alloc);
    for yes in &settled {
        marks.push(first_mark(*yes))?;
    }
    Ok(marks)
}

// Says in the marks of all nodes in which of them a depth isn't free, where the lesser depths are done.
fn mark_depth(alloc: Global, graph: &Graph, d: u32, marks: &mut Vec<u32>) -> Result<(), Memory>
    requires least { 1 ≤ d }
    requires greatest { d ≤ 16 }
    requires long { vec_len marks.old ≡ length graph.now.nodes }
    ensures long { vec_len marks.new ≡ vec_len marks.old }
    ensures marks { OnOk result (MarksDepth graph.now d marks.old.items marks.new.items) }
{
    let free = graph.free_marks(alloc, d)?;
    for n in 0..free.len() {
        if !free[n] {
            marks[n] = with_depth(marks[n], d);
        }
    }
    Ok(())
}

/// The marks of the nodes of a graph that is all base, with some nodes assumed to end. Its time is linear in the number of
/// nodes, kids and assumed nodes.
pub fn node_marks(alloc: Global, graph: &Graph, assumed: &[NodeId]) -> Result<Vec<u32>, Memory>
    requires { graph.now.base ≡ length graph.now.nodes }
    ensures { IfOk result (λ marks. AreNodeMarks graph.now assumed.now marks.items) }
{
    let mut marks = settled_bits(alloc, graph, assumed)?;
    for d in 1..17 {
        mark_depth(alloc, graph, d, &mut marks)?;
    }
    Ok(marks)
}
