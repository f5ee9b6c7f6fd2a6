//! The loops of a graph that count up.

ghost use Rattle.std.specs.Prelude.{◌≡◌, ◌<◌, ℕ, true, length, IfOk, MatchOption};
ghost use Rattle.pv_graph.specs.Graphs.{form_at, IsGraph};
ghost use Rattle.pv_counted.specs.Counted.{CountsUp};
ghost use Rattle.pv_counted.specs.Recognized.{IsTestFrom, IsLoop, IsLoopThatStays};
ghost use Rattle.pv_counted.specs.Rounds.{AreLoops};

use crate::recognized::{counter_start, kids_of, test_of};
use pv_graph::{Graph, NodeId, Op};
use pv_value::Memory;
use std::alloc::Global;

/// The pass of a loop that counts up, with its start and its bound.
#[derive(Clone, Copy)]
pub(crate) struct Loop {
    pub(crate) pass: NodeId,
    pub(crate) start: NodeId,
    pub(crate) bound: NodeId,
}

// The depth of a pass.
fn pass_depth(op: &Op) -> Option<u32>
    ensures { MatchOption result ((depth : ℕ) → op.now ≡ Op.Pass depth → ⊥) (λ depth. op.now ≡ Op.Pass depth) }
{
    match op {
        Op::Pass(depth) => Some(*depth),
        _ => None,
    }
}

// The start and the bound of the loop of this depth that has this test.
fn start_and_bound(g: &Graph, depth: u32, test: NodeId) -> Option<(NodeId, NodeId)>
    requires graph { IsGraph g.now }
    requires there { test < length g.now.nodes }
    ensures { MatchOption result ((start bound : ℕ) → IsTestFrom g.now depth test start bound → ⊥) (λ r. IsTestFrom g.now depth test r.0 r.1) }
{
    match test_of(g, test) {
        Some((counter, bound)) => match counter_start(g, depth, counter) {
            Some(start) => Some((start, bound)),
            None => None,
        },
        None => None,
    }
}

// The start and the bound of the loop of this depth whose pass is p.
fn loop_at(g: &Graph, p: NodeId, depth: u32) -> Option<(NodeId, NodeId)>
    requires graph { IsGraph g.now }
    requires there { p < length g.now.nodes }
    ensures { MatchOption result ((start bound : ℕ) → IsLoop g.now p depth start bound → ⊥) (λ r. IsLoop g.now p depth r.0 r.1) }
{
    match kids_of(g, p, &Op::Pass(depth)) {
        Some([test]) => start_and_bound(g, depth, *test),
        _ => None,
    }
}

// The loop of this depth whose pass is p, if it doesn't change its bound; on a prepared graph.
fn staying(g: &Graph, p: NodeId, depth: u32) -> Option<Loop>
    requires graph { IsGraph g.now }
    requires prepared { g.now.is_prepared ≡ true }
    requires there { p < length g.now.nodes }
    ensures { MatchOption result ((start bound : ℕ) → IsLoopThatStays g.now p depth start bound → ⊥) (λ l. (l.pass ≡ p) × IsLoopThatStays g.now p depth l.start l.bound) }
{
    match loop_at(g, p, depth) {
        Some((start, bound)) if !g.free_now(bound, depth) => Some(Loop {
            pass: p,
            start,
            bound,
        }),
        _ => None,
    }
}

// The loop that counts up whose pass is p; on a prepared graph.
fn loop_of(g: &Graph, p: NodeId) -> Option<Loop>
    requires graph { IsGraph g.now }
    requires prepared { g.now.is_prepared ≡ true }
    requires there { p < length g.now.nodes }
    ensures { MatchOption result ((start bound : ℕ) → CountsUp (form_at g.now.nodes) p start bound → ⊥) (λ l. (l.pass ≡ p) × CountsUp (form_at g.now.nodes) p l.start l.bound) }
{
    match pass_depth(&g.node(p).op) {
        Some(depth) => staying(g, p, depth),
        None => None,
    }
}

/// All loops that count up, by ascending passes; on a prepared graph. Its time is linear in the number
/// of nodes.
pub(crate) fn loops_of(alloc: Global, g: &Graph) -> Result<Vec<Loop>, Memory>
    requires { g.now.is_prepared ≡ true }
    ensures { IfOk result (λ loops. AreLoops g.now.nodes (length g.now.nodes) loops.items) }
{
    let mut loops = Vec::new(alloc);
    for p in 0..g.len() {
        if let Some(found) = loop_of(g, p) {
            loops.push(found)?;
        }
    }
    Ok(loops)
}
