//! What opens an induction: a depth of loops, and pairs of nodes of one sort.

ghost use Rattle.std.specs.Prelude.{◌≡◌, ◌↔◌, true, ℕ, IsTrue};
ghost use Rattle.std.specs.List.{AllByRecursion};
ghost use Rattle.pv_graph.specs.Graphs.{IsGraph};
ghost use Rattle.pv_graph.specs.Ops.{is_depth};
ghost use Rattle.pv_graph.specs.Walks.{In};
ghost use Rattle.pv_steps.specs.Right.{AreOfOneSort, IsFresh};
ghost use Rattle.pv_steps.specs.Steps.{blocks};
ghost use Rattle.pv_check.specs.Kept.{open_now};

use crate::seen::Seen;
use pv_graph::{Graph, NodeId};

// Whether the two nodes of a pair have one sort.
fn are_of_one_sort(graph: &Graph, pair: (NodeId, NodeId)) -> bool
    ensures { IsTrue result ↔ AreOfOneSort graph.now pair }
{
    let (left, right) = pair;
    let len = graph.len();
    if left >= len || right >= len {
        return false;
    }
    graph.sort(left) == graph.sort(right)
}

// Whether each pair is of two nodes of one sort.
fn all_of_one_sort(graph: &Graph, pairs: &[(NodeId, NodeId)]) -> bool
    ensures { IsTrue result ↔ AllByRecursion (AreOfOneSort graph.now) pairs.now }
{
    for pair in pairs {
        if !are_of_one_sort(graph, *pair) {
            return false;
        }
    }
    true
}

// Whether it is a depth of loops.
fn is_depth(depth: u32) -> bool
    ensures { result ≡ is_depth depth }
{
    1 <= depth && depth <= 16
}

impl Seen<'_> {
    fn can_open(&self, graph: &Graph, depth: u32, pairs: &[(NodeId, NodeId)]) -> bool
        ensures { IsTrue result ↔ ((is_depth depth ≡ true) × IsFresh depth (blocks (open_now self.now.steps.now)) × AllByRecursion (AreOfOneSort graph.now) pairs.now) }
    {
        is_depth(depth) && self.is_fresh_now(depth) && all_of_one_sort(graph, pairs)
    }

    // Whether an induction over the iterations of a depth can be opened for these pairs.
    pub(crate) fn is_open(&self, graph: &Graph, depth: u32, pairs: &[(NodeId, NodeId)]) -> bool
        ensures { IsTrue result ↔ ((is_depth depth ≡ true) × IsFresh depth (blocks (open_now self.now.steps.now)) × ((p : ℕ × ℕ) → In pairs.now p → AreOfOneSort graph.now p)) }
    {
        self.can_open(graph, depth, pairs)
    }
}
