//! The counted nodes of a least graph.

ghost use Rattle.std.specs.Prelude.{IfOk};
ghost use Rattle.pv_counted.specs.Counted.{AreCounted, IsAscending};

use crate::loops::loops_of;
use crate::rounds::rounds;
use pv_alike::Least;
use pv_graph::NodeId;
use pv_value::Memory;
use std::alloc::Global;

/// The counted nodes of a least graph, ascending. Out of memory is the one error. There is at most one
/// round more than there are loops that count up, and the time of each is linear in the number of nodes
/// and kids.
pub fn counted(alloc: Global, l: &Least) -> Result<Vec<NodeId>, Memory>
    ensures all { IfOk result (λ counted. AreCounted l.now.graph.nodes counted.items) }
    ensures ascending { IfOk result (λ counted. IsAscending counted.items) }
{
    let mut g = l.graph().copy(alloc)?;
    g.prepare(alloc)?;
    let loops = loops_of(alloc, &g)?;
    rounds(alloc, &g, &loops)
}
