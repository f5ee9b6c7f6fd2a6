//! What a search keeps of its last round.

ghost use Rattle.std.specs.Prelude.{◌≤◌, IfOk, length};
ghost use Rattle.pv_marks.specs.Marks.{AreClasses};
ghost use Rattle.pv_rounds.specs.Last.{AreCopies, Keeps};

use pv_graph::{Graph, NodeId};
use pv_marks::class_marks;
use pv_match::Match;
use pv_value::Memory;
use std::alloc::Global;

/// All matches of the last round, and the number of each node's class and the mark of each class, as they were.
#[derive(Drop)]
pub struct Last {
    pub(crate) list: Vec<Match>,
    pub(crate) numbers: Vec<NodeId>,
    pub(crate) marks: Vec<u32>,
}

// Equal matches.
fn copies(alloc: Global, list: &[Match]) -> Result<Vec<Match>, Memory>
    ensures { IfOk result (λ copies. AreCopies list.now copies.items) }
{
    let mut copies = Vec::new(alloc);
    for x in list {
        let copy = x.copy(alloc)?;
        copies.push(copy)?;
    }
    Ok(copies)
}

/// Keeps all matches of a round, with the class numbers, and the marks of the classes by those of the base.
pub(crate) fn keep(
    alloc: Global,
    graph: &Graph,
    numbers: &[NodeId],
    base: &[u32],
    list: &[Match],
) -> Result<Last, Memory>
    requires classes { AreClasses graph.now numbers.now }
    requires base { length base.now ≤ length graph.now.nodes }
    ensures { IfOk result (Keeps graph.now numbers.now base.now list.now) }
{
    Ok(Last {
        list: copies(alloc, list)?,
        numbers: Vec::from_slice(alloc, numbers)?,
        marks: class_marks(alloc, graph, numbers, base)?,
    })
}
