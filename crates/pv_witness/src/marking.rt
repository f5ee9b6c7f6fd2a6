//! Marks of the nodes of which a condition holds.

ghost use Rattle.std.specs.Prelude.{◌≡◌, IfOk, false, length, map, not};
ghost use Rattle.pv_graph.specs.Calls.{AreMarksOf};
ghost use Rattle.pv_witness.specs.Conditions.{AreStartsOver, HoldsOfNode};
ghost use Rattle.pv_witness.specs.Numbered.{AreNumbered};

use crate::condition::Condition;
use pv_graph::{Graph, NodeId};
use pv_value::Memory;
use std::alloc::{AllocError, Global};

fn negated(alloc: Global, marks: &[bool]) -> Result<Vec<bool>, AllocError>
    ensures { IfOk result (λ v. v.items ≡ map not marks.now) }
{
    let mut negated = Vec::new(alloc);
    for mark in marks {
        negated.push(!*mark)?;
    }
    Ok(negated)
}

// For each node whether the condition holds of it.
fn all_marks(
    alloc: Global,
    graph: &Graph,
    condition: Condition,
    assumed: &[NodeId],
) -> Result<Vec<bool>, Memory>
    ensures { IfOk result (λ marks. AreMarksOf graph.now (HoldsOfNode graph.now assumed.now condition) marks.items) }
{
    match condition {
        Condition::Settled => graph.settled_marks(alloc, assumed),
        Condition::NotFree(depth) => {
            let free = graph.free_marks(alloc, depth)?;
            Ok(negated(alloc, &free)?)
        }
    }
}

/// For each node with a class number whether the condition holds of it, with some nodes assumed to end: the marks by
/// which `witnesses` starts. Its time is linear in the number of nodes, kids and assumed nodes.
pub fn marks(
    alloc: Global,
    graph: &Graph,
    numbers: &[NodeId],
    condition: Condition,
    assumed: &[NodeId],
) -> Result<Vec<bool>, Memory>
    requires sealed { graph.now.is_open ≡ false }
    requires numbered { AreNumbered graph.now numbers.now }
    ensures long { IfOk result (λ marks. length marks.items ≡ length numbers.now) }
    ensures starts { IfOk result (λ marks. AreStartsOver graph.now numbers.now assumed.now condition marks.items) }
{
    let _count = graph.len();
    let mut marks = all_marks(alloc, graph, condition, assumed)?;
    marks.truncate(numbers.len());
    Ok(marks)
}
