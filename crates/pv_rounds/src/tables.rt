//! The witnesses of all conditions that some matches ask.

ghost use Rattle.std.specs.Prelude.{◌≡◌, ◌<◌, ◌≤◌, ℕ, false, IfOk, map};
ghost use Rattle.pv_graph.specs.Graphs.{IsGraph};
ghost use Rattle.pv_heights.specs.Searches.{OneClass};
ghost use Rattle.pv_instances.specs.Classes.{JoinedHaveOneSort};
ghost use Rattle.pv_witness.specs.Numbered.{AreNumbered, numbered};
ghost use Rattle.pv_saturate.specs.Decoding.{decoded_seen};
ghost use Rattle.pv_rounds.specs.Tables.{MakesNotFree, MakesTable, MakesTables, not_free_at};

use crate::asking::{deepest, some_not_free, some_settled};
use pv_graph::{Graph, NodeId};
use pv_saturate::{Decoded, Witnesses};
use pv_value::Memory;
use pv_witness::{Condition, marks, witnesses};
use std::alloc::Global;

/// The witnesses of all conditions that some matches ask: of settled classes, and for each depth of the classes in which it
/// isn't free. A table that no match asks for is empty.
#[derive(Drop)]
pub struct AllWitnesses {
    settled: Vec<Option<NodeId>>,
    not_free: Vec<Vec<Option<NodeId>>>,
}

impl AllWitnesses {
    /// The witnesses for a match with this depth.
    pub(crate) fn at(&self, depth: u32) -> Witnesses<'_>
        ensures settled { result.settled.now ≡ self.now.settled.items }
        ensures not_free { result.not_free.now ≡ not_free_at self.now depth }
    {
        let not_free: &[Option<NodeId>] = match self.not_free.get(depth as usize) {
            Some(table) => table,
            None => &[],
        };
        Witnesses {
            settled: &self.settled,
            not_free,
        }
    }
}

// The witnesses of a condition, where it is asked.
fn table_for(
    alloc: Global,
    graph: &mut Graph,
    numbers: &[NodeId],
    assumed: &[NodeId],
    condition: Condition,
    is_asked: bool,
) -> Result<Vec<Option<NodeId>>, Memory>
    requires sealed { graph.old.is_open ≡ false }
    requires numbered { AreNumbered graph.old numbers.now }
    requires sorts { JoinedHaveOneSort (numbered graph.old numbers.now) (OneClass numbers.now) }
    ensures { IfOk result (λ table. MakesTable (numbered graph.old numbers.now) graph.old graph.new numbers.now assumed.now condition is_asked table.items) }
{
    let _count = graph.len();
    if !is_asked {
        return Ok(Vec::new(alloc));
    }
    let starts = marks(alloc, graph, numbers, condition, assumed)?;
    witnesses(alloc, graph, numbers, condition, &starts)
}

// For each depth that some matches ask for the witnesses of the classes in which it isn't free.
fn not_free_tables(
    alloc: Global,
    graph: &mut Graph,
    numbers: &[NodeId],
    assumed: &[NodeId],
    list: &[Decoded],
) -> Result<Vec<Vec<Option<NodeId>>>, Memory>
    requires sealed { graph.old.is_open ≡ false }
    requires numbered { AreNumbered graph.old numbers.now }
    requires sorts { JoinedHaveOneSort (numbered graph.old numbers.now) (OneClass numbers.now) }
    ensures { IfOk result (λ tables. MakesNotFree (numbered graph.old numbers.now) graph.old graph.new numbers.now assumed.now (map decoded_seen list.now) tables.items) }
{
    let _count = graph.len();
    let mut tables = Vec::new(alloc);
    for d in 0..deepest(list) as u64 + 1 {
        let _here = graph.len();
        let depth = d as u32;
        let is_asked = some_not_free(list, depth);
        tables.push(table_for(
            alloc,
            graph,
            numbers,
            assumed,
            Condition::NotFree(depth),
            is_asked,
        )?)?;
    }
    Ok(tables)
}

/// The witnesses of all conditions that some matches ask, with some nodes assumed to end. The class numbers are those of the first
/// nodes. After `Memory` nothing is promised of the graph.
pub(crate) fn all_witnesses(
    alloc: Global,
    graph: &mut Graph,
    numbers: &[NodeId],
    assumed: &[NodeId],
    list: &[Decoded],
) -> Result<AllWitnesses, Memory>
    requires sealed { graph.old.is_open ≡ false }
    requires numbered { AreNumbered graph.old numbers.now }
    requires sorts { JoinedHaveOneSort (numbered graph.old numbers.now) (OneClass numbers.now) }
    ensures { IfOk result (λ w. MakesTables (numbered graph.old numbers.now) graph.old graph.new numbers.now assumed.now (map decoded_seen list.now) w) }
{
    let _count = graph.len();
    let is_asked = some_settled(list);
    let settled = table_for(alloc, graph, numbers, assumed, Condition::Settled, is_asked)?;
    let _here = graph.len();
    let not_free = not_free_tables(alloc, graph, numbers, assumed, list)?;
    Ok(AllWitnesses { settled, not_free })
}
