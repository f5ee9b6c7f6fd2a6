//! The witnesses of classes, made as nodes of a graph.

ghost use Rattle.std.specs.Prelude.{◌≡◌, ◌<◌, ℕ, false, length, slice_get, Some, IfOk};
ghost use Rattle.pv_graph.specs.Walks.{In};
ghost use Rattle.pv_heights.specs.Searches.{OneClass};
ghost use Rattle.pv_instances.specs.Classes.{JoinedHaveOneSort};
ghost use Rattle.pv_marks.specs.Classes.{class_of};
ghost use Rattle.pv_witness.specs.Numbered.{AreNumbered, numbered};
ghost use Rattle.pv_witness.specs.Supports.{AreAllSupports};
ghost use Rattle.pv_witness.specs.Table.{AreChosen, AreWitnessed, FitsAgain, HasNumberedKids, IsChosen, IsMadeAgain, IsTaken};
ghost use Rattle.pv_witness.specs.Witnesses.{AreWitnesses};

use crate::condition::Condition;
use crate::supports::supports;
use pv_graph::{Graph, NodeId};
use pv_instances::add_fitting;
use pv_value::Memory;
use std::alloc::{AllocError, Global};

// The witness of the class of a node; where there is none, the node itself.
fn chosen(numbers: &[NodeId], table: &[Option<NodeId>], k: NodeId) -> NodeId
    requires there { k < length numbers.now }
    requires class { class_of numbers.now k < length table.now }
    ensures { IsChosen numbers.now table.now k result }
{
    match table[numbers[k as usize] as usize] {
        Some(witness) => witness,
        None => k,
    }
}

// The witnesses of the classes of these nodes; where there is none, the node itself.
fn all_chosen(
    alloc: Global,
    numbers: &[NodeId],
    table: &[Option<NodeId>],
    kids: &[NodeId],
) -> Result<Vec<NodeId>, AllocError>
    requires kids { (k : ℕ) → In kids.now k → k < length numbers.now }
    requires numbers { (k : ℕ) → In kids.now k → class_of numbers.now k < length table.now }
    ensures { IfOk result (λ nodes. AreChosen numbers.now table.now kids.now nodes.items) }
{
    let mut nodes = Vec::new(alloc);
    for kid in kids {
        nodes.push(chosen(numbers, table, *kid))?;
    }
    Ok(nodes)
}

// A node again, over the witnesses of its kids' classes.
fn again(
    alloc: Global,
    graph: &mut Graph,
    numbers: &[NodeId],
    table: &[Option<NodeId>],
    n: NodeId,
) -> Result<NodeId, Memory>
    requires sealed { graph.old.is_open ≡ false }
    requires there { n < length graph.old.nodes }
    requires kids { HasNumberedKids graph.old numbers.now table.now n }
    requires fits { FitsAgain graph.old numbers.now table.now n }
    ensures { IfOk result (λ m. IsMadeAgain graph.old graph.new numbers.now table.now n m) }
{
    let node = graph.node(n);
    let over = all_chosen(alloc, numbers, table, node.kids.as_slice())?;
    let op = node.op.copy(alloc)?;
    add_fitting(alloc, graph, op, &over)
}

// The witness that a support gives its class.
fn witness_of(
    alloc: Global,
    graph: &mut Graph,
    numbers: &[NodeId],
    starts: &[bool],
    table: &[Option<NodeId>],
    n: NodeId,
) -> Result<NodeId, Memory>
    requires sealed { graph.old.is_open ≡ false }
    requires there { n < length graph.old.nodes }
    requires starts { n < length starts.now }
    requires kids { HasNumberedKids graph.old numbers.now table.now n }
    requires fits { FitsAgain graph.old numbers.now table.now n }
    ensures { IfOk result (λ m. IsTaken graph.old graph.new numbers.now starts.now table.now n m) }
{
    if starts[n as usize] {
        Ok(n)
    } else {
        again(alloc, graph, numbers, table, n)
    }
}

// No witnesses.
fn no_witnesses(alloc: Global, len: usize) -> Result<Vec<Option<NodeId>>, AllocError>
    ensures long { IfOk result (λ table. length table.items ≡ len) }
    ensures none { IfOk result (λ table. (c w : ℕ) → slice_get table.items c ≡ Some (Some w) → ⊥) }
{
    let mut table = Vec::new(alloc);
    for _ in 0..len {
        table.push(None)?;
    }
    Ok(table)
}

// Makes a witness for the class of each of these nodes.
fn fill_table(
    alloc: Global,
    graph: &mut Graph,
    numbers: &[NodeId],
    condition: Condition,
    starts: &[bool],
    list: &[NodeId],
) -> Result<Vec<Option<NodeId>>, Memory>
    requires sealed { graph.old.is_open ≡ false }
    requires numbered { AreNumbered graph.old numbers.now }
    requires sorts { JoinedHaveOneSort (numbered graph.old numbers.now) (OneClass numbers.now) }
    requires starts { length starts.now ≡ length numbers.now }
    requires supports { AreAllSupports (numbered graph.old numbers.now) numbers.now condition starts.now list.now }
    ensures { IfOk result (λ table. AreWitnessed (numbered graph.old numbers.now) graph.old graph.new numbers.now condition starts.now list.now table.items) }
{
    let _count = graph.len();
    let mut table = no_witnesses(alloc, numbers.len())?;
    for n in list {
        let witness = witness_of(alloc, graph, numbers, starts, &table, *n)?;
        table[numbers[*n as usize] as usize] = Some(witness);
    }
    Ok(table)
}

/// For each class of which the condition holds a node of which it holds, at the class's number: a marked node of
/// the class, or a copy of a node of it over witnesses of its kids' classes, which is added to the graph. The class
/// numbers and marks are those of the first nodes; the graph may have grown since. After `Memory` nothing is
/// promised of the graph.
pub fn witnesses(
    alloc: Global,
    graph: &mut Graph,
    numbers: &[NodeId],
    condition: Condition,
    starts: &[bool],
) -> Result<Vec<Option<NodeId>>, Memory>
    requires sealed { graph.old.is_open ≡ false }
    requires numbered { AreNumbered graph.old numbers.now }
    requires sorts { JoinedHaveOneSort (numbered graph.old numbers.now) (OneClass numbers.now) }
    requires starts { length starts.now ≡ length numbers.now }
    ensures { IfOk result (λ table. AreWitnesses (numbered graph.old numbers.now) graph.old graph.new numbers.now condition starts.now table.items) }
{
    let list = supports(alloc, graph, numbers, condition, starts)?;
    fill_table(alloc, graph, numbers, condition, starts, &list)
}
