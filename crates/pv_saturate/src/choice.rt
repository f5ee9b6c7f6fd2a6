//! The nodes over which the instance of a match is made.

ghost use Rattle.std.specs.Prelude.{◌≡◌, ◌↔◌, ◌<◌, ◌^◌, IfOk, IsTrue, OnOk, Some, false, length, map, slice_get};
ghost use Rattle.pv_graph.specs.Calls.{IsSame};
ghost use Rattle.pv_graph.specs.Walks.{In};
ghost use Rattle.pv_heights.specs.Filled.{number_op};
ghost use Rattle.pv_heights.specs.Searches.{OneClass};
ghost use Rattle.pv_instances.specs.Classes.{JoinedHaveOneSort};
ghost use Rattle.pv_instances.specs.Seen.{instance_seen};
ghost use Rattle.pv_pattern.specs.Patterns.{not_free, settled};
ghost use Rattle.pv_pattern.specs.Seen.{side_seen};
ghost use Rattle.pv_pattern.specs.declared.names.NameId.TheVariants.{Constant};
ghost use Rattle.pv_marks.specs.Classes.{class_of};
ghost use Rattle.pv_witness.specs.Numbered.{AreNumbered, numbered};
ghost use Rattle.pv_saturate.specs.Choice.{AreChosenFor, AreNames, CanChoose, HasConstant, HasWitness, IsChosenFor, IsConstantNode};

use pv_graph::{Graph, NodeId, Op};
use pv_instances::{Instance, add_fitting};
use pv_pattern::{NameId, Side};
use pv_value::{Memory, Num};
use std::alloc::Global;

/// Witnesses by class numbers: of settled classes, and of classes in which the depth of a match isn't free.
#[derive(Clone, Copy)]
pub struct Witnesses<'a> {
    pub settled: &'a [Option<NodeId>],
    pub not_free: &'a [Option<NodeId>],
}

fn is_settled(side: Side, j: u32) -> bool
    ensures { IsTrue result ↔ (side_seen side ≡ settled j) }
{
    match side {
        Side::Settled(k) => k == j,
        _ => false,
    }
}

fn is_not_free(side: Side, j: u32) -> bool
    ensures { IsTrue result ↔ (side_seen side ≡ not_free j) }
{
    match side {
        Side::NotFree(k) => k == j,
        _ => false,
    }
}

fn is_constant(name: NameId, j: u32) -> bool
    ensures { IsTrue result ↔ (name ≡ Constant j) }
{
    match name {
        NameId::Constant(k) => k == j,
        _ => false,
    }
}

// Whether the class of a variable is to be settled.
fn asks_settled(sides: &[Side], j: u32) -> bool
    ensures { IsTrue result ↔ In (map side_seen sides.now) (settled j) }
{
    for side in sides {
        if is_settled(*side, j) {
            return true;
        }
    }
    false
}

// Whether a depth isn't to be free in the class of a variable.
fn asks_not_free(sides: &[Side], j: u32) -> bool
    ensures { IsTrue result ↔ In (map side_seen sides.now) (not_free j) }
{
    for side in sides {
        if is_not_free(*side, j) {
            return true;
        }
    }
    false
}

// Whether a variable stands for constants.
fn has_constant(names: &[NameId], j: u32) -> bool
    ensures { IsTrue result ↔ In names.now (Constant j) }
{
    for name in names {
        if is_constant(*name, j) {
            return true;
        }
    }
    false
}

// The witness of the class of a node.
fn witness(numbers: &[NodeId], table: &[Option<NodeId>], v: NodeId) -> NodeId
    requires there { v < length numbers.now }
    requires has { HasWitness numbers.now table.now v }
    ensures { slice_get table.now (class_of numbers.now v) ≡ Some (Some result) }
{
    match table.get(numbers[v as usize] as usize) {
        Some(Some(w)) => *w,
        _ => unreachable!(),
    }
}

fn constant_op(n: Num) -> Option<Op>
    ensures { result ≡ number_op n }
{
    match n {
        Num::Int(c) => Some(Op::Int(c)),
        Num::Long(c) => Some(Op::Long(c)),
        Num::Ref(_) => None,
    }
}

// The node of a constant that the graph has.
fn constant_node(alloc: Global, graph: &mut Graph, n: Num) -> Result<NodeId, Memory>
    requires sealed { graph.old.is_open ≡ false }
    requires has { HasConstant graph.old n }
    ensures same { OnOk result (IsSame graph.old graph.new) }
    ensures is { IfOk result (λ w. IsConstantNode graph.old n w) }
{
    match constant_op(n) {
        Some(op) => add_fitting(alloc, graph, op, &[]),
        None => unreachable!(),
    }
}

// The node for a variable, whose class is that of node v.
fn choose_one(
    alloc: Global,
    graph: &mut Graph,
    numbers: &[NodeId],
    matched: &Instance,
    names: &[NameId],
    witnesses: &Witnesses,
    j: u32,
    v: NodeId,
) -> Result<NodeId, Memory>
    requires sealed { graph.old.is_open ≡ false }
    requires numbered { AreNumbered graph.old numbers.now }
    requires sorts { JoinedHaveOneSort (numbered graph.old numbers.now) (OneClass numbers.now) }
    requires can { CanChoose (numbered graph.old numbers.now) graph.old numbers.now (instance_seen matched.now) witnesses.now }
    requires names { AreNames names.now (instance_seen matched.now) }
    requires variable { slice_get matched.now.vars.now j ≡ Some v }
    ensures same { OnOk result (IsSame graph.old graph.new) }
    ensures chosen { IfOk result (λ w. IsChosenFor (numbered graph.old numbers.now) graph.old numbers.now (instance_seen matched.now) witnesses.now j v w) }
{
    let _count = graph.len();
    if asks_settled(&matched.entry.sides, j) {
        return Ok(witness(numbers, witnesses.settled, v));
    }
    if asks_not_free(&matched.entry.sides, j) {
        return Ok(witness(numbers, witnesses.not_free, v));
    }
    if has_constant(names, j) {
        return constant_node(alloc, graph, matched.params.constant(j));
    }
    Ok(v)
}

/// The nodes over which the instance of a match is made, one for each variable. The graph keeps its nodes and gets no
/// other. After `Memory` nothing is promised of it.
pub fn choose(
    alloc: Global,
    graph: &mut Graph,
    numbers: &[NodeId],
    matched: &Instance,
    names: &[NameId],
    witnesses: &Witnesses,
) -> Result<Vec<NodeId>, Memory>
    requires sealed { graph.old.is_open ≡ false }
    requires numbered { AreNumbered graph.old numbers.now }
    requires sorts { JoinedHaveOneSort (numbered graph.old numbers.now) (OneClass numbers.now) }
    requires can { CanChoose (numbered graph.old numbers.now) graph.old numbers.now (instance_seen matched.now) witnesses.now }
    requires names { AreNames names.now (instance_seen matched.now) }
    requires few { length matched.now.vars.now < 2 ^ 32 }
    ensures same { OnOk result (IsSame graph.old graph.new) }
    ensures chosen { IfOk result (λ chosen. AreChosenFor (numbered graph.old numbers.now) graph.old numbers.now (instance_seen matched.now) witnesses.now matched.now.vars.now chosen.items) }
{
    let _count = graph.len();
    let mut chosen = Vec::new(alloc);
    for (j, v) in matched.vars.iter().enumerate() {
        chosen.push(choose_one(
            alloc, graph, numbers, matched, names, witnesses, j as u32, *v,
        )?)?;
    }
    Ok(chosen)
}
