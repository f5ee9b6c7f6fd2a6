//! Sides of axioms, made as nodes of a graph.

ghost use Rattle.std.specs.Prelude.{◌≡◌, IfOk, List, false, map};
ghost use Rattle.pv_graph.specs.Calls.{Added, FitsOver};
ghost use Rattle.pv_graph.specs.declared.node.OpSort.{OpSort};
ghost use Rattle.pv_heights.specs.Sides.{thing_at};
ghost use Rattle.pv_instances.specs.Made.{MadeSide, SortedOver};
ghost use Rattle.pv_instances.specs.Parts.{AllSortedOver, MadeSides};
ghost use Rattle.pv_instances.specs.Seen.{hole_seen, instance_seen, parts, seen};

use crate::instances::Instance;
use crate::side::{Filled, Hole};
use pv_graph::{Graph, GraphFault, NodeId, Op};
use pv_value::Memory;
use std::alloc::Global;

/// The number of the node with this operation and these kids, of which it is known that they fit: it is added
/// where there is none. Only memory can run out.
pub fn add_fitting(
    alloc: Global,
    graph: &mut Graph,
    op: Op,
    kids: &[NodeId],
) -> Result<NodeId, Memory>
    requires sealed { graph.old.is_open ≡ false }
    requires fits { FitsOver graph.old op kids.now }
    ensures { IfOk result (λ n. Added graph.old graph.new op kids.now n) }
{
    let _count = graph.len();
    match graph.add(alloc, op, kids) {
        Ok(n) => Ok(n),
        Err(GraphFault::Memory) => Err(Memory),
        Err(GraphFault::Sort) => unreachable!(),
    }
}

// The node of a kid or a variable.
fn node_at(instance: &Instance, hole: Hole) -> Option<NodeId>
    ensures { result ≡ thing_at (instance_seen instance.now) (hole_seen hole) }
{
    match hole {
        Hole::Kid(i) => instance.kids.get(i as usize).copied(),
        Hole::Variable(j) => instance.vars.get(j as usize).copied(),
    }
}

/// Makes a filled side over the nodes of an instance: its parts are added to the graph where they aren't there yet. After
/// `Memory` nothing is promised of the graph.
#[cycle(make)]
pub fn make(
    alloc: Global,
    graph: &mut Graph,
    instance: &Instance,
    side: &Filled,
) -> Result<NodeId, Memory>
    requires sealed { graph.old.is_open ≡ false }
    requires sorted { (s : OpSort) × SortedOver graph.old (instance_seen instance.now) (seen side.now) s }
    ensures { IfOk result (λ n. MadeSide graph.old graph.new (instance_seen instance.now) (seen side.now) n) }
{
    match side {
        Filled::At(hole) => match node_at(instance, *hole) {
            Some(n) => Ok(n),
            None => unreachable!(),
        },
        Filled::Of(op, parts) => {
            let nodes = make_all(alloc, graph, instance, parts)?;
            let op = op.copy(alloc)?;
            add_fitting(alloc, graph, op, &nodes)
        }
    }
}

// Makes parts of a side, one after another.
#[cycle(make)]
fn make_all(
    alloc: Global,
    graph: &mut Graph,
    instance: &Instance,
    sides: &[Filled],
) -> Result<Vec<NodeId>, Memory>
    requires sealed { graph.old.is_open ≡ false }
    requires sorted { (ss : List OpSort) × AllSortedOver graph.old (instance_seen instance.now) (parts (map seen sides.now)) ss }
    ensures { IfOk result (λ nodes. MadeSides graph.old graph.new (instance_seen instance.now) (parts (map seen sides.now)) nodes.items) }
{
    let mut nodes = Vec::new(alloc);
    for side in sides {
        nodes.push(make(alloc, graph, instance, side)?)?;
    }
    Ok(nodes)
}
