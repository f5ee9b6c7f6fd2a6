//! Instances of axioms, made as nodes of a graph.

ghost use Rattle.std.specs.Prelude.{◌≡◌, ◌<◌, ◌^◌, IfOk, false, length};
ghost use Rattle.pv_graph.specs.declared.node.OpSort.{OpSort};
ghost use Rattle.pv_pattern.specs.Seen.{seen as pattern_seen};
ghost use Rattle.pv_instances.specs.Made.{CanMake, CanMakeBoth, MadeInstance, MadePattern};
ghost use Rattle.pv_instances.specs.Seen.{instance_seen};

use crate::filling::fill;
use crate::making::make;
use crate::params::Params;
use pv_graph::{Graph, NodeId};
use pv_pattern::{Axiom, Pattern};
use pv_value::Memory;
use std::alloc::Global;

/// An axiom with what its names stand for, and a node for each kid of its family and for each of its variables.
#[derive(Clone, Copy)]
pub struct Instance<'a> {
    pub entry: &'a Axiom,
    pub params: &'a Params,
    pub kids: &'a [NodeId],
    pub vars: &'a [NodeId],
}

/// The nodes of the two sides of an instance.
#[derive(Clone, Copy)]
pub struct Sides {
    pub left: NodeId,
    pub right: NodeId,
}

/// Makes one side of an instance: it is filled in, and its parts are added to the graph where they aren't there yet. After
/// `Memory` nothing is promised of the graph.
pub fn make_pattern(
    alloc: Global,
    graph: &mut Graph,
    instance: &Instance,
    pattern: &Pattern,
) -> Result<NodeId, Memory>
    requires sealed { graph.old.is_open ≡ false }
    requires few { length instance.now.kids.now < 2 ^ 32 }
    requires can { (s : OpSort) × CanMake graph.old (instance_seen instance.now) (pattern_seen pattern.now) s }
    ensures { IfOk result (λ n. MadePattern graph.old graph.new (instance_seen instance.now) (pattern_seen pattern.now) n) }
{
    match fill(alloc, instance.params, instance.kids.len() as u32, pattern)? {
        Some(side) => make(alloc, graph, instance, &side),
        None => unreachable!(),
    }
}

/// Makes both sides of an instance. After `Memory` nothing is promised of the graph.
pub fn add_instance(alloc: Global, graph: &mut Graph, instance: &Instance) -> Result<Sides, Memory>
    requires sealed { graph.old.is_open ≡ false }
    requires few { length instance.now.kids.now < 2 ^ 32 }
    requires sides { CanMakeBoth graph.old (instance_seen instance.now) }
    ensures { IfOk result (λ s. MadeInstance graph.old graph.new (instance_seen instance.now) s.left s.right) }
{
    let left = make_pattern(alloc, graph, instance, &instance.entry.left)?;
    let right = make_pattern(alloc, graph, instance, &instance.entry.right)?;
    Ok(Sides { left, right })
}
