//! Classes in which filled sides stand, from their parts up. A class is named by one of its nodes.

ghost use Rattle.std.specs.Prelude.{◌≡◌, IfOk, map, option_map};
ghost use Rattle.std.specs.List.{AllByRecursion};
ghost use Rattle.pv_classes.specs.Calls.{Knows};
ghost use Rattle.pv_heights.specs.Searches.{IsNode};
ghost use Rattle.pv_heights.specs.Sides.{thing_at};
ghost use Rattle.pv_instances.specs.Seen.{hole_seen, instance_seen, parts, seen};
ghost use Rattle.pv_standing.specs.Parts.{AreClassesOf, CanLook, IsClassOf, IsClassOver};

use pv_classes::Classes;
use pv_graph::{Graph, NodeId, Op};
use pv_instances::{Filled, Hole, Instance};
use pv_value::Memory;
use std::alloc::Global;

// The node of a kid or a variable.
fn node_at(instance: &Instance, hole: Hole) -> Option<NodeId>
    ensures { result ≡ thing_at (instance_seen instance.now) (hole_seen hole) }
{
    match hole {
        Hole::Kid(i) => instance.kids.get(i as usize).copied(),
        Hole::Variable(j) => instance.vars.get(j as usize).copied(),
    }
}

// The class of a node with this operation over kids of the classes of these nodes.
fn class_over(
    alloc: Global,
    graph: &Graph,
    classes: &Classes,
    op: &Op,
    over: &[NodeId],
) -> Result<Option<NodeId>, Memory>
    requires knows { Knows graph.now.nodes classes.now }
    requires over { AllByRecursion (IsNode graph.now) over.now }
    ensures { IfOk result (λ found. IsClassOver graph.now classes.now.numbers op.now over.now found) }
{
    let _count = classes.len();
    classes.class_with(alloc, graph, op, over)
}

/// The class in which a filled side stands: that of the node at a hole, or that of an operation over the classes in which its parts
/// stand. `None` where it stands in no class.
#[cycle(class_of_filled)]
pub(crate) fn class_of_filled(
    alloc: Global,
    graph: &Graph,
    classes: &Classes,
    instance: &Instance,
    side: &Filled,
) -> Result<Option<NodeId>, Memory>
    requires { CanLook graph.now classes.now (instance_seen instance.now) }
    ensures { IfOk result (λ found. IsClassOf graph.now classes.now.numbers (instance_seen instance.now) (seen side.now) found) }
{
    match side {
        Filled::At(hole) => Ok(node_at(instance, *hole)),
        Filled::Of(op, parts) => match classes_of_parts(alloc, graph, classes, instance, parts)? {
            Some(over) => class_over(alloc, graph, classes, op, &over),
            None => Ok(None),
        },
    }
}

// The classes in which parts of a side stand, one after another.
#[cycle(class_of_filled)]
fn classes_of_parts(
    alloc: Global,
    graph: &Graph,
    classes: &Classes,
    instance: &Instance,
    sides: &[Filled],
) -> Result<Option<Vec<NodeId>>, Memory>
    requires { CanLook graph.now classes.now (instance_seen instance.now) }
    ensures { IfOk result (λ found. AreClassesOf graph.now classes.now.numbers (instance_seen instance.now) (parts (map seen sides.now)) (option_map (λ v. v.items) found)) }
{
    let mut found = Vec::new(alloc);
    for side in sides {
        match class_of_filled(alloc, graph, classes, instance, side)? {
            Some(c) => found.push(c)?,
            None => return Ok(None),
        }
    }
    Ok(Some(found))
}
