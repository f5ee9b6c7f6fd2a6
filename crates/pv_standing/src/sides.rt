//! Classes in which the sides of instances stand.

ghost use Rattle.std.specs.Prelude.{◌<◌, ◌↔◌, ◌^◌, IfOk, IsTrue, length};
ghost use Rattle.std.specs.List.{AllByRecursion};
ghost use Rattle.pv_classes.specs.Calls.{Knows};
ghost use Rattle.pv_heights.specs.SameClasses.{IsCongruence};
ghost use Rattle.pv_heights.specs.Searches.{BothStand, IsNode, OneClass, base_view, nodes};
ghost use Rattle.pv_instances.specs.Seen.{instance_seen};
ghost use Rattle.pv_pattern.specs.Seen.{seen as pattern_seen};
ghost use Rattle.pv_standing.specs.Standing.{IsClassOfSide};

use crate::parts::class_of_filled;
use pv_classes::Classes;
use pv_graph::{Graph, NodeId};
use pv_instances::{Instance, fill};
use pv_pattern::Pattern;
use pv_value::Memory;
use std::alloc::Global;

/// A node of the class in which a side of an instance stands; `None` where it can't be filled in or stands in no class. The
/// classes are a congruence, as after a closing with no fixed depth. The only error is `Memory`.
pub fn class_of_side(
    alloc: Global,
    graph: &Graph,
    classes: &Classes,
    instance: &Instance,
    pattern: &Pattern,
) -> Result<Option<NodeId>, Memory>
    requires knows { Knows graph.now.nodes classes.now }
    requires congruence { IsCongruence (base_view graph.now) (nodes graph.now) (IsNode graph.now) (OneClass classes.now.numbers) }
    requires kids { AllByRecursion (IsNode graph.now) instance.now.kids.now }
    requires vars { AllByRecursion (IsNode graph.now) instance.now.vars.now }
    requires few { length instance.now.kids.now < 2 ^ 32 }
    ensures { IfOk result (λ found. IsClassOfSide graph.now classes.now.numbers (instance_seen instance.now) (pattern_seen pattern.now) found) }
{
    match fill(alloc, instance.params, instance.kids.len() as u32, pattern)? {
        Some(side) => class_of_filled(alloc, graph, classes, instance, &side),
        None => Ok(None),
    }
}

/// Whether both sides of an instance stand in one class, so that nothing is left to join for it. The classes are a
/// congruence, as after a closing with no fixed depth. The only error is `Memory`.
pub fn both_stand(
    alloc: Global,
    graph: &Graph,
    classes: &Classes,
    instance: &Instance,
) -> Result<bool, Memory>
    requires knows { Knows graph.now.nodes classes.now }
    requires congruence { IsCongruence (base_view graph.now) (nodes graph.now) (IsNode graph.now) (OneClass classes.now.numbers) }
    requires kids { AllByRecursion (IsNode graph.now) instance.now.kids.now }
    requires vars { AllByRecursion (IsNode graph.now) instance.now.vars.now }
    requires few { length instance.now.kids.now < 2 ^ 32 }
    ensures { IfOk result (λ b. IsTrue b ↔ BothStand (nodes graph.now) (IsNode graph.now) (OneClass classes.now.numbers) (instance_seen instance.now)) }
{
    let Some(left) = class_of_side(alloc, graph, classes, instance, &instance.entry.left)? else {
        return Ok(false);
    };
    let Some(right) = class_of_side(alloc, graph, classes, instance, &instance.entry.right)? else {
        return Ok(false);
    };
    Ok(classes.joined(left, right))
}
