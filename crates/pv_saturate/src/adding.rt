//! The instance of a match, made as nodes of a graph.

ghost use Rattle.std.specs.Prelude.{◌≡◌, ◌<◌, ◌^◌, IfOk, false, length};
ghost use Rattle.pv_heights.specs.Searches.{OneClass};
ghost use Rattle.pv_instances.specs.Classes.{JoinedHaveOneSort};
ghost use Rattle.pv_instances.specs.Seen.{instance_seen};
ghost use Rattle.pv_witness.specs.Numbered.{AreNumbered, numbered};
ghost use Rattle.pv_saturate.specs.Choice.{AreNames, CanChoose};
ghost use Rattle.pv_saturate.specs.Added.{AddedMatch, LeftStands};

use crate::choice::{Witnesses, choose};
use pv_graph::{Graph, NodeId};
use pv_instances::{Instance, add_instance};
use pv_pattern::NameId;
use pv_value::Memory;
use std::alloc::Global;

/// The nodes of the instance that was made for a match: its two sides, and a node for each of its variables.
#[derive(Drop)]
pub struct MatchNodes {
    pub left: NodeId,
    pub right: NodeId,
    pub vars: Vec<NodeId>,
}

/// Makes the instance of a match. The match has a node for each of its classes; of the classes of which its axiom asks a
/// condition the witnesses are taken, and of those of variables for constants the constants. After `Memory` nothing
/// is promised of the graph.
pub fn add_match(
    alloc: Global,
    graph: &mut Graph,
    numbers: &[NodeId],
    matched: &Instance,
    names: &[NameId],
    witnesses: &Witnesses,
) -> Result<MatchNodes, Memory>
    requires sealed { graph.old.is_open ≡ false }
    requires numbered { AreNumbered graph.old numbers.now }
    requires sorts { JoinedHaveOneSort (numbered graph.old numbers.now) (OneClass numbers.now) }
    requires can { CanChoose (numbered graph.old numbers.now) graph.old numbers.now (instance_seen matched.now) witnesses.now }
    requires names { AreNames names.now (instance_seen matched.now) }
    requires few { length matched.now.vars.now < 2 ^ 32 }
    requires few_kids { length matched.now.kids.now < 2 ^ 32 }
    requires stands { LeftStands (numbered graph.old numbers.now) numbers.now (instance_seen matched.now) }
    ensures { IfOk result (λ a. AddedMatch (numbered graph.old numbers.now) graph.old graph.new numbers.now (instance_seen matched.now) witnesses.now a.vars.items a.left a.right) }
{
    let _count = graph.len();
    let vars = choose(alloc, graph, numbers, matched, names, witnesses)?;
    let chosen = Instance {
        entry: matched.entry,
        params: matched.params,
        kids: matched.kids,
        vars: &vars,
    };
    let sides = add_instance(alloc, graph, &chosen)?;
    Ok(MatchNodes {
        left: sides.left,
        right: sides.right,
        vars,
    })
}
