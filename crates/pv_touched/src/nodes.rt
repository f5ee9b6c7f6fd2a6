//! The nodes at which a search looks for matches again.

ghost use Rattle.std.specs.Prelude.{◌<◌, ℕ, IfOk, List, length, map};
ghost use Rattle.pv_graph.specs.Graphs.{Graph};
ghost use Rattle.pv_graph.specs.Walks.{In};
ghost use Rattle.pv_marks.specs.Marks.{AreClasses};
ghost use Rattle.pv_match.specs.Kept.{KeepsForms};
ghost use Rattle.pv_match.specs.Reading.{AreReadable};
ghost use Rattle.pv_match.specs.Rematching.{CanTakeOver};
ghost use Rattle.pv_match.specs.declared.found.Match.{Match};
ghost use Rattle.pv_pattern.specs.Seen.{axiom_seen};
ghost use Rattle.pv_touched.specs.Earlier.{IsNow, WasSeen, look_of};

use crate::looks::steps_of;
use crate::near::{near, nodes_near};
use crate::since::Since;
use pv_graph::{Graph, NodeId};
use pv_pattern::Axiom;
use std::alloc::{AllocError, Global};

// All nodes.
fn all_nodes(alloc: Global, graph: &Graph) -> Result<Vec<NodeId>, AllocError>
    ensures { IfOk result (λ all. (n : ℕ) → n < length graph.now.nodes → In all.items n) }
{
    let mut all = Vec::new(alloc);
    for n in 0..graph.len() {
        all.push(n)?;
    }
    Ok(all)
}

/// Nodes that are enough to be looked at again, in time linear in the nodes and their kids: the matches that were known at the earlier look can be taken over beside
/// those at these nodes. Nodes of one form match the same, so `kept` says of which nodes to give; each form is kept at one node at least. Of these they are the
/// new ones, and those from which a class that changed is reached by as many steps to kids as the left sides of the table look down. Out of memory is
/// the one error.
pub fn touched(
    alloc: Global,
    graph: &Graph,
    table: &[Axiom],
    since: &Since,
    kept: &[bool],
) -> Result<Vec<NodeId>, AllocError>
    requires classes { AreClasses graph.now since.now.numbers.now }
    requires kept { KeepsForms graph.now since.now.numbers.now kept.now }
    requires readable { AreReadable (map axiom_seen table.now) }
    ensures { IfOk result (λ touched. (earlier : Graph) (assumed : List ℕ) (known : List Match) → IsNow graph.now since.now.numbers.now assumed since.now.marks.now → WasSeen earlier graph.now since.now.numbers.now assumed (map axiom_seen table.now) (look_of since.now known) → CanTakeOver graph.now since.now.numbers.now assumed (map axiom_seen table.now) known touched.items) }
{
    match steps_of(table) {
        Some(steps) => {
            let near = near(alloc, graph, since, steps)?;
            let list = nodes_near(alloc, graph, since, kept, &near)?;
            Ok(list)
        }
        None => {
            let all = all_nodes(alloc, graph)?;
            Ok(all)
        }
    }
}
