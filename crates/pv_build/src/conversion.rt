//! From a method to the root of a graph.

ghost use Rattle.std.specs.Prelude.{◌≡◌, true, IfOk};
ghost use Rattle.pv_frame.specs.Answers.{HasCode, HasReferences};
ghost use Rattle.pv_graph.specs.declared.node.OpSort.TheVariants.{R};
ghost use Rattle.pv_graph.specs.Graphs.{IsWellMade};
ghost use Rattle.pv_terms.specs.Terms.{Enlarges, Keeps, IsOfSort};
ghost use Rattle.pv_build.specs.Reasons.{OnRefusal};
ghost use Rattle.pv_build.specs.Conversion.{ConvertsAt};

use crate::building::build;
use pv_class::ClassFile;
use pv_frame::{Refused, infer};
use pv_graph::{Graph, NodeId};
use pv_layout::{Layout, laid_out};
use pv_live::needed;
use std::alloc::Global;

/// Adds the root of the method at a place of a class to an open graph, whose old nodes stand. A method
/// that is refused has none, and the graph is as it was. Nodes are made for the values that something needs: no
/// local has one where nothing reads it again. After out of memory thetas may be left without kids.
pub fn convert(
    alloc: Global,
    class: &ClassFile,
    method: usize,
    g: &mut Graph,
) -> Result<NodeId, Refused>
    requires code { HasCode class.now method }
    requires references { HasReferences class.now }
    requires made { IsWellMade g.old }
    requires open { g.old.is_open ≡ true }
    ensures converted { ConvertsAt g.new class.now method result }
    ensures refused { OnRefusal result (g.new ≡ g.old) }
    ensures sort { IfOk result (λ root. IsOfSort g.new root R) }
    ensures enlarges { IfOk result (λ root. Enlarges g.old g.new) }
    ensures keeps { Keeps g.old g.new }
{
    let typed = infer(alloc, class, method)?;
    let Layout { flow, forest } = laid_out(alloc, &typed)?;
    let live = needed(alloc, typed)?;
    Ok(build(alloc, g, &live, &flow, &forest)?)
}
