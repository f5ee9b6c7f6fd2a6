//! Joins by kids, as congruences.

ghost use Rattle.std.specs.Prelude.{◌≡◌, ℕ, ◌<◌, IfOk, length};
ghost use Rattle.std.specs.List.{AllZip};
ghost use Rattle.pv_writer.specs.Written.{GoesOn};
ghost use Rattle.pv_explain.specs.Copies.{HasCopy};
ghost use Rattle.pv_explain.specs.Lines.{AreKidsLinked, GiveAllCopies, GivesCopies, HaveCopies, IsLevel, IsLineOf, IsSource, LinkedBy};

use crate::copy::copy_of;
use crate::follow::{Line, follow};
use crate::level::Level;
use crate::source::Source;
use pv_graph::NodeId;
use pv_steps::Reason;
use pv_value::Memory;
use pv_writer::Writer;
use std::alloc::Global;

// Why the copies of two nodes are equal that lines link.
pub(crate) fn kid_reason(
    alloc: Global,
    writer: &mut Writer,
    source: &Source,
    level: &Level,
    k: NodeId,
    l: NodeId,
) -> Result<Reason, Memory>
    requires source { IsSource writer.old source.now }
    requires level { IsLevel writer.old source.now level.now }
    requires linked { LinkedBy (length source.now.graph.now.nodes) level.now k l }
    requires copy { HasCopy source.now.map.now k }
    ensures reason { IfOk result (λ why. GivesCopies writer.new source.now.map.now why k l) }
    ensures goes { IfOk result (λ why. GoesOn writer.old writer.new) }
{
    let path = level.forest.path(alloc, level.lines.len(), k, l)?;
    let reached = follow(writer, &level.lines, &path, copy_of(source.map, k))?;
    Ok(reached.why)
}

// Why the copies of kids are equal, one by one.
fn kid_reasons(
    alloc: Global,
    writer: &mut Writer,
    source: &Source,
    level: &Level,
    lefts: &[NodeId],
    rights: &[NodeId],
) -> Result<Vec<Reason>, Memory>
    requires source { IsSource writer.old source.now }
    requires level { IsLevel writer.old source.now level.now }
    requires linked { AllZip (LinkedBy (length source.now.graph.now.nodes) level.now) lefts.now rights.now }
    requires copies { HaveCopies source.now.map.now lefts.now }
    ensures reasons { IfOk result (λ reasons. GiveAllCopies writer.new source.now.map.now reasons.items lefts.now rights.now) }
    ensures goes { IfOk result (λ reasons. GoesOn writer.old writer.new) }
{
    let mut reasons = Vec::new(alloc);
    for i in 0..lefts.len() {
        let why = kid_reason(alloc, writer, source, level, lefts[i], rights[i])?;
        reasons.push(why)?;
    }
    Ok(reasons)
}

// States that the copies of two nodes are equal: one operation over kids that lines link.
pub(crate) fn state_kids(
    alloc: Global,
    writer: &mut Writer,
    source: &Source,
    level: &Level,
    first: NodeId,
    second: NodeId,
) -> Result<Line, Memory>
    requires source { IsSource writer.old source.now }
    requires level { IsLevel writer.old source.now level.now }
    requires kids { AreKidsLinked writer.old source.now level.now first second }
    ensures line { IfOk result (λ line. IsLineOf writer.new source.now.map.now first second line) }
    ensures goes { IfOk result (λ line. GoesOn writer.old writer.new) }
{
    let graph = source.graph;
    let lefts = graph.node(first).kids.as_slice();
    let rights = graph.node(second).kids.as_slice();
    let reasons = kid_reasons(alloc, writer, source, level, lefts, rights)?;
    let (left, right) = (copy_of(source.map, first), copy_of(source.map, second));
    let fact = writer.congruence(alloc, left, right, reasons)?;
    Ok(Line {
        first,
        second,
        left,
        right,
        fact,
    })
}
