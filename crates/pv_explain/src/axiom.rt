//! Joins by an axiom.

ghost use Rattle.std.specs.Prelude.{IfOk};
ghost use Rattle.pv_writer.specs.Written.{GoesOn};
ghost use Rattle.pv_explain.specs.Lines.{IsInstanceAt, IsLineOf, IsSource};

use crate::copy::{copies_of, copy_of};
use crate::follow::Line;
use crate::source::Source;
use pv_graph::NodeId;
use pv_value::Memory;
use pv_writer::Writer;
use std::alloc::Global;

// States that the copies of the two sides of an instance are equal.
pub(crate) fn state_axiom(
    alloc: Global,
    writer: &mut Writer,
    source: &Source,
    number: u32,
    nodes: &[NodeId],
    first: NodeId,
    second: NodeId,
) -> Result<Line, Memory>
    requires source { IsSource writer.old source.now }
    requires instance { IsInstanceAt writer.old source.now number nodes.now first second }
    ensures line { IfOk result (λ line. IsLineOf writer.new source.now.map.now first second line) }
    ensures goes { IfOk result (λ line. GoesOn writer.old writer.new) }
{
    let copies = copies_of(alloc, source.map, nodes)?;
    let (left, right) = (copy_of(source.map, first), copy_of(source.map, second));
    let fact = writer.axiom(alloc, number, left, right, &copies)?;
    Ok(Line {
        first,
        second,
        left,
        right,
        fact,
    })
}
