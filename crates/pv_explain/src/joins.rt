//! Joins, one after the other, and the blocks of the inductions that they cite.

ghost use Rattle.std.specs.Prelude.{◌≡◌, ◌<◌, IfOk, OnOk, length, slice_get, Some};
ghost use Rattle.std.specs.List.{Contains};
ghost use Rattle.pv_classes.specs.Blocks.{pairs_of};
ghost use Rattle.pv_writer.specs.Written.{GoesOn};
ghost use Rattle.pv_explain.specs.Lines.{AreStated, IsLineOf};
ghost use Rattle.pv_explain.specs.Levels.{GrowsAt, HaveLines, JoinStands, JoinsStand, LearnsAt};
ghost use Rattle.pv_explain.specs.Iterations.{BlockStands};

use crate::axiom::state_axiom;
use crate::follow::Line;
use crate::induction::{begin, close, open};
use crate::kids::state_kids;
use crate::level::{Level, find};
use crate::source::Source;
use pv_classes::{Block, Join, Reason};
use pv_graph::NodeId;
use pv_value::Memory;
use pv_writer::Writer;
use std::alloc::Global;

// The block with this number.
fn block_at(blocks: &[Block], n: u32) -> &Block
    requires { n < length blocks.now }
    ensures { slice_get blocks.now n ≡ Some result.now }
{
    &blocks[n as usize]
}

// The block of an induction: outside it its pairs are stated at iteration 0; inside it a line is stated for each of its
// joins, and its pairs one iteration later. Gives the lines of its pairs, which stand outside.
#[cycle(blocks)]
fn state_block(
    alloc: Global,
    writer: &mut Writer,
    source: &Source,
    level: &Level,
    block: &Block,
) -> Result<Vec<Line>, Memory>
    requires { BlockStands writer.old source.now level.now block.now }
    ensures stated { IfOk result (λ lines. AreStated writer.new source.now.map.now lines.items) }
    ensures lines { IfOk result (λ lines. HaveLines (pairs_of block.now) lines.items) }
    ensures goes { IfOk result (λ lines. GoesOn writer.old writer.new) }
{
    let begun = begin(alloc, writer, source, level, block)?;
    let mut inner = open(alloc, writer, source, level, block, &begun)?;
    state_joins(
        alloc,
        writer,
        source,
        &mut inner,
        block.blocks(),
        block.joins(),
    )?;
    let lines = close(alloc, writer, source, &inner, block, &begun)?;
    Ok(lines)
}

// The line of a pair of an induction. Where the level has none yet, the block of the induction is stated, once for all
// its pairs.
#[cycle(blocks)]
fn state_pair(
    alloc: Global,
    writer: &mut Writer,
    source: &Source,
    level: &mut Level,
    block: &Block,
    first: NodeId,
    second: NodeId,
) -> Result<Line, Memory>
    requires stands { BlockStands writer.old source.now level.old block.now }
    requires pair { Contains (pairs_of block.now) (first, second) }
    ensures line { IfOk result (λ line. IsLineOf writer.new source.now.map.now first second line) }
    ensures learns { OnOk result (LearnsAt writer.new source.now level.old level.new) }
    ensures goes { IfOk result (λ line. GoesOn writer.old writer.new) }
{
    if let Some(line) = find(&level.known, first, second) {
        return Ok(line);
    }
    let lines = state_block(alloc, writer, source, level, block)?;
    level.learn(&lines)?;
    Ok(find(&lines, first, second).unwrap())
}

// The line of a join.
#[cycle(blocks)]
fn state_join(
    alloc: Global,
    writer: &mut Writer,
    source: &Source,
    level: &mut Level,
    blocks: &[Block],
    join: &Join,
) -> Result<Line, Memory>
    requires { JoinStands writer.old source.now level.old blocks.now join.now }
    ensures line { IfOk result (λ line. IsLineOf writer.new source.now.map.now join.now.first join.now.second line) }
    ensures learns { OnOk result (LearnsAt writer.new source.now level.old level.new) }
    ensures goes { IfOk result (λ line. GoesOn writer.old writer.new) }
{
    let (first, second) = (join.first, join.second);
    match &join.why {
        Reason::Axiom(number, nodes) => {
            let nodes = nodes.as_slice();
            state_axiom(alloc, writer, source, *number, nodes, first, second)
        }
        Reason::Kids => state_kids(alloc, writer, source, level, first, second),
        Reason::Pair(_) => Ok(find(&level.known, first, second).unwrap()),
        Reason::Induction(n) => {
            let block = block_at(blocks, *n);
            state_pair(alloc, writer, source, level, block, first, second)
        }
    }
}

// A line for each join, in order.
#[cycle(blocks)]
pub(crate) fn state_joins(
    alloc: Global,
    writer: &mut Writer,
    source: &Source,
    level: &mut Level,
    blocks: &[Block],
    joins: &[Join],
) -> Result<(), Memory>
    requires { JoinsStand writer.old source.now level.old blocks.now joins.now }
    ensures level { OnOk result (GrowsAt writer.new source.now level.old level.new joins.now) }
    ensures goes { OnOk result (GoesOn writer.old writer.new) }
{
    for join in joins {
        let line = state_join(alloc, writer, source, level, blocks, join)?;
        level.push(line)?;
    }
    Ok(())
}
