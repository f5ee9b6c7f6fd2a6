//! Joins and blocks as texts.

use cases_words::answers::{Answer, NoAnswer};
use pv_classes::{Block, Join, Reason};
use std::alloc::Global;

// The most blocks that stand one inside another: as many as there are depths of loops.
const MOST_LEVELS: u32 = 16;

/// Joins, with commas between them; `-` if there are none.
pub(crate) fn joins_answer(alloc: Global, joins: &[Join]) -> Answer {
    Ok(unless_empty(joins_text(alloc, joins)?)?)
}

/// Blocks, one after the other; `-` if there are none.
pub(crate) fn blocks_answer(alloc: Global, blocks: &[Block]) -> Answer {
    Ok(unless_empty(blocks_text(alloc, blocks, MOST_LEVELS)?)?)
}

// The text, or `-` for an empty one.
fn unless_empty(text: String) -> Answer {
    let mut text = text;
    if text.is_empty() {
        text.push('-')?;
    }
    Ok(text)
}

fn joins_text(alloc: Global, joins: &[Join]) -> Answer {
    let mut text = String::new(alloc);
    for (i, join) in joins.iter().enumerate() {
        if i > 0 {
            text.push_str(", ")?;
        }
        text.push_str(join_text(alloc, join)?.as_str())?;
    }
    Ok(text)
}

fn join_text(alloc: Global, join: &Join) -> Answer {
    let (a, b) = (join.first, join.second);
    Ok(match &join.why {
        Reason::Axiom(n, nodes) => {
            let nodes = nodes.as_slice();
            format!(in alloc; "{a}={b} axiom {n} {nodes:?}")?
        }
        Reason::Kids => format!(in alloc; "{a}={b} kids")?,
        Reason::Induction(n) => format!(in alloc; "{a}={b} induction {n}")?,
        Reason::Pair(n) => format!(in alloc; "{a}={b} pair {n}")?,
    })
}

// The blocks, one after another, where at most `levels` stand one inside another.
fn blocks_text(alloc: Global, blocks: &[Block], levels: u32) -> Answer {
    let mut text = String::new(alloc);
    for block in blocks {
        if levels == 0 {
            return Err(NoAnswer::Unreadable);
        }
        let inner = blocks_text(alloc, block.blocks(), levels - 1)?;
        text.push_str(block_text(alloc, block, inner.as_str())?.as_str())?;
    }
    Ok(text)
}

// A block, with this text of the blocks inside it.
fn block_text(alloc: Global, block: &Block, inner: &str) -> Answer {
    let (depth, pairs) = (block.depth(), block.pairs());
    let joins = joins_text(alloc, block.joins())?;
    let joins = joins.as_str();
    Ok(format!(in alloc; "({depth} {pairs:?}{inner}: {joins})")?)
}
