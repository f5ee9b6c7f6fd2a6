//! Closing with inductions, one inside another.
//!
//! A level is the outside of all inductions, or the inside of one; its fixed depths are those of the open
//! inductions, and its blocks are those from `first` on.

ghost use Rattle.std.specs.Prelude.{◌≡◌, ◌≢◌, ◌<◌, ◌≤◌, ◌+◌, ◌∷◌, ◌++◌, [], ℕ, List, length, slice_get, Some, IfOk, OnOk};
ghost use Rattle.pv_graph.specs.declared.node.Node.{Node};
ghost use Rattle.pv_graph.specs.Graphs.{Graph, IsGraph};
ghost use Rattle.pv_graph.specs.Walks.{In};
ghost use Rattle.pv_classes.specs.Calls.{Classes, IsClasses, IsSaved, Knows};
ghost use Rattle.pv_induct.specs.Levels.{IsAbove, IsClosed, IsFrom, IsGrown};
ghost use Rattle.pv_induct.specs.Parts.{AllJoined, ArePairs, InductEnds, IsBlock, IsFinished, IsInside, IsLevelClosed, PassEnds, reason_of};
ghost use Rattle.pv_induct.specs.Thetas.{AreAll};

use crate::first::{are_same, first_places};
use crate::part::{first_keys, next_keys, pairs_apart};
use crate::theta::{Theta, thetas_of_depth};
use pv_classes::{Block, Classes, Join, Reason, Saved};
use pv_graph::{Graph, NodeId};
use pv_value::Memory;
use std::alloc::Global;

// The greatest depth of loops.
const MOST_DEPTH: u32 = 16;

// The number as a u32, or out of memory where it is too great.
fn as_u32(n: usize) -> Result<u32, Memory>
    ensures { IfOk result (λ m. m ≡ n) }
{
    if n > u32::MAX as usize {
        return Err(Memory);
    }
    Ok(n as u32)
}

// Why the pair with this number is joined: by the induction with this block, or as a pair inside the block.
fn reason_for(block: Option<u32>, pair: u32) -> Reason
    ensures { result ≡ reason_of block pair }
{
    match block {
        Some(block) => Reason::Induction(block),
        None => Reason::Pair(pair),
    }
}

// Joins each pair, by the induction with this block, or as a pair inside the block.
fn join_all(
    alloc: Global,
    c: &mut Classes,
    pairs: &[(NodeId, NodeId)],
    block: Option<u32>,
) -> Result<(), Memory>
    requires classes { IsClasses c.old }
    requires pairs { ArePairs (length c.old.numbers) pairs.now }
    ensures { OnOk result (AllJoined c.old c.new pairs.now pairs.now block) }
{
    for (i, (a, b)) in pairs.iter().enumerate() {
        c.join(alloc, *a, *b, reason_for(block, as_u32(i)?))?;
    }
    Ok(())
}

// The fixed depths, with one more before them.
fn with_depth(alloc: Global, depth: u32, fixed: &[u32]) -> Result<Vec<u32>, Memory>
    ensures { IfOk result (λ more. more.items ≡ depth ∷ fixed.now) }
{
    let mut more = vec![in alloc; depth]?;
    more.extend_from_slice(fixed)?;
    Ok(more)
}

// Goes inside an induction over a depth with these pairs: joins them, and then all that may be joined there. Gives
// the classes outside, as they were saved.
#[cycle(levels)]
fn go_inside(
    alloc: Global,
    g: &Graph,
    thetas: &[Theta],
    c: &mut Classes,
    fixed: &[u32],
    depth: u32,
    pairs: &[(NodeId, NodeId)],
) -> Result<Saved, Memory>
    requires graph { IsGraph g.now }
    requires all { AreAll g.now.nodes thetas.now }
    requires classes { IsClasses c.old }
    requires knows { Knows g.now.nodes c.old }
    requires above { IsAbove fixed.now depth }
    requires deep { depth < MOST_DEPTH + 1 }
    requires pairs { ArePairs (length c.old.numbers) pairs.now }
    ensures outside { IfOk result (λ outside. IsSaved c.old outside) }
    ensures inside { OnOk result (IsInside g.now.nodes fixed.now depth pairs.now c.old c.new) }
{
    let more = with_depth(alloc, depth, fixed)?;
    let blocks = c.blocks().len();
    let outside = c.save(alloc)?;
    join_all(alloc, c, pairs, None)?;
    close_level(alloc, g, thetas, c, &more, depth + 1, blocks)?;
    Ok(outside)
}

// Joins the pairs of an induction, and closes. Its block has these joins and blocks, which are those inside it.
fn join_induction(
    alloc: Global,
    g: &Graph,
    c: &mut Classes,
    fixed: &[u32],
    depth: u32,
    first: usize,
    pairs: Vec<(NodeId, NodeId)>,
    joins: Vec<Join>,
    blocks: Vec<Block>,
) -> Result<(), Memory>
    requires graph { IsGraph g.now }
    requires classes { IsClasses c.old }
    requires knows { Knows g.now.nodes c.old }
    requires first { first ≤ length c.old.blocks }
    requires pairs { ArePairs (length c.old.numbers) pairs.items }
    requires some { pairs.items ≢ [] }
    requires block { IsBlock g.now.nodes fixed.now depth pairs.items c.old joins.items blocks.items }
    ensures { OnOk result (IsFinished g.now.nodes fixed.now first pairs.items c.old c.new) }
{
    let copy = Vec::from_slice(alloc, &pairs)?;
    let number = c.add_block(Block::new(depth, copy, joins, blocks))?;
    join_all(alloc, c, &pairs, Some((number as usize - first) as u32))?;
    c.close(alloc, g, fixed)?;
    Ok(())
}

// Joins the pairs of the greatest induction over a depth that aren't joined yet, and closes; or answers that
// there are none. At first a part is made of the thetas whose first kids are joined. It is split as long as
// second kids of one part stay apart inside an induction with all pairs of all parts.
#[cycle(levels)]
fn induct_at(
    alloc: Global,
    g: &Graph,
    thetas: &[Theta],
    c: &mut Classes,
    fixed: &[u32],
    depth: u32,
    first: usize,
) -> Result<bool, Memory>
    requires graph { IsGraph g.now }
    requires all { AreAll g.now.nodes thetas.now }
    requires classes { IsClasses c.old }
    requires knows { Knows g.now.nodes c.old }
    requires first { first ≤ length c.old.blocks }
    requires closed { IsClosed g.now.nodes fixed.now c.old.numbers }
    requires above { IsAbove fixed.now depth }
    requires least { 1 ≤ depth }
    requires deep { depth < MOST_DEPTH + 1 }
    ensures { IfOk result (λ found. InductEnds g.now.nodes fixed.now depth first c.old found c.new) }
{
    let here = thetas_of_depth(alloc, thetas, depth)?;
    let here: &[Theta] = &here;
    let mut parts = first_places(alloc, &first_keys(alloc, c, here)?)?;
    'refining: loop {
        let now: &[usize] = &parts;
        let pairs = pairs_apart(alloc, c, here, now)?;
        if pairs.is_empty() {
            return Ok(false);
        }
        let outside = go_inside(alloc, g, thetas, c, fixed, depth, &pairs)?;
        let next = first_places(alloc, &next_keys(alloc, c, here, now)?)?;
        let (joins, blocks) = c.restore(alloc, outside)?;
        if are_same(&next, now) {
            join_induction(alloc, g, c, fixed, depth, first, pairs, joins, blocks)?;
            return Ok(true);
        }
        parts = next;
    }
}

// Joins an induction over the least depth from `from` on where there is one to be joined; or answers that
// there is none.
#[cycle(levels)]
fn pass(
    alloc: Global,
    g: &Graph,
    thetas: &[Theta],
    c: &mut Classes,
    fixed: &[u32],
    from: u32,
    first: usize,
) -> Result<bool, Memory>
    requires graph { IsGraph g.now }
    requires all { AreAll g.now.nodes thetas.now }
    requires classes { IsClasses c.old }
    requires knows { Knows g.now.nodes c.old }
    requires first { first ≤ length c.old.blocks }
    requires closed { IsClosed g.now.nodes fixed.now c.old.numbers }
    requires from { IsFrom fixed.now from }
    ensures { IfOk result (λ found. PassEnds g.now.nodes fixed.now from first c.old found c.new) }
{
    for depth in from..MOST_DEPTH + 1 {
        if induct_at(alloc, g, thetas, c, fixed, depth, first)? {
            return Ok(true);
        }
    }
    Ok(false)
}

/// Joins all that may be joined at a level, with inductions over the depths from `from` on, which are those
/// above the fixed ones.
#[cycle(levels)]
pub(crate) fn close_level(
    alloc: Global,
    g: &Graph,
    thetas: &[Theta],
    c: &mut Classes,
    fixed: &[u32],
    from: u32,
    first: usize,
) -> Result<(), Memory>
    requires graph { IsGraph g.now }
    requires all { AreAll g.now.nodes thetas.now }
    requires classes { IsClasses c.old }
    requires knows { Knows g.now.nodes c.old }
    requires first { first ≤ length c.old.blocks }
    requires from { IsFrom fixed.now from }
    ensures { OnOk result (IsLevelClosed g.now.nodes fixed.now first c.old c.new) }
{
    c.close(alloc, g, fixed)?;
    'closing: loop {
        let found = pass(alloc, g, thetas, c, fixed, from, first)?;
        if !found {
            return Ok(());
        }
    }
}
