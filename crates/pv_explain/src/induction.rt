//! What stands around the block of an induction, and what ends it.

ghost use Rattle.std.specs.Prelude.{◌≡◌, ℕ, ◌∷◌, [], IfOk, suc};
ghost use Rattle.std.specs.List.{AllZip, Contains};
ghost use Rattle.pv_steps.specs.Steps.{blocks, outer_of};
ghost use Rattle.pv_steps.specs.Right.{IsFresh, RightOver};
ghost use Rattle.pv_axioms.specs.Entries.{ByAxioms};
ghost use Rattle.pv_classes.specs.Blocks.{depth_of, inner_of, joins_of, listed, pairs_of};
ghost use Rattle.pv_writer.specs.Written.{AreCongruent, GoesOn, Pushed, States, inside};
ghost use Rattle.pv_explain.specs.Lines.{AreStated, IsLevel, IsSource};
ghost use Rattle.pv_explain.specs.Levels.{HaveLines, JoinsStand};
ghost use Rattle.pv_explain.specs.Iterations.{AreBegun, AreLinesOf, BlockStands, Ends, GoOn, IsBegun, IsInside, IsZero, MayBegin, MayGoOn, Opens, both_copies};

use crate::follow::Line;
use crate::iteration::{Unrolled, meet, unroll, zero_node};
use crate::kids::kid_reason;
use crate::level::Level;
use crate::source::Source;
use pv_classes::Block;
use pv_graph::NodeId;
use pv_list::Listed;
use pv_steps::{Fact, Reason, Step};
use pv_value::Memory;
use pv_writer::Writer;
use std::alloc::Global;

// A pair of an induction, and a fact outside it that states that the copies of the two are equal at iteration 0.
#[derive(Clone, Copy)]
pub(crate) struct Begun {
    pub(crate) left: Unrolled,
    pub(crate) right: Unrolled,
    pub(crate) start: Fact,
}

// ---- outside

// The reasons of a node at iteration 0: one for its first kid, and the iteration is the same.
fn with_same(alloc: Global, why: Reason) -> Result<Vec<Reason>, Memory>
    ensures { IfOk result (λ reasons. reasons.items ≡ why ∷ Reason.Same ∷ []) }
{
    let mut reasons = Vec::new(alloc);
    reasons.push(why)?;
    reasons.push(Reason::Same)?;
    Ok(reasons)
}

// States that two nodes at iteration 0 are equal.
fn equal_at_zero(
    alloc: Global,
    writer: &mut Writer,
    left: NodeId,
    right: NodeId,
    why: Reason,
) -> Result<Fact, Memory>
    requires { AreCongruent writer.old left right (why ∷ Reason.Same ∷ []) }
    ensures { IfOk result (λ fact. States writer.old writer.new left right fact) }
{
    let reasons = with_same(alloc, why)?;
    let fact = writer.congruence(alloc, left, right, reasons)?;
    Ok(fact)
}

// A pair of thetas, and what is stated of them outside the induction.
fn begin_pair(
    alloc: Global,
    writer: &mut Writer,
    source: &Source,
    level: &Level,
    depth: u32,
    zero: NodeId,
    pair: (NodeId, NodeId),
) -> Result<Begun, Memory>
    requires source { IsSource writer.old source.now }
    requires level { IsLevel writer.old source.now level.now }
    requires zero { IsZero writer.old zero }
    requires pair { MayBegin source.now level.now depth pair }
    requires fresh { IsFresh depth (blocks (inside writer.old)) }
    ensures begun { IfOk result (λ b. IsBegun writer.new (inside writer.new) source.now depth zero pair b) }
    ensures goes { IfOk result (λ b. GoesOn writer.old writer.new) }
{
    let left = unroll(alloc, writer, source, depth, zero, pair.0)?;
    let right = unroll(alloc, writer, source, depth, zero, pair.1)?;
    let why = kid_reason(alloc, writer, source, level, left.first, right.first)?;
    let fact = equal_at_zero(alloc, writer, left.start.right, right.start.right, why)?;
    let start = meet(writer, left.start, right.start, Reason::By(fact))?;
    Ok(Begun { left, right, start })
}

// .. for each pair.
fn begin_pairs(
    alloc: Global,
    writer: &mut Writer,
    source: &Source,
    level: &Level,
    depth: u32,
    zero: NodeId,
    pairs: &[(NodeId, NodeId)],
) -> Result<Vec<Begun>, Memory>
    requires source { IsSource writer.old source.now }
    requires level { IsLevel writer.old source.now level.now }
    requires zero { IsZero writer.old zero }
    requires pairs { (pair : ℕ × ℕ) → Contains pairs.now pair → MayBegin source.now level.now depth pair }
    requires fresh { IsFresh depth (blocks (inside writer.old)) }
    ensures begun { IfOk result (λ begun. AllZip (IsBegun writer.new (inside writer.new) source.now depth zero) pairs.now begun.items) }
    ensures goes { IfOk result (λ begun. GoesOn writer.old writer.new) }
{
    let mut begun = Vec::new(alloc);
    for pair in pairs {
        let b = begin_pair(alloc, writer, source, level, depth, zero, *pair)?;
        begun.push(b)?;
    }
    Ok(begun)
}

// What is stated of the pairs of a block outside it.
pub(crate) fn begin(
    alloc: Global,
    writer: &mut Writer,
    source: &Source,
    level: &Level,
    block: &Block,
) -> Result<Vec<Begun>, Memory>
    requires { BlockStands writer.old source.now level.now block.now }
    ensures begun { IfOk result (λ begun. AreBegun writer.new (inside writer.new) source.now (depth_of block.now) (pairs_of block.now) begun.items) }
    ensures goes { IfOk result (λ begun. GoesOn writer.old writer.new) }
{
    let zero = zero_node(alloc, writer)?;
    let begun = begin_pairs(
        alloc,
        writer,
        source,
        level,
        block.depth(),
        zero,
        block.pairs(),
    )?;
    Ok(begun)
}

// ---- the lines of the pairs

// The place of a pair among those that a step states, counted from 1. More than a step can number are out of memory.
fn place_of(i: usize) -> Result<u32, Memory>
    ensures { IfOk result (λ place. place ≡ suc i) }
{
    if i >= u32::MAX as usize {
        return Err(Memory);
    }
    Ok(i as u32 + 1)
}

// The lines of pairs that a step states.
fn lines_of(alloc: Global, begun: &[Begun], step: u32) -> Result<Vec<Line>, Memory>
    ensures { IfOk result (λ lines. AreLinesOf step begun.now lines.items) }
{
    let mut lines = Vec::new(alloc);
    for pair in begun {
        let place = place_of(lines.len())?;
        lines.push(Line {
            first: pair.left.theta,
            second: pair.right.theta,
            left: pair.left.copy,
            right: pair.right.copy,
            fact: Fact { step, place },
        })?;
    }
    Ok(lines)
}

// The copies of the two nodes of each pair.
fn copies_of_pairs(alloc: Global, begun: &[Begun]) -> Result<Vec<(NodeId, NodeId)>, Memory>
    ensures { IfOk result (λ pairs. pairs.items ≡ both_copies begun.now) }
{
    let mut pairs = Vec::new(alloc);
    for pair in begun {
        pairs.push((pair.left.copy, pair.right.copy))?;
    }
    Ok(pairs)
}

// ---- the block is opened

// Opens an induction, and gives the number of the step.
fn push_open(writer: &mut Writer, depth: u32, pairs: Vec<(NodeId, NodeId)>) -> Result<u32, Memory>
    requires { RightOver ByAxioms writer.old.graph writer.old.before (Step.Open depth pairs.items) }
    ensures { IfOk result (λ step. Pushed writer.old writer.new (Step.Open depth pairs.items) step) }
{
    let step = writer.push(Step::Open(depth, Listed::from(pairs)))?;
    Ok(step)
}

// Opens the block of an induction, and gives the level inside it.
pub(crate) fn open(
    alloc: Global,
    writer: &mut Writer,
    source: &Source,
    level: &Level,
    block: &Block,
    begun: &[Begun],
) -> Result<Level, Memory>
    requires stands { BlockStands writer.old source.now level.now block.now }
    requires begun { AreBegun writer.old (inside writer.old) source.now (depth_of block.now) (pairs_of block.now) begun.now }
    ensures opens { IfOk result (λ inner. Opens writer.old writer.new (depth_of block.now) begun.now) }
    ensures lines { IfOk result (λ inner. inner.lines.items ≡ level.now.lines.items) }
    ensures stand { IfOk result (λ inner. JoinsStand writer.new source.now inner (listed (inner_of block.now)) (joins_of block.now)) }
{
    let pairs = copies_of_pairs(alloc, begun)?;
    let step = push_open(writer, block.depth(), pairs)?;
    let known = lines_of(alloc, begun, step)?;
    let nodes = source.graph.len() as usize;
    let inner = Level::of(alloc, nodes, &level.lines, known)?;
    Ok(inner)
}

// ---- the block is ended

// The pair's fact for iteration 0, and one for one iteration later.
fn next_facts(
    alloc: Global,
    writer: &mut Writer,
    source: &Source,
    level: &Level,
    b: &Begun,
) -> Result<(Fact, Fact), Memory>
    requires source { IsSource writer.old source.now }
    requires level { IsLevel writer.old source.now level.now }
    requires pair { MayGoOn writer.old source.now level.now b.now }
    ensures facts { IfOk result (λ facts. GoOn writer.new b.now facts) }
    ensures goes { IfOk result (λ facts. GoesOn writer.old writer.new) }
{
    let why = kid_reason(alloc, writer, source, level, b.left.second, b.right.second)?;
    let fact = meet(writer, b.left.next, b.right.next, why)?;
    Ok((b.start, fact))
}

// .. for each pair.
fn all_next_facts(
    alloc: Global,
    writer: &mut Writer,
    source: &Source,
    level: &Level,
    begun: &[Begun],
) -> Result<Vec<(Fact, Fact)>, Memory>
    requires source { IsSource writer.old source.now }
    requires level { IsLevel writer.old source.now level.now }
    requires pairs { (b : Begun) → Contains begun.now b → MayGoOn writer.old source.now level.now b }
    ensures facts { IfOk result (λ facts. AllZip (GoOn writer.new) begun.now facts.items) }
    ensures goes { IfOk result (λ facts. GoesOn writer.old writer.new) }
{
    let mut all = Vec::new(alloc);
    for b in begun {
        let facts = next_facts(alloc, writer, source, level, b)?;
        all.push(facts)?;
    }
    Ok(all)
}

// Ends an induction, and gives the number of the step.
fn push_close(writer: &mut Writer, depth: u32, facts: Vec<(Fact, Fact)>) -> Result<u32, Memory>
    requires { RightOver ByAxioms writer.old.graph writer.old.before (Step.Close depth facts.items) }
    ensures { IfOk result (λ step. Pushed writer.old writer.new (Step.Close depth facts.items) step) }
{
    let step = writer.push(Step::Close(depth, Listed::from(facts)))?;
    Ok(step)
}

// Ends the block of an induction, and gives the lines of its pairs outside it.
pub(crate) fn close(
    alloc: Global,
    writer: &mut Writer,
    source: &Source,
    level: &Level,
    block: &Block,
    begun: &[Begun],
) -> Result<Vec<Line>, Memory>
    requires source { IsSource writer.old source.now }
    requires level { IsLevel writer.old source.now level.now }
    requires inside { IsInside writer.old (depth_of block.now) begun.now }
    requires begun { AreBegun writer.old (outer_of (inside writer.old)) source.now (depth_of block.now) (pairs_of block.now) begun.now }
    requires pairs { (b : Begun) → Contains begun.now b → MayGoOn writer.old source.now level.now b }
    ensures ends { IfOk result (λ lines. Ends writer.old writer.new) }
    ensures stated { IfOk result (λ lines. AreStated writer.new source.now.map.now lines.items) }
    ensures lines { IfOk result (λ lines. HaveLines (pairs_of block.now) lines.items) }
{
    let facts = all_next_facts(alloc, writer, source, level, begun)?;
    let step = push_close(writer, block.depth(), facts)?;
    let lines = lines_of(alloc, begun, step)?;
    Ok(lines)
}
