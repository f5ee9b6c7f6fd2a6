//! An ending block, for two roots whose kids two searches joined.

ghost use Rattle.std.specs.Prelude.{◌≡◌, ℕ, List, [], false, IfOk, OnOk};
ghost use Rattle.pv_graph.specs.Graphs.{IsGraph};
ghost use Rattle.pv_graph.specs.Walks.{In};
ghost use Rattle.pv_steps.specs.Steps.{assumed_in};
ghost use Rattle.pv_steps.specs.Right.{Gives};
ghost use Rattle.pv_steps.specs.Accepted.{Derives};
ghost use Rattle.pv_axioms.specs.Entries.{ByAxioms};
ghost use Rattle.pv_endings.specs.Endings.{IsEnding, IsRootOver, WaitsFor};
ghost use Rattle.pv_writer.specs.Written.{GoesOn, IsLater, inside};
ghost use Rattle.pv_explain.specs.Sections.{HasLinked, IsGrounded, IsGrown};
ghost use Rattle.pv_explain.specs.Copying.{HasBase};
ghost use Rattle.pv_explain.specs.Levels.{HasLast, IsOutside};
ghost use Rattle.pv_explain.specs.Pairs.{GiveEach, HasLinkedPairs};
ghost use Rattle.pv_explain.specs.Endings.{IsInBlock, other_kids};

use crate::conclude::{explain, explain_all};
use crate::source::Search;
use pv_endings::RootParts;
use pv_graph::{Graph, Kids, NodeId};
use pv_list::Listed;
use pv_steps::{Reason, Step};
use pv_value::Memory;
use pv_writer::Writer;
use std::alloc::Global;

/// Two roots and their kids.
#[derive(Clone, Copy)]
pub struct RootPair {
    pub first: NodeId,
    pub second: NodeId,
    pub left: RootParts,
    pub right: RootParts,
}

/// What two searches made: a plain one, and one in which these nodes count as ending.
#[derive(Clone, Copy)]
pub struct BothSearches<'a> {
    pub plain: Search<'a>,
    pub ending: Search<'a>,
    pub ends: &'a [NodeId],
}

// Opens a block for a root, in which these nodes are assumed to end.
fn open_block(alloc: Global, writer: &mut Writer, p: NodeId, ends: &[NodeId]) -> Result<(), Memory>
    requires outside { inside writer.old ≡ [] }
    requires waits { WaitsFor writer.old.graph p ends.now }
    ensures block { OnOk result (IsInBlock writer.new p ends.now) }
    ensures later { OnOk result (IsLater writer.old writer.new) }
{
    let nodes = Kids::new(alloc, ends)?;
    writer.push(Step::Assume(p, nodes))?;
    Ok(())
}

// Ends the block of the first root: the two roots are equal, as their kids are.
fn end_block(
    writer: &mut Writer,
    roots: &RootPair,
    token: Reason,
    others: &[Reason],
) -> Result<(), Memory>
    requires block { (ends : List ℕ) × IsInBlock writer.old roots.now.first ends }
    requires first { IsRootOver writer.old.graph roots.now.first roots.now.left }
    requires second { IsRootOver writer.old.graph roots.now.second roots.now.right }
    requires token { Gives writer.old.before [] [] token roots.now.left.token roots.now.right.token }
    requires others { GiveEach writer.old others.now (other_kids roots.now) }
    ensures last { OnOk result (HasLast writer.new roots.now.first roots.now.second) }
    ensures outside { OnOk result (inside writer.new ≡ []) }
    ensures least { OnOk result (writer.new.least ≡ writer.old.least) }
{
    let (p, q) = (roots.first, roots.second);
    let (fault, result, heap) = (others[0], others[1], others[2]);
    writer.push(Step::Finish(p, q, token, fault, result, heap))?;
    Ok(())
}

// Why the faults, the results and the heaps of two roots are equal, in this order.
fn explain_others(
    alloc: Global,
    writer: &mut Writer,
    search: &Search,
    base: u32,
    roots: &RootPair,
) -> Result<Vec<Reason>, Memory>
    requires made { IsGraph search.now.graph.now }
    requires sealed { search.now.graph.now.is_open ≡ false }
    requires base { base ≡ search.now.graph.now.base }
    requires begins { HasBase writer.old search.now.graph.now }
    requires outside { IsOutside writer.old search.now.graph.now }
    requires grounds { IsGrounded search.now (assumed_in (inside writer.old)) }
    requires linked { HasLinkedPairs search.now (other_kids roots.now) }
    ensures reasons { IfOk result (λ reasons. GiveEach writer.new reasons.items (other_kids roots.now)) }
    ensures goes { IfOk result (λ reasons. GoesOn writer.old writer.new) }
{
    let (left, right) = (roots.left, roots.right);
    let faults = (left.fault, right.fault);
    let results = (left.result, right.result);
    let heaps = (left.heap, right.heap);
    let reasons = explain_all(alloc, writer, search, base, &[faults, results, heaps])?;
    Ok(reasons)
}

/// The steps of a section over a sealed graph that derive that two of its roots are equal. Two searches joined their kids, in
/// graphs that grew from it: a plain search the tokens, and a search with endings the faults, the results and the heaps. The
/// nodes that count as ending there are nodes that the first root waits for. Each join has its ground. Out of memory is the
/// one error.
pub fn ending_section(
    alloc: Global,
    least: &Graph,
    both: &BothSearches,
    roots: &RootPair,
) -> Result<Listed<Step>, Memory>
    requires plain_grown { IsGrown least.now both.now.plain.graph.now }
    requires ending_grown { IsGrown least.now both.now.ending.graph.now }
    requires plain_grounds { IsGrounded both.now.plain [] }
    requires ending_grounds { IsGrounded both.now.ending both.now.ends.now }
    requires ends { (n : ℕ) → In both.now.ends.now n → IsEnding least.now roots.now.first n }
    requires first { IsRootOver least.now roots.now.first roots.now.left }
    requires second { IsRootOver least.now roots.now.second roots.now.right }
    requires tokens { HasLinked both.now.plain roots.now.left.token roots.now.right.token }
    requires faults { HasLinked both.now.ending roots.now.left.fault roots.now.right.fault }
    requires results { HasLinked both.now.ending roots.now.left.result roots.now.right.result }
    requires heaps { HasLinked both.now.ending roots.now.left.heap roots.now.right.heap }
    ensures { IfOk result (λ steps. Derives ByAxioms least.now roots.now.first roots.now.second steps) }
{
    let base = least.len();
    let mut writer = Writer::new(alloc, least)?;
    let (a, b) = (roots.left.token, roots.right.token);
    let token = explain(alloc, &mut writer, &both.plain, base, a, b)?;
    open_block(alloc, &mut writer, roots.first, both.ends)?;
    let others = explain_others(alloc, &mut writer, &both.ending, base, roots)?;
    end_block(&mut writer, roots, token, &others)?;
    Ok(writer.into_steps())
}
