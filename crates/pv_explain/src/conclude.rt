//! What a search joined, explained, and a section for two nodes.

ghost use Rattle.std.specs.Prelude.{◌≡◌, ◌≢◌, ◌<◌, [], false, IfOk, OnOk, length};
ghost use Rattle.pv_graph.specs.Graphs.{IsGraph};
ghost use Rattle.pv_steps.specs.Steps.{assumed_in};
ghost use Rattle.pv_steps.specs.Right.{Gives};
ghost use Rattle.pv_steps.specs.Accepted.{Derives};
ghost use Rattle.pv_axioms.specs.Entries.{ByAxioms};
ghost use Rattle.pv_writer.specs.Written.{GoesOn, inside};
ghost use Rattle.pv_explain.specs.Sections.{HasLinked, IsGrounded, IsGrown};
ghost use Rattle.pv_explain.specs.Copying.{HasBase};
ghost use Rattle.pv_explain.specs.Lines.{IsLevel, IsSource};
ghost use Rattle.pv_explain.specs.Levels.{HasAll, HasLast, IsOutside};
ghost use Rattle.pv_explain.specs.Named.{AreReady};
ghost use Rattle.pv_explain.specs.Pairs.{GiveEach, HasLinkedPairs, LinksPairs};

use crate::copy::copy_nodes;
use crate::joins::state_joins;
use crate::kids::kid_reason;
use crate::level::Level;
use crate::named::needed_nodes;
use crate::needed::needed_joins;
use crate::source::{Search, Source};
use pv_graph::{Graph, NodeId};
use pv_list::Listed;
use pv_steps::{Reason, Step};
use pv_value::Memory;
use pv_writer::Writer;
use std::alloc::Global;

// States by the last step that two nodes are equal: once more, where an earlier step did.
fn state_last(writer: &mut Writer, a: NodeId, b: NodeId, why: Reason) -> Result<(), Memory>
    requires why { Gives writer.old.before (inside writer.old) [] why a b }
    requires apart { a ≢ b }
    ensures last { OnOk result (HasLast writer.new a b) }
    ensures goes { OnOk result (GoesOn writer.old writer.new) }
{
    match why {
        Reason::By(fact) if fact.step as usize == writer.count() => Ok(()),
        Reason::By(fact) => {
            let back = writer.flip(b, a, fact)?;
            let _last = writer.flip(a, b, back)?;
            Ok(())
        }
        _ => unreachable!(),
    }
}

// The lines of all joins of a search.
fn state_all(
    alloc: Global,
    writer: &mut Writer,
    source: &Source,
    search: &Search,
) -> Result<Level, Memory>
    requires source { IsSource writer.old source.now }
    requires graph { source.now.graph ≡ search.now.graph }
    requires outside { IsOutside writer.old search.now.graph.now }
    requires grounds { IsGrounded search.now (assumed_in (inside writer.old)) }
    requires named { AreReady source.now search.now.blocks.now search.now.joins.now }
    ensures lines { IfOk result (λ level. HasAll writer.new source.now level search.now.joins.now) }
    ensures goes { IfOk result (λ level. GoesOn writer.old writer.new) }
{
    let mut level = Level::new(alloc, source.graph.len() as usize)?;
    state_joins(
        alloc,
        writer,
        source,
        &mut level,
        search.blocks,
        search.joins,
    )?;
    Ok(level)
}

// Why the two nodes of each pair are equal, in order.
fn pair_reasons(
    alloc: Global,
    writer: &mut Writer,
    source: &Source,
    level: &Level,
    pairs: &[(NodeId, NodeId)],
) -> Result<Vec<Reason>, Memory>
    requires source { IsSource writer.old source.now }
    requires level { IsLevel writer.old source.now level.now }
    requires linked { LinksPairs source.now level.now pairs.now }
    ensures reasons { IfOk result (λ reasons. GiveEach writer.new reasons.items pairs.now) }
    ensures goes { IfOk result (λ reasons. GoesOn writer.old writer.new) }
{
    let mut reasons = Vec::new(alloc);
    for pair in pairs {
        let why = kid_reason(alloc, writer, source, level, pair.0, pair.1)?;
        reasons.push(why)?;
    }
    Ok(reasons)
}

// Why the two nodes of each pair are equal, in order. A search joined them: the steps that state it are written.
pub(crate) fn explain_all(
    alloc: Global,
    writer: &mut Writer,
    search: &Search,
    base: u32,
    pairs: &[(NodeId, NodeId)],
) -> Result<Vec<Reason>, Memory>
    requires made { IsGraph search.now.graph.now }
    requires sealed { search.now.graph.now.is_open ≡ false }
    requires base { base ≡ search.now.graph.now.base }
    requires begins { HasBase writer.old search.now.graph.now }
    requires outside { IsOutside writer.old search.now.graph.now }
    requires grounds { IsGrounded search.now (assumed_in (inside writer.old)) }
    requires linked { HasLinkedPairs search.now pairs.now }
    ensures reasons { IfOk result (λ reasons. GiveEach writer.new reasons.items pairs.now) }
    ensures goes { IfOk result (λ reasons. GoesOn writer.old writer.new) }
{
    let joins = needed_joins(alloc, search, pairs)?;
    let needed = Search {
        graph: search.graph,
        blocks: search.blocks,
        joins: &joins,
    };
    let marks = needed_nodes(alloc, &needed, base)?;
    let map = copy_nodes(alloc, writer, search.graph, base, &marks)?;
    let source = Source {
        graph: search.graph,
        map: &map,
    };
    let level = state_all(alloc, writer, &source, &needed)?;
    let reasons = pair_reasons(alloc, writer, &source, &level, pairs)?;
    Ok(reasons)
}

// Why two nodes of the base are equal that a search joined: the steps that state it are written.
pub(crate) fn explain(
    alloc: Global,
    writer: &mut Writer,
    search: &Search,
    base: u32,
    a: NodeId,
    b: NodeId,
) -> Result<Reason, Memory>
    requires made { IsGraph search.now.graph.now }
    requires sealed { search.now.graph.now.is_open ≡ false }
    requires base { base ≡ search.now.graph.now.base }
    requires begins { HasBase writer.old search.now.graph.now }
    requires outside { IsOutside writer.old search.now.graph.now }
    requires grounds { IsGrounded search.now (assumed_in (inside writer.old)) }
    requires linked { HasLinked search.now a b }
    requires first { a < base }
    requires second { b < base }
    ensures reason { IfOk result (λ why. Gives writer.new.before (inside writer.new) [] why a b) }
    ensures goes { IfOk result (λ why. GoesOn writer.old writer.new) }
{
    let reasons = explain_all(alloc, writer, search, base, &[(a, b)])?;
    Ok(reasons[0])
}

/// The steps of a section over a sealed graph that derive that two of its nodes are equal, which a search joined in a
/// graph that grew from it. Each join has its ground, where no node is assumed to end. Out of memory is the one error.
pub fn section(
    alloc: Global,
    least: &Graph,
    search: &Search,
    a: NodeId,
    b: NodeId,
) -> Result<Listed<Step>, Memory>
    requires grown { IsGrown least.now search.now.graph.now }
    requires grounds { IsGrounded search.now [] }
    requires linked { HasLinked search.now a b }
    requires first { a < length least.now.nodes }
    requires second { b < length least.now.nodes }
    requires apart { a ≢ b }
    ensures { IfOk result (λ steps. Derives ByAxioms least.now a b steps) }
{
    let mut writer = Writer::new(alloc, least)?;
    let why = explain(alloc, &mut writer, search, least.len(), a, b)?;
    state_last(&mut writer, a, b, why)?;
    Ok(writer.into_steps())
}
