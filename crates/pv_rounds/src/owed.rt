//! The instances that a round adds for its matches.

ghost use Rattle.std.specs.Prelude.{◌≡◌, ◌<◌, ◌^◌, ◌++◌, ℕ, List, IfOk, false, length, map};
ghost use Rattle.pv_graph.specs.Calls.{IsDistinct};
ghost use Rattle.pv_heights.specs.Sides.{Match};
ghost use Rattle.pv_heights.specs.Searches.{OneClass};
ghost use Rattle.pv_instances.specs.Classes.{JoinedHaveOneSort};
ghost use Rattle.pv_witness.specs.Numbered.{AreNumbered, numbered};
ghost use Rattle.pv_saturate.specs.Decoding.{decoded_seen};
ghost use Rattle.pv_rounds.specs.Decoded.{AreReady, IsReady};
ghost use Rattle.pv_rounds.specs.Tables.{AreTables};
ghost use Rattle.pv_rounds.specs.Owed.{AddsAll, AddsOne, AreMatches, CanAdd};

use crate::decoded::instance_of;
use crate::tables::{AllWitnesses, all_witnesses};
use pv_graph::{Graph, NodeId};
use pv_saturate::{Decoded, add_match};
use pv_value::Memory;
use std::alloc::{AllocError, Global};

/// A join that a round owes for a match: the number of its axiom, the substitution, which has a node for each kid of its family and
/// then one for each variable, and the two sides.
#[derive(Drop)]
pub struct Owed {
    pub axiom: u32,
    pub subst: Vec<NodeId>,
    pub left: NodeId,
    pub right: NodeId,
}

// The nodes of one list, and then those of another.
fn both_lists(alloc: Global, first: &[NodeId], second: &[NodeId]) -> Result<Vec<NodeId>, AllocError>
    ensures { IfOk result (λ both. both.items ≡ first.now ++ second.now) }
{
    let mut both = Vec::new(alloc);
    both.extend_from_slice(first)?;
    both.extend_from_slice(second)?;
    Ok(both)
}

// Adds the instance of a match.
fn add_one(
    alloc: Global,
    graph: &mut Graph,
    numbers: &[NodeId],
    m: &Decoded,
    witnesses: &AllWitnesses,
) -> Result<Owed, Memory>
    requires sealed { graph.old.is_open ≡ false }
    requires numbered { AreNumbered graph.old numbers.now }
    requires sorts { JoinedHaveOneSort (numbered graph.old numbers.now) (OneClass numbers.now) }
    requires ready { IsReady m.now }
    requires can { (assumed : List ℕ) × (ms : List (Match ℕ)) × CanAdd (numbered graph.old numbers.now) graph.old numbers.now assumed ms (decoded_seen m.now) witnesses.now }
    ensures { IfOk result (λ owed. (assumed : List ℕ) (ms : List (Match ℕ)) → CanAdd (numbered graph.old numbers.now) graph.old numbers.now assumed ms (decoded_seen m.now) witnesses.now → AddsOne (numbered graph.old numbers.now) graph.old graph.new numbers.now assumed (decoded_seen m.now) owed) }
{
    let _count = graph.len();
    let nodes = add_match(
        alloc,
        graph,
        numbers,
        &instance_of(m),
        &m.names,
        &witnesses.at(m.params.depth),
    )?;
    let subst = both_lists(alloc, m.kids, &nodes.vars)?;
    Ok(Owed {
        axiom: m.entry.number,
        subst,
        left: nodes.left,
        right: nodes.right,
    })
}

// Adds the instances of matches, one for each.
fn add_each(
    alloc: Global,
    graph: &mut Graph,
    numbers: &[NodeId],
    assumed: &[NodeId],
    list: &[Decoded],
    witnesses: &AllWitnesses,
) -> Result<Vec<Owed>, Memory>
    requires sealed { graph.old.is_open ≡ false }
    requires numbered { AreNumbered graph.old numbers.now }
    requires sorts { JoinedHaveOneSort (numbered graph.old numbers.now) (OneClass numbers.now) }
    requires distinct { IsDistinct graph.old.nodes }
    requires ready { AreReady list.now }
    requires matches { AreMatches (numbered graph.old numbers.now) numbers.now assumed.now (map decoded_seen list.now) }
    requires tables { AreTables (numbered graph.old numbers.now) graph.old numbers.now assumed.now (map decoded_seen list.now) witnesses.now }
    ensures { IfOk result (λ owed. AddsAll (numbered graph.old numbers.now) graph.old graph.new numbers.now assumed.now (map decoded_seen list.now) owed.items) }
{
    let _count = graph.len();
    let mut owed = Vec::new(alloc);
    for m in list {
        let _here = graph.len();
        let one = add_one(alloc, graph, numbers, m, witnesses)?;
        owed.push(one)?;
    }
    Ok(owed)
}

/// Adds the instances of all matches of a round, one for each, with some nodes assumed to end, and gives the joins that it owes for
/// them. After `Memory` nothing is promised of the graph.
pub(crate) fn add_all(
    alloc: Global,
    graph: &mut Graph,
    numbers: &[NodeId],
    assumed: &[NodeId],
    list: &[Decoded],
) -> Result<Vec<Owed>, Memory>
    requires sealed { graph.old.is_open ≡ false }
    requires numbered { AreNumbered graph.old numbers.now }
    requires sorts { JoinedHaveOneSort (numbered graph.old numbers.now) (OneClass numbers.now) }
    requires distinct { IsDistinct graph.old.nodes }
    requires ready { AreReady list.now }
    requires matches { AreMatches (numbered graph.old numbers.now) numbers.now assumed.now (map decoded_seen list.now) }
    ensures { IfOk result (λ owed. AddsAll (numbered graph.old numbers.now) graph.old graph.new numbers.now assumed.now (map decoded_seen list.now) owed.items) }
{
    let _count = graph.len();
    let witnesses = all_witnesses(alloc, graph, numbers, assumed, list)?;
    let owed = add_each(alloc, graph, numbers, assumed, list, &witnesses)?;
    Ok(owed)
}
