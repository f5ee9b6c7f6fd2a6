//! Two searches side by side, on the roots of one least graph.

ghost use Rattle.std.specs.Prelude.{◌≡◌, ℕ, zero, IfOk, OnOk, map};
ghost use Rattle.pv_alike.specs.Least.{Rooted};
ghost use Rattle.pv_axioms.specs.Entries.{AreAxioms};
ghost use Rattle.pv_pattern.specs.Seen.{axiom_seen};
ghost use Rattle.pv_prove.specs.Finding.{HaveMade, axioms_in, ending_of};
ghost use Rattle.pv_prove.specs.Looking.{AreBegun, AreOpen, BeginsOther, ForOther, GoOn, GoesFurther, IsBegun, IsLeastGraph, IsOver, Looks, LooksOther, OtherGoes, Sees, seen_of};

use crate::meeting::how_met;
use crate::outcome::{Limits, Outcome};
use pv_alike::Least;
use pv_base::Gate;
use pv_endings::endings;
use pv_graph::{Graph, NodeId};
use pv_grounds::{Looked, Search};
use pv_pattern::Axiom;
use pv_pieces::Workers;
use pv_value::Memory;
use std::alloc::Global;
use std::thread::Threads;

/// Two searches over one least graph: a plain one, in which no nodes count as ending, and one in which the nodes that the first
/// root waits for do. Where it waits for none, that is the plain one, and there is no other.
#[derive(Drop)]
pub struct Searches<'a> {
    pub plain: Search<'a>,
    pub other: Option<Search<'a>>,
}

// What two searches show after some rounds: they decide, or else this is to do.
#[derive(Drop)]
pub(crate) enum Seen {
    Decided(Outcome),
    Open {
        plain: Looked,
        other: Option<Looked>,
    },
}

// What is seen after k rounds, where the roots don't meet.
fn seen_of(k: u32, plain: Looked, other: Option<Looked>) -> Seen
    ensures { result ≡ seen_of k plain other }
{
    match (plain, other) {
        (Looked::Over(_), _) | (_, Some(Looked::Over(_))) => Seen::Decided(Outcome::Budget(k)),
        (Looked::Saturated, None | Some(Looked::Saturated)) => Seen::Decided(Outcome::Apart),
        (plain, other) => Seen::Open { plain, other },
    }
}

// The search in which these nodes count as ending, if there are any.
fn other_search<'a>(
    alloc: Global,
    graph: &Graph,
    table: &'a [Axiom],
    nodes: Vec<NodeId>,
    budget: u32,
) -> Result<Option<Search<'a>>, Memory>
    requires least { IsLeastGraph graph.now }
    requires table { AreAxioms (map axiom_seen table.now) }
    ensures { IfOk result (λ other. BeginsOther graph.now (map axiom_seen table.now) nodes.items budget other) }
{
    if nodes.is_empty() {
        return Ok(None);
    }
    let search = Search::new(alloc, graph, table, nodes, budget)?;
    Ok(Some(search))
}

// What a look at a search shows, if there is one.
fn look_at<R: Threads + Sync, G: Gate>(
    workers: &Workers<R, G>,
    alloc: Global,
    search: &Option<Search>,
) -> Result<Option<Looked>, Memory>
    requires { ForOther IsBegun search.now }
    ensures { IfOk result (λ looked. LooksOther search.now looked) }
{
    match search {
        Some(search) => {
            let looked = search.look(workers, alloc)?;
            Ok(Some(looked))
        }
        None => Ok(None),
    }
}

// Makes a round, where some match joins more. A search in which none does stands one round further on as it is.
fn go_on(alloc: Global, search: &mut Search, looked: &Looked) -> Result<(), Memory>
    requires begun { IsBegun search.old }
    requires looked { Looks search.old looked.now }
    requires few { IsOver search.old → ⊥ }
    ensures { OnOk result (GoesFurther search.old search.new) }
{
    match looked {
        Looked::Open(list) => search.grow(alloc, list),
        _ => Ok(()),
    }
}

// The same of a search with endings, if it is one of its own.
fn go_on_other(
    alloc: Global,
    search: &mut Option<Search>,
    looked: &Option<Looked>,
) -> Result<(), Memory>
    requires begun { ForOther IsBegun search.old }
    requires looked { LooksOther search.old looked.now }
    requires few { ForOther (λ s. IsOver s → ⊥) search.old }
    ensures { OnOk result (OtherGoes search.old search.new) }
{
    match (search, looked) {
        (Some(search), Some(looked)) => go_on(alloc, search, looked),
        _ => Ok(()),
    }
}

impl<'a> Searches<'a> {
    // Two searches by the axioms that the limits name, which have made no round.
    pub(crate) fn new(
        alloc: Global,
        least: &Least,
        table: &'a [Axiom],
        limits: Limits,
    ) -> Result<Searches<'a>, Memory>
        requires least { IsLeastGraph least.now.graph }
        requires table { map axiom_seen table.now ≡ axioms_in limits.axioms }
        ensures { IfOk result (λ s. HaveMade least.now limits zero s) }
    {
        let nodes = endings(alloc, least.graph(), least.first())?;
        let plain = Search::new(alloc, least.graph(), table, Vec::new(alloc), limits.budget)?;
        let other = other_search(alloc, least.graph(), table, nodes, limits.budget)?;
        Ok(Searches { plain, other })
    }

    /// The search with endings.
    pub fn ending(&self) -> &Search<'a>
        ensures { result.now ≡ ending_of self.now }
    {
        match &self.other {
            Some(other) => other,
            None => &self.plain,
        }
    }

    // What is seen of the roots and of both searches, which have made k rounds.
    pub(crate) fn look<R: Threads + Sync, G: Gate>(
        &self,
        workers: &Workers<R, G>,
        alloc: Global,
        least: &Least,
        k: u32,
    ) -> Result<Seen, Memory>
        requires { AreBegun self.now }
        ensures { IfOk result (λ seen. Sees least.now k self.now seen) }
    {
        if let Some(meeting) = how_met(least, &self.plain.classes, &self.ending().classes) {
            return Ok(Seen::Decided(Outcome::Met(meeting)));
        }
        let plain = self.plain.look(workers, alloc)?;
        let other = look_at(workers, alloc, &self.other)?;
        Ok(seen_of(k, plain, other))
    }

    // Takes both one round further on, by what was seen of them.
    pub(crate) fn go_on(
        &mut self,
        alloc: Global,
        plain: &Looked,
        other: &Option<Looked>,
    ) -> Result<(), Memory>
        requires begun { AreBegun self.old }
        requires open { (l : Rooted) × AreOpen l self.old plain.now other.now }
        ensures { OnOk result (GoOn self.old self.new) }
    {
        go_on(alloc, &mut self.plain, plain)?;
        go_on_other(alloc, &mut self.other, other)
    }
}
