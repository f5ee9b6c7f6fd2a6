//! A search: a graph that grows from a least graph, with classes of its nodes.

ghost use Rattle.std.specs.Prelude.{◌↔◌, IfOk, IsTrue, OnOk, map};
ghost use Rattle.pv_axioms.specs.Entries.{AreAxioms};
ghost use Rattle.pv_match.specs.AllMatches.{AreAllMatches, IsAnswer};
ghost use Rattle.pv_pattern.specs.Seen.{axiom_seen};
ghost use Rattle.pv_rounds.specs.Known.{EachStands};
ghost use Rattle.pv_rounds.specs.Searching.{Begins, GoesOn, IsBegun, IsLeastGraph, IsSaturatedNow, Looks, MakesRound, WasLast, axioms_of};

use crate::joining::join_all;
use crate::known::new_matches;
use crate::last::{Last, keep};
use crate::owed::add_all;
use crate::standing::all_stand;
use pv_base::Gate;
use pv_classes::Classes;
use pv_graph::{Graph, NodeId};
use pv_induct::induct;
use pv_marks::{class_marks, node_marks};
use pv_match::{Match, Matches, matches, rematch};
use pv_pattern::Axiom;
use pv_pieces::Workers;
use pv_touched::{Since, touched};
use pv_value::Memory;
use std::alloc::Global;
use std::thread::Threads;

/// A search: its graph, the classes of its nodes, the axioms by which it goes, the nodes that count as ending, the marks of the base, how
/// many matches a round may have, and what it keeps of its last round. Its classes are closed, with all inductions.
#[derive(Drop)]
pub struct Search<'a> {
    pub graph: Graph,
    pub classes: Classes,
    pub table: &'a [Axiom],
    pub endings: Vec<NodeId>,
    pub marks: Vec<u32>,
    pub budget: u32,
    last: Option<Last>,
}

/// What is seen of a search before a round.
#[derive(Debug, Drop)]
pub enum Looked {
    /// There are more matches than the budget: this many at least.
    Over(usize),
    /// No match joins more.
    Saturated,
    /// Some match joins more. These are all matches.
    Open(Vec<Match>),
}

impl<'a> Search<'a> {
    /// The search over a least graph, by some of the axioms, before its first round. Its classes are what congruence and inductions join.
    pub fn new(
        alloc: Global,
        least: &Graph,
        table: &'a [Axiom],
        endings: Vec<NodeId>,
        budget: u32,
    ) -> Result<Search<'a>, Memory>
        requires least { IsLeastGraph least.now }
        requires table { AreAxioms (map axiom_seen table.now) }
        ensures { IfOk result (λ s. Begins least.now (map axiom_seen table.now) endings.items budget s) }
    {
        let marks = node_marks(alloc, least, &endings)?;
        let graph = least.copy(alloc)?;
        let _count = graph.len();
        let mut classes = Classes::new(alloc, &graph)?;
        induct(alloc, &graph, &mut classes)?;
        Ok(Search {
            graph,
            classes,
            table,
            endings,
            marks,
            budget,
            last: None,
        })
    }

    // All matches, where these were seen before the last round: the touched nodes alone are looked at.
    fn matches_since<R: Threads + Sync, G: Gate>(
        &self,
        workers: &Workers<R, G>,
        alloc: Global,
        last: &Last,
    ) -> Result<Matches, Memory>
        requires begun { IsBegun self.now }
        requires last { WasLast self.now last.now }
        ensures { IfOk result (λ answer. IsAnswer self.now.graph self.now.classes.numbers self.now.endings.items (axioms_of self.now) self.now.budget answer) }
    {
        let _count = self.graph.len();
        let numbers = self.classes.numbers(alloc)?;
        let marks = class_marks(alloc, &self.graph, &numbers, &self.marks)?;
        let since = Since {
            old_numbers: &last.numbers,
            old_marks: &last.marks,
            numbers: &numbers,
            marks: &marks,
        };
        let kept = self.classes.first_of_forms(alloc, &self.graph)?;
        let nodes = touched(alloc, &self.graph, self.table, &since, &kept)?;
        let answer = rematch(
            workers,
            alloc,
            &self.graph,
            &self.classes,
            &self.marks,
            self.table,
            &last.list,
            &nodes,
            self.budget as usize,
        )?;
        Ok(answer)
    }

    // All matches, or that there are more than the budget. Where more than half of the nodes have come since the last look, nearly all are touched, so all are looked at.
    fn all_matches<R: Threads + Sync, G: Gate>(
        &self,
        workers: &Workers<R, G>,
        alloc: Global,
    ) -> Result<Matches, Memory>
        requires { IsBegun self.now }
        ensures { IfOk result (λ answer. IsAnswer self.now.graph self.now.classes.numbers self.now.endings.items (axioms_of self.now) self.now.budget answer) }
    {
        if let Some(last) = &self.last {
            if last.numbers.len() >= self.graph.len() as usize / 2 {
                let answer = self.matches_since(workers, alloc, last)?;
                return Ok(answer);
            }
        }
        let _count = self.graph.len();
        let answer = matches(
            workers,
            alloc,
            &self.graph,
            &self.classes,
            &self.marks,
            self.table,
            self.budget as usize,
        )?;
        Ok(answer)
    }

    /// What there is to do. Before the first round, and where more than half of the nodes have come since the last look, it passes the gate before each node at which a left
    /// side may start, with the number of the piece, and else before each node that the last round touched. It is the same for every number of workers.
    pub fn look<R: Threads + Sync, G: Gate>(
        &self,
        workers: &Workers<R, G>,
        alloc: Global,
    ) -> Result<Looked, Memory>
        requires { IsBegun self.now }
        ensures { IfOk result (λ looked. Looks self.now looked) }
    {
        match self.all_matches(workers, alloc)? {
            Matches::More(n) => Ok(Looked::Over(n)),
            Matches::All(list) => {
                if self.is_saturated(alloc, &list)? {
                    Ok(Looked::Saturated)
                } else {
                    Ok(Looked::Open(list))
                }
            }
        }
    }

    // Whether none of these, which are all matches, joins more. Those that are known don't.
    fn is_saturated(&self, alloc: Global, list: &[Match]) -> Result<bool, Memory>
        requires begun { IsBegun self.now }
        requires all { AreAllMatches self.now.graph self.now.classes.numbers self.now.endings.items (axioms_of self.now) list.now }
        ensures { IfOk result (λ yes. IsTrue yes ↔ IsSaturatedNow self.now) }
    {
        let new = new_matches(alloc, self.table, self.known(), list)?;
        all_stand(alloc, &self.graph, &self.classes, &new)
    }

    // The matches of the last round; before the first there are none. Both sides of each stand in one class.
    fn known(&self) -> &[Match]
        requires { IsBegun self.now }
        ensures { EachStands self.now.graph self.now.classes.numbers (axioms_of self.now) result.now }
    {
        match &self.last {
            Some(last) => &last.list,
            None => &[],
        }
    }

    /// Makes a round by the list of all matches: an instance of each that isn't known from the last round is added, and its sides are joined, and then
    /// all that congruence and inductions join. After `Memory` the search is given up.
    pub fn grow(&mut self, alloc: Global, list: &[Match]) -> Result<(), Memory>
        requires begun { IsBegun self.old }
        requires all { AreAllMatches self.old.graph self.old.classes.numbers self.old.endings.items (axioms_of self.old) list.now }
        ensures goes { OnOk result (GoesOn self.old self.new) }
        ensures made { OnOk result (MakesRound self.old.graph self.new.graph self.old.endings.items self.old.classes self.new.classes) }
    {
        let _count = self.graph.len();
        let new = new_matches(alloc, self.table, self.known(), list)?;
        let numbers = self.classes.numbers(alloc)?;
        let last = keep(alloc, &self.graph, &numbers, &self.marks, list)?;
        let owed = add_all(alloc, &mut self.graph, &numbers, &self.endings, &new)?;
        let _here = self.graph.len();
        self.classes.grow(alloc, &self.graph)?;
        join_all(alloc, &mut self.classes, &owed)?;
        induct(alloc, &self.graph, &mut self.classes)?;
        self.last = Some(last);
        Ok(())
    }
}
