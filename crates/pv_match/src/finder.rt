//! The matches that start at some nodes, each once and in order, up to a limit, by pieces of the nodes at once.

ghost use Rattle.std.specs.Prelude.{◌<◌, ◌≤◌, ◌∷◌, ◌++◌, [], ℕ, List, length, map, IfOk};
ghost use Rattle.std.specs.Bool.{OnFalse};
ghost use Rattle.pv_pattern.specs.Seen.{axiom_seen};
ghost use Rattle.pv_marks.specs.Marks.{AreClassMarks};
ghost use Rattle.pv_match.specs.All.{AreMatchesOf, AreMatchesWhere};
ghost use Rattle.pv_match.specs.Gathering.{Finds, TriedAt, Tries};
ghost use Rattle.pv_match.specs.Finding.{HasFound, HasFoundAll, HasGathered, IsReady};
ghost use Rattle.pv_pieces.specs.Cut.{nth_piece};

use crate::found::{Match, Matches};
use crate::gathered::Gathered;
use crate::members::{Group, with_number};
use crate::reader::Reader;
use crate::together::{beside_known, gather, in_order, put_together};
use pv_base::Gate;
use pv_graph::NodeId;
use pv_pattern::{Axiom, op_number};
use pv_pieces::{Workers, piece_of};
use pv_value::Memory;
use std::alloc::Global;
use std::collections::BTreeSet;
use std::thread;
use std::thread::Threads;

// What matches are looked for by: the classes and their marks, a table with its rules, and how many matches are allowed.
#[derive(Clone, Copy)]
pub(crate) struct Finder<'a> {
    pub(crate) reader: Reader<'a>,
    pub(crate) marks: &'a [u32],
    pub(crate) table: &'a [Axiom],
    pub(crate) rules: &'a [Group],
    pub(crate) limit: usize,
}

impl Finder<'_> {
    // Gathers the matches of the axiom at a place of the table whose left side starts at a node, and says whether there are
    // more than the limit.
    fn find_of(
        &self,
        alloc: Global,
        place: u32,
        n: NodeId,
        found: &mut BTreeSet<Match>,
    ) -> Result<bool, Memory>
        requires ready { IsReady self.now }
        requires few { length found.old.keys ≤ self.now.limit }
        ensures found { IfOk result (λ over. (assumed before places : List ℕ) → AreClassMarks self.now.reader.graph.now self.now.reader.numbers.now assumed self.now.marks.now → AreMatchesWhere self.now.reader.graph.now self.now.reader.numbers.now assumed (TriedAt (map axiom_seen self.now.table.now) before places n) found.old.keys → Tries self.now.reader.graph.now self.now.reader.numbers.now assumed (map axiom_seen self.now.table.now) self.now.limit before (places ++ place ∷ []) n over found.new.keys) }
        ensures few { IfOk result (λ over. OnFalse over (length found.new.keys ≤ self.now.limit)) }
    {
        let Some(rule) = self.table.get(place as usize) else {
            return Ok(false);
        };
        let more = self.reader.matches_at(alloc, rule, n, self.marks)?;
        let is_over = gather(found, more, self.limit)?;
        Ok(is_over)
    }

    // Gathers the matches whose left sides start at a node, and says whether there are more than the limit.
    fn find_at(&self, alloc: Global, n: NodeId, found: &mut BTreeSet<Match>) -> Result<bool, Memory>
        requires ready { IsReady self.now }
        requires few { length found.old.keys ≤ self.now.limit }
        ensures found { IfOk result (λ over. (assumed before : List ℕ) → AreClassMarks self.now.reader.graph.now self.now.reader.numbers.now assumed self.now.marks.now → AreMatchesOf self.now.reader.graph.now self.now.reader.numbers.now assumed (map axiom_seen self.now.table.now) before found.old.keys → Finds self.now.reader.graph.now self.now.reader.numbers.now assumed (map axiom_seen self.now.table.now) self.now.limit (before ++ n ∷ []) over found.new.keys) }
        ensures few { IfOk result (λ over. OnFalse over (length found.new.keys ≤ self.now.limit)) }
    {
        let Some(node) = self.reader.node_at(n) else {
            return Ok(false);
        };
        let places = with_number(self.rules, op_number(&node.op));
        for place in places {
            let is_over = self.find_of(alloc, *place, n, found)?;
            if is_over {
                return Ok(true);
            }
        }
        Ok(false)
    }

    // Gathers the matches whose left sides start at these nodes, which are those of a piece, and stops once there are more than the limit.
    // It passes the gate before each node, with the number of the piece. The set of the matches becomes a list here, where pieces run at once.
    fn find_in<G: Gate>(
        &self,
        alloc: Global,
        gate: &G,
        piece: usize,
        items: &[NodeId],
    ) -> Result<Gathered, Memory>
        requires ready { IsReady self.now }
        ensures { IfOk result (HasGathered self.now items.now) }
    {
        let mut set = BTreeSet::new(alloc);
        for n in items {
            gate.enter(piece);
            let is_over = self.find_at(alloc, *n, &mut set)?;
            if is_over {
                let many = Gathered::from_set(alloc, set, true)?;
                return Ok(many);
            }
        }
        let got = Gathered::from_set(alloc, set, false)?;
        Ok(got)
    }

    // Gathers the matches whose left sides start at these nodes, by consecutive pieces at once.
    fn find_all<R: Threads + Sync, G: Gate>(
        &self,
        workers: &Workers<R, G>,
        alloc: Global,
        items: &[NodeId],
    ) -> Result<Gathered, Memory>
        requires ready { IsReady self.now }
        ensures found { IfOk result (HasGathered self.now items.now) }
        ensures few { IfOk result (λ got. OnFalse got.is_over (length got.list.items ≤ self.now.limit)) }
    {
        let (gate, count) = (workers.gate, workers.count());
        let parts = thread::map_indices(
            workers.rt,
            alloc,
            count,
            &|k| -> Result<Gathered, Memory>
                requires { (k < count) × IsReady self.now }
                ensures { IfOk result (HasGathered self.entry.now (nth_piece items.entry.now count k)) }
            { self.find_in(alloc, gate, k, piece_of(items, count, k)) },
        )?;
        let got = put_together(alloc, parts, self.limit)?;
        Ok(got)
    }

    // The matches whose left sides start at these nodes, by consecutive pieces at once.
    pub(crate) fn find<R: Threads + Sync, G: Gate>(
        &self,
        workers: &Workers<R, G>,
        alloc: Global,
        items: &[NodeId],
    ) -> Result<Matches, Memory>
        requires ready { IsReady self.now }
        ensures { IfOk result (HasFound self.now items.now) }
    {
        let got = self.find_all(workers, alloc, items)?;
        let answer = in_order(got);
        Ok(answer)
    }

    // All matches, where those whose left sides start at none of these nodes are known. Those at these nodes are found by consecutive
    // pieces at once.
    pub(crate) fn find_beside<R: Threads + Sync, G: Gate>(
        &self,
        workers: &Workers<R, G>,
        alloc: Global,
        touched: &[NodeId],
        known: &[Match],
    ) -> Result<Matches, Memory>
        requires ready { IsReady self.now }
        ensures { IfOk result (HasFoundAll self.now touched.now known.now) }
    {
        let got = self.find_all(workers, alloc, touched)?;
        let all = beside_known(alloc, self.reader.numbers, got, known, self.limit)?;
        let answer = in_order(all);
        Ok(answer)
    }
}
