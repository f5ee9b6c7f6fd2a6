//! All matches of a table over the classes of a graph.

ghost use Rattle.std.specs.Prelude.{◌≤◌, ℕ, List, length, map, IfOk};
ghost use Rattle.pv_axioms.specs.Entries.{NumbersOnce};
ghost use Rattle.pv_classes.specs.Calls.{Knows};
ghost use Rattle.pv_heights.specs.Searches.{IsNode, OneClass, base_view, nodes};
ghost use Rattle.pv_heights.specs.SameClasses.{IsCongruence};
ghost use Rattle.pv_marks.specs.Marks.{AreNodeMarks};
ghost use Rattle.pv_match.specs.AllMatches.{IsAnswer};
ghost use Rattle.pv_match.specs.Finding.{AreLookups, IsFinderBy};
ghost use Rattle.pv_match.specs.Reading.{AreReadable};
ghost use Rattle.pv_match.specs.Rematching.{CanTakeOver};
ghost use Rattle.pv_pattern.specs.Seen.{axiom_seen};

use crate::finder::Finder;
use crate::found::{Match, Matches};
use crate::members::{Group, Members};
use crate::reader::Reader;
use crate::rules::{items_of, rules_of};
use pv_base::Gate;
use pv_classes::Classes;
use pv_graph::{Graph, NodeId};
use pv_marks::class_marks;
use pv_pattern::Axiom;
use pv_pieces::Workers;
use pv_value::Memory;
use std::alloc::Global;
use std::thread::Threads;

// What is looked up while matches are looked for: the class of each node, which nodes are the first of their form in their class, the members of the
// classes, the marks of the classes, and the axioms of a table by their heads.
#[derive(Drop)]
struct Lookups {
    numbers: Vec<NodeId>,
    kept: Vec<bool>,
    members: Members,
    marks: Vec<u32>,
    rules: Vec<Group>,
}

impl Lookups {
    fn new(
        alloc: Global,
        graph: &Graph,
        classes: &Classes,
        base: &[u32],
        table: &[Axiom],
    ) -> Result<Lookups, Memory>
        requires knows { Knows graph.now.nodes classes.now }
        requires base { length base.now ≤ length graph.now.nodes }
        ensures { IfOk result (AreLookups graph.now classes.now.numbers base.now (map axiom_seen table.now)) }
    {
        let _count = classes.len();
        let numbers = classes.numbers(alloc)?;
        let kept = classes.first_of_forms(alloc, graph)?;
        let members = Members::new(alloc, graph, &numbers, &kept)?;
        let marks = class_marks(alloc, graph, &numbers, base)?;
        let rules = rules_of(alloc, table)?;
        Ok(Lookups {
            numbers,
            kept,
            members,
            marks,
            rules,
        })
    }

    fn finder<'a>(&'a self, graph: &'a Graph, table: &'a [Axiom], limit: usize) -> Finder<'a>
        ensures { IsFinderBy self.now graph.now table.now limit result }
    {
        Finder {
            reader: Reader {
                graph,
                numbers: &self.numbers,
                members: &self.members,
            },
            marks: &self.marks,
            table,
            rules: &self.rules,
            limit,
        }
    }
}

/// All matches of a table over the classes of a graph's nodes, or that there are more than `limit`. `base` has the marks of the nodes
/// of the base, as `pv_marks::node_marks` gives them, with some nodes assumed to end. Of the nodes of a class with one operation over kids in the
/// same classes, which match the same patterns, the first alone is looked at. Those of these at which a left side may start are cut into
/// consecutive pieces, one for each worker, which run at once. The answer is the same for every number of workers.
///
/// It passes the gate before each node at which a left side may start, with the number of the piece. Each piece holds at most `limit + 1`
/// matches, and beside them those of one axiom at one node. What they hold is put together in the order of the pieces, up to `limit + 1`
/// matches, while that of the later pieces waits.
pub fn matches<R: Threads + Sync, G: Gate>(
    workers: &Workers<R, G>,
    alloc: Global,
    graph: &Graph,
    classes: &Classes,
    base: &[u32],
    table: &[Axiom],
    limit: usize,
) -> Result<Matches, Memory>
    requires knows { Knows graph.now.nodes classes.now }
    requires congruence { IsCongruence (base_view graph.now) (nodes graph.now) (IsNode graph.now) (OneClass classes.now.numbers) }
    requires base { length base.now ≤ length graph.now.nodes }
    requires readable { AreReadable (map axiom_seen table.now) }
    requires once { NumbersOnce (map axiom_seen table.now) }
    ensures { IfOk result (λ answer. (ends : List ℕ) → AreNodeMarks graph.now ends base.now → IsAnswer graph.now classes.now.numbers ends (map axiom_seen table.now) limit answer) }
{
    let lookups = Lookups::new(alloc, graph, classes, base, table)?;
    let items = items_of(alloc, classes, &lookups.kept, &lookups.rules)?;
    let answer = lookups
        .finder(graph, table, limit)
        .find(workers, alloc, &items)?;
    Ok(answer)
}

/// All matches of a table, as `matches` gives them, where some are known from before. The classes of a known match are nodes: each is replaced
/// by the class that holds it now. Every known match is then one of now, and each match whose left side starts at none of the `touched` nodes is
/// a known one. So the touched nodes alone are looked at: they are cut into consecutive pieces, one for each worker, and it passes the gate
/// before each of them. The answer is the same for every number of workers.
pub fn rematch<R: Threads + Sync, G: Gate>(
    workers: &Workers<R, G>,
    alloc: Global,
    graph: &Graph,
    classes: &Classes,
    base: &[u32],
    table: &[Axiom],
    known: &[Match],
    touched: &[NodeId],
    limit: usize,
) -> Result<Matches, Memory>
    requires knows { Knows graph.now.nodes classes.now }
    requires congruence { IsCongruence (base_view graph.now) (nodes graph.now) (IsNode graph.now) (OneClass classes.now.numbers) }
    requires base { length base.now ≤ length graph.now.nodes }
    requires readable { AreReadable (map axiom_seen table.now) }
    requires once { NumbersOnce (map axiom_seen table.now) }
    ensures { IfOk result (λ answer. (ends : List ℕ) → AreNodeMarks graph.now ends base.now → CanTakeOver graph.now classes.now.numbers ends (map axiom_seen table.now) known.now touched.now → IsAnswer graph.now classes.now.numbers ends (map axiom_seen table.now) limit answer) }
{
    let lookups = Lookups::new(alloc, graph, classes, base, table)?;
    let answer = lookups
        .finder(graph, table, limit)
        .find_beside(workers, alloc, touched, known)?;
    Ok(answer)
}
