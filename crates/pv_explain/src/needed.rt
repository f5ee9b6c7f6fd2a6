//! The joins of a search that are needed: they are marked from the last one back.

ghost use Rattle.std.specs.Prelude.{◌≡◌, ℕ, ◌<◌, ◌≤◌, ◌++◌, List, IfOk, OnOk, Some, length, slice_get, false, true};
ghost use Rattle.std.specs.List.{AllZip};
ghost use Rattle.pv_graph.specs.Graphs.{IsGraph};
ghost use Rattle.pv_paths.specs.Paths.{AreTops};
ghost use Rattle.pv_explain.specs.Sections.{IsGrounded};
ghost use Rattle.pv_explain.specs.Levels.{ends_of};
ghost use Rattle.pv_explain.specs.Pairs.{HasLinkedPairs};
ghost use Rattle.pv_explain.specs.Needed.{AreBefore, AreMarkedOn, AreNodesOf, AreRested, IsCite, IsFirstCite, IsForestOf, LinkedBefore, LinkedByMarked, LinkedPairsBefore, LinkedPairsByMarked, LinkedToTops, RestsOnMarked, StayGrounded, StayLinked, StillLinked, if_marked, marked};
ghost use Rattle.pv_explain.specs.Marks.{IsMarked, MarksMore};

use crate::marks::{is_marked, mark};
use crate::named::block_nodes;
use crate::source::Search;
use pv_classes::{Join, Reason};
use pv_graph::NodeId;
use pv_paths::{Forest, Way};
use pv_value::Memory;
use std::alloc::Global;

// ---- marks on paths

// Marks the joins on a path, which come before this number.
fn mark_path(needed: &mut Vec<bool>, before: usize, path: &[Way])
    requires few { before ≤ length needed.old.items }
    requires path { AreBefore before path.now }
    ensures more { MarksMore before needed.old.items needed.new.items }
    ensures crossed { AreMarkedOn needed.new.items path.now }
{
    for way in path {
        mark(needed, before, way.join());
    }
}

// Marks the joins on a path between two nodes, which joins before this number link.
fn mark_link(
    alloc: Global,
    forest: &Forest,
    needed: &mut Vec<bool>,
    before: usize,
    a: NodeId,
    b: NodeId,
) -> Result<(), Memory>
    requires few { before ≤ length needed.old.items }
    requires linked { LinkedBefore forest.now before a b }
    ensures more { MarksMore before needed.old.items needed.new.items }
    ensures linked { OnOk result (LinkedByMarked forest.now needed.new.items before a b) }
{
    let path = forest.path(alloc, before, a, b)?;
    mark_path(needed, before, &path);
    Ok(())
}

// Marks the joins on a path between each left kid and the right one at its place.
fn mark_kids(
    alloc: Global,
    forest: &Forest,
    needed: &mut Vec<bool>,
    before: usize,
    lefts: &[NodeId],
    rights: &[NodeId],
) -> Result<(), Memory>
    requires few { before ≤ length needed.old.items }
    requires linked { AllZip (LinkedBefore forest.now before) lefts.now rights.now }
    ensures more { MarksMore before needed.old.items needed.new.items }
    ensures linked { OnOk result (AllZip (LinkedByMarked forest.now needed.new.items before) lefts.now rights.now) }
{
    for i in 0..lefts.len() {
        mark_link(alloc, forest, needed, before, lefts[i], rights[i])?;
    }
    Ok(())
}

// Marks the joins on a path between the two nodes of each pair.
fn mark_pairs(
    alloc: Global,
    forest: &Forest,
    needed: &mut Vec<bool>,
    pairs: &[(NodeId, NodeId)],
) -> Result<(), Memory>
    requires linked { LinkedPairsBefore forest.now (length needed.old.items) pairs.now }
    ensures more { MarksMore (length needed.old.items) needed.old.items needed.new.items }
    ensures linked { OnOk result (LinkedPairsByMarked forest.now needed.new.items (length needed.old.items) pairs.now) }
{
    let joins = needed.len();
    for pair in pairs {
        mark_link(alloc, forest, needed, joins, pair.0, pair.1)?;
    }
    Ok(())
}

// Marks the joins on a path between a node and the top of its tree, if the node is needed.
fn mark_up(
    alloc: Global,
    forest: &Forest,
    needed: &mut Vec<bool>,
    before: usize,
    is_needed: bool,
    n: NodeId,
    top: NodeId,
) -> Result<(), Memory>
    requires few { before ≤ length needed.old.items }
    requires linked { LinkedBefore forest.now before n top }
    ensures more { MarksMore before needed.old.items needed.new.items }
    ensures linked { OnOk result (is_needed ≡ true → LinkedByMarked forest.now needed.new.items before n top) }
{
    if is_needed {
        mark_link(alloc, forest, needed, before, n, top)?;
    }
    Ok(())
}

// .. of each node that is marked.
fn mark_all_up(
    alloc: Global,
    forest: &Forest,
    needed: &mut Vec<bool>,
    before: usize,
    count: NodeId,
    nodes: &[bool],
    tops: &[NodeId],
) -> Result<(), Memory>
    requires few { before ≤ length needed.old.items }
    requires tops { AreTops forest.now before count tops.now }
    requires nodes { length nodes.now ≡ count }
    requires count { count ≡ forest.now.nodes }
    ensures more { MarksMore before needed.old.items needed.new.items }
    ensures linked { OnOk result (LinkedToTops forest.now needed.new.items before nodes.now tops.now) }
{
    for n in 0..count {
        let place = n as usize;
        mark_up(alloc, forest, needed, before, nodes[place], n, tops[place])?;
    }
    Ok(())
}

// Marks joins before this number that link the marked nodes as far as all joins before it do.
fn mark_between(
    alloc: Global,
    forest: &Forest,
    needed: &mut Vec<bool>,
    before: usize,
    count: NodeId,
    nodes: &[bool],
) -> Result<(), Memory>
    requires few { before ≤ length needed.old.items }
    requires nodes { length nodes.now ≡ count }
    requires count { count ≡ forest.now.nodes }
    ensures more { MarksMore before needed.old.items needed.new.items }
    ensures linked { OnOk result (StillLinked forest.now needed.new.items before nodes.now) }
{
    let tops = forest.tops(alloc, before, count)?;
    mark_all_up(alloc, forest, needed, before, count, nodes, &tops)?;
    Ok(())
}

// ---- marks on joins

// Whether a join is by an induction, and cites this block.
fn is_cite(join: &Join, block: u32) -> bool
    ensures yes { result ≡ true → join.now.why ≡ Reason.Induction block }
    ensures no { result ≡ false → join.now.why ≡ Reason.Induction block → ⊥ }
{
    match &join.why {
        Reason::Induction(n) => *n == block,
        Reason::Axiom(_, _) => false,
        Reason::Kids => false,
        Reason::Pair(_) => false,
    }
}

// The first of these joins that cites a block.
fn first_cite(joins: &[Join], block: u32) -> usize
    requires { (i : ℕ) × IsCite joins.now block i }
    ensures { IsFirstCite joins.now block result }
{
    let mut first = 0;
    while !is_cite(&joins[first], block) {
        first += 1;
    }
    first
}

// Marks what the joins that cite a block rest on, and the block: joins before the first of them that link the nodes on which
// the block rests. A block that is marked was looked at before, for a later join.
fn mark_block(
    alloc: Global,
    search: &Search,
    forest: &Forest,
    needed: &mut Vec<bool>,
    rested: &mut Vec<bool>,
    i: usize,
    block: u32,
) -> Result<(), Memory>
    requires made { IsGraph search.now.graph.now }
    requires forest { IsForestOf search.now forest.now }
    requires few { i ≤ length needed.old.items }
    requires cite { IsCite search.now.joins.now block i }
    requires block { block < length search.now.blocks.now }
    requires blocks { length rested.old.items ≡ length search.now.blocks.now }
    requires rested { AreRested search.now needed.old.items rested.old.items }
    ensures more { MarksMore i needed.old.items needed.new.items }
    ensures blocks { length rested.new.items ≡ length rested.old.items }
    ensures rested { OnOk result (AreRested search.now needed.new.items rested.new.items) }
    ensures block { OnOk result (IsMarked rested.new.items block) }
{
    if is_marked(rested, block as usize) {
        return Ok(());
    }
    let first = first_cite(search.joins, block);
    let nodes = block_nodes(alloc, search.graph, &search.blocks[block as usize])?;
    mark_between(alloc, forest, needed, first, search.graph.len(), &nodes)?;
    rested[block as usize] = true;
    Ok(())
}

// Marks what a join rests on, if it is marked: the joins on the paths between its kids, or for an induction those that link
// what its block rests on.
fn mark_ground(
    alloc: Global,
    search: &Search,
    forest: &Forest,
    needed: &mut Vec<bool>,
    rested: &mut Vec<bool>,
    i: usize,
) -> Result<(), Memory>
    requires made { IsGraph search.now.graph.now }
    requires grounds { (assumed : List ℕ) × IsGrounded search.now assumed }
    requires forest { IsForestOf search.now forest.now }
    requires long { length needed.old.items ≡ length search.now.joins.now }
    requires blocks { length rested.old.items ≡ length search.now.blocks.now }
    requires rested { AreRested search.now needed.old.items rested.old.items }
    requires join { i < length search.now.joins.now }
    ensures more { MarksMore i needed.old.items needed.new.items }
    ensures blocks { length rested.new.items ≡ length rested.old.items }
    ensures rested { OnOk result (AreRested search.now needed.new.items rested.new.items) }
    ensures rests { OnOk result (IsMarked needed.new.items i → RestsOnMarked search.now needed.new.items i) }
{
    if !is_marked(needed, i) {
        return Ok(());
    }
    let join = &search.joins[i];
    match &join.why {
        Reason::Kids => {
            let lefts = search.graph.node(join.first).kids.as_slice();
            let rights = search.graph.node(join.second).kids.as_slice();
            mark_kids(alloc, forest, needed, i, lefts, rights)?;
            Ok(())
        }
        Reason::Induction(n) => {
            mark_block(alloc, search, forest, needed, rested, i, *n)?;
            Ok(())
        }
        Reason::Axiom(_, _) => Ok(()),
        Reason::Pair(_) => Ok(()),
    }
}

// Marks what the marked joins rest on, from the last one back.
fn mark_grounds(
    alloc: Global,
    search: &Search,
    forest: &Forest,
    needed: &mut Vec<bool>,
) -> Result<(), Memory>
    requires made { IsGraph search.now.graph.now }
    requires grounds { (assumed : List ℕ) × IsGrounded search.now assumed }
    requires forest { IsForestOf search.now forest.now }
    requires long { length needed.old.items ≡ length search.now.joins.now }
    ensures more { MarksMore (length search.now.joins.now) needed.old.items needed.new.items }
    ensures rest { OnOk result ((i : ℕ) → IsMarked needed.new.items i → RestsOnMarked search.now needed.new.items i) }
{
    let mut rested = vec![in alloc; false; search.blocks.len()]?;
    let joins = needed.len();
    for k in 0..joins {
        mark_ground(alloc, search, forest, needed, &mut rested, joins - 1 - k)?;
    }
    Ok(())
}

// ---- the joins that are needed

// The forest of these joins.
fn forest_of(alloc: Global, nodes: usize, joins: &[Join]) -> Result<Forest, Memory>
    requires { AreNodesOf nodes joins.now }
    ensures nodes { IfOk result (λ f. f.nodes ≡ nodes) }
    ensures ends { IfOk result (λ f. f.ends ≡ ends_of joins.now) }
{
    let mut forest = Forest::new(alloc, nodes)?;
    for join in joins {
        forest.push(join.first, join.second)?;
    }
    Ok(forest)
}

// Puts a join after these, if it is marked.
fn push_marked(
    alloc: Global,
    kept: &mut Vec<Join>,
    is_marked: bool,
    join: &Join,
) -> Result<(), Memory>
    ensures { OnOk result (kept.new.items ≡ kept.old.items ++ if_marked is_marked join.now) }
{
    if is_marked {
        kept.push(join.copy(alloc)?)?;
    }
    Ok(())
}

// The marked joins, in order.
fn marked_joins(alloc: Global, needed: &[bool], joins: &[Join]) -> Result<Vec<Join>, Memory>
    requires { length needed.now ≡ length joins.now }
    ensures { IfOk result (λ kept. kept.items ≡ marked needed.now joins.now) }
{
    let mut kept = Vec::new(alloc);
    for i in 0..joins.len() {
        push_marked(alloc, &mut kept, is_marked(needed, i), &joins[i])?;
    }
    Ok(kept)
}

// The joins of a search by which it joined the two nodes of each of these pairs, in order: those on the paths between them, and
// those on which a join among them rests.
pub(crate) fn needed_joins(
    alloc: Global,
    search: &Search,
    pairs: &[(NodeId, NodeId)],
) -> Result<Vec<Join>, Memory>
    requires made { IsGraph search.now.graph.now }
    requires grounds { (assumed : List ℕ) × IsGrounded search.now assumed }
    requires linked { HasLinkedPairs search.now pairs.now }
    ensures grounds { IfOk result (λ kept. StayGrounded search.now kept.items) }
    ensures linked { IfOk result (λ kept. StayLinked search.now kept.items pairs.now) }
{
    let forest = forest_of(alloc, search.graph.len() as usize, search.joins)?;
    let mut needed = vec![in alloc; false; search.joins.len()]?;
    mark_pairs(alloc, &forest, &mut needed, pairs)?;
    mark_grounds(alloc, search, &forest, &mut needed)?;
    let kept = marked_joins(alloc, &needed, search.joins)?;
    Ok(kept)
}
