//! The nodes of a search that are needed: those that its joins and their blocks name, and all nodes below them.

ghost use Rattle.std.specs.Prelude.{◌≡◌, ℕ, ◌<◌, ◌≤◌, IfOk, List, length, slice_get, true, Some};
ghost use Rattle.std.specs.List.{AllByRecursion};
ghost use Rattle.pv_graph.specs.Graphs.{IsGraph};
ghost use Rattle.pv_classes.specs.Blocks.{blocks_of};
ghost use Rattle.pv_explain.specs.Sections.{IsGrounded};
ghost use Rattle.pv_explain.specs.Marks.{IsMarked, KeepsMarks, MarksMore};
ghost use Rattle.pv_explain.specs.Named.{AreBelow, AreCitedMarked, AreClosed, AreKidsMarked, AreNodeMarks, CiteMarked, CitesBelow, IsCiteMarked, IsMarkedNode, IsMarkedWithKids, OfBlock, OfBlocks, OfJoin, OfPair, axiom_nodes};

use crate::marks::{is_marked, mark};
use crate::source::Search;
use pv_classes::{Block, Join, Reason};
use pv_graph::{Graph, NodeId};
use pv_value::Memory;
use std::alloc::Global;

// ---- what joins and blocks name

// Marks a node. A block that no join cites may name what is no node: then there is nothing to mark.
fn mark_node(marks: &mut Vec<bool>, n: NodeId)
    ensures keeps { KeepsMarks marks.old.items marks.new.items }
    ensures marked { IsMarkedNode marks.new.items n }
{
    let nodes = marks.len();
    if (n as usize) < nodes {
        mark(marks, nodes, n as usize);
    }
}

// Marks these nodes.
fn mark_nodes(marks: &mut Vec<bool>, nodes: &[NodeId])
    ensures keeps { KeepsMarks marks.old.items marks.new.items }
    ensures marked { AllByRecursion (IsMarkedNode marks.new.items) nodes.now }
{
    for n in nodes {
        mark_node(marks, *n);
    }
}

// Marks the two nodes of a pair.
fn mark_pair(marks: &mut Vec<bool>, pair: (NodeId, NodeId))
    ensures keeps { KeepsMarks marks.old.items marks.new.items }
    ensures marked { OfPair (IsMarkedNode marks.new.items) pair }
{
    mark_node(marks, pair.0);
    mark_node(marks, pair.1);
}

// .. of each of these pairs.
fn mark_pairs(marks: &mut Vec<bool>, pairs: &[(NodeId, NodeId)])
    ensures keeps { KeepsMarks marks.old.items marks.new.items }
    ensures marked { AllByRecursion (OfPair (IsMarkedNode marks.new.items)) pairs.now }
{
    for pair in pairs {
        mark_pair(marks, *pair);
    }
}

// Marks the nodes of an axiom, if a join is by one.
fn mark_axiom(marks: &mut Vec<bool>, why: &Reason)
    ensures keeps { KeepsMarks marks.old.items marks.new.items }
    ensures marked { AllByRecursion (IsMarkedNode marks.new.items) (axiom_nodes why.now) }
{
    match why {
        Reason::Axiom(_, nodes) => mark_nodes(marks, nodes.as_slice()),
        Reason::Kids => {}
        Reason::Induction(_) => {}
        Reason::Pair(_) => {}
    }
}

// Marks the nodes that a join names.
fn mark_join(marks: &mut Vec<bool>, join: &Join)
    ensures keeps { KeepsMarks marks.old.items marks.new.items }
    ensures marked { OfJoin (IsMarkedNode marks.new.items) join.now }
{
    mark_node(marks, join.first);
    mark_node(marks, join.second);
    mark_axiom(marks, &join.why);
}

// .. that each of these joins names.
fn mark_joins(marks: &mut Vec<bool>, joins: &[Join])
    ensures keeps { KeepsMarks marks.old.items marks.new.items }
    ensures marked { AllByRecursion (OfJoin (IsMarkedNode marks.new.items)) joins.now }
{
    for join in joins {
        mark_join(marks, join);
    }
}

// Marks the nodes that a block names, with the joins and the blocks inside it.
#[cycle(naming)]
fn mark_block(marks: &mut Vec<bool>, block: &Block)
    ensures keeps { KeepsMarks marks.old.items marks.new.items }
    ensures marked { OfBlock (IsMarkedNode marks.new.items) block.now }
{
    mark_pairs(marks, block.pairs());
    mark_joins(marks, block.joins());
    mark_blocks(marks, block.blocks());
}

// .. that each of these blocks names.
#[cycle(naming)]
fn mark_blocks(marks: &mut Vec<bool>, blocks: &[Block])
    ensures keeps { KeepsMarks marks.old.items marks.new.items }
    ensures marked { OfBlocks (IsMarkedNode marks.new.items) (blocks_of blocks.now) }
{
    for block in blocks {
        mark_block(marks, block);
    }
}

// ---- the blocks that are cited

// Marks the block that a reason cites, if it cites one.
fn mark_cite(cited: &mut Vec<bool>, why: &Reason)
    requires { CitesBelow (length cited.old.items) why.now }
    ensures keeps { KeepsMarks cited.old.items cited.new.items }
    ensures marked { IsCiteMarked why.now cited.new.items }
{
    let blocks = cited.len();
    match why {
        Reason::Induction(n) => mark(cited, blocks, *n as usize),
        Reason::Axiom(_, _) => {}
        Reason::Kids => {}
        Reason::Pair(_) => {}
    }
}

// A mark for each block: whether a join of the search cites it.
fn cited_blocks(alloc: Global, search: &Search) -> Result<Vec<bool>, Memory>
    requires { (assumed : List ℕ) × IsGrounded search.now assumed }
    ensures long { IfOk result (λ cited. length cited.items ≡ length search.now.blocks.now) }
    ensures cited { IfOk result (λ cited. CiteMarked search.now.joins.now cited.items) }
{
    let mut cited = vec![in alloc; false; search.blocks.len()]?;
    for join in search.joins {
        mark_cite(&mut cited, &join.why);
    }
    Ok(cited)
}

// Marks the nodes that a block names, if it is cited.
fn mark_if_cited(marks: &mut Vec<bool>, is_cited: bool, block: &Block)
    ensures keeps { KeepsMarks marks.old.items marks.new.items }
    ensures marked { is_cited ≡ true → OfBlock (IsMarkedNode marks.new.items) block.now }
{
    if is_cited {
        mark_block(marks, block);
    }
}

// .. that each of these blocks names.
fn mark_cited(marks: &mut Vec<bool>, cited: &[bool], blocks: &[Block])
    requires long { length cited.now ≡ length blocks.now }
    ensures keeps { KeepsMarks marks.old.items marks.new.items }
    ensures marked { AreCitedMarked cited.now blocks.now marks.new.items }
{
    for i in 0..blocks.len() {
        mark_if_cited(marks, is_marked(cited, i), &blocks[i]);
    }
}

// ---- all nodes below them

// Marks these nodes, which come before this number.
fn mark_below(marks: &mut Vec<bool>, before: usize, nodes: &[NodeId])
    requires few { before ≤ length marks.old.items }
    requires below { AreBelow before nodes.now }
    ensures more { MarksMore before marks.old.items marks.new.items }
    ensures marked { AllByRecursion (IsMarked marks.new.items) nodes.now }
{
    for n in nodes {
        mark(marks, before, *n as usize);
    }
}

// Marks the kids of a node after the base, if it is marked.
fn mark_kids(graph: &Graph, marks: &mut Vec<bool>, n: NodeId)
    requires made { IsGraph graph.now }
    requires long { length marks.old.items ≡ length graph.now.nodes }
    requires node { n < length graph.now.nodes }
    requires late { graph.now.base ≤ n }
    ensures more { MarksMore n marks.old.items marks.new.items }
    ensures kids { IsMarked marks.new.items n → AreKidsMarked graph.now marks.new.items n }
{
    if is_marked(marks, n as usize) {
        mark_below(marks, n as usize, graph.node(n).kids.as_slice());
    }
}

// Marks the kids of the marked nodes after the base, from the last one back.
fn mark_all_kids(graph: &Graph, base: u32, marks: &mut Vec<bool>)
    requires made { IsGraph graph.now }
    requires base { base ≡ graph.now.base }
    requires long { length marks.old.items ≡ length graph.now.nodes }
    ensures keeps { KeepsMarks marks.old.items marks.new.items }
    ensures closed { AreClosed graph.now marks.new.items }
{
    let nodes = graph.len();
    for k in 0..nodes - base {
        mark_kids(graph, marks, nodes - 1 - k);
    }
}

// ---- the nodes that a block rests on

// Marks a node and its kids, if it is named.
fn mark_with_kids(graph: &Graph, marks: &mut Vec<bool>, is_named: bool, n: NodeId)
    requires made { IsGraph graph.now }
    requires long { length marks.old.items ≡ length graph.now.nodes }
    requires node { n < length graph.now.nodes }
    ensures keeps { KeepsMarks marks.old.items marks.new.items }
    ensures marked { is_named ≡ true → IsMarkedWithKids graph.now marks.new.items n }
{
    let nodes = marks.len();
    if is_named {
        mark(marks, nodes, n as usize);
        mark_below(marks, nodes, graph.node(n).kids.as_slice());
    }
}

// .. each node that is named, and its kids.
fn mark_all_with_kids(graph: &Graph, named: &[bool], marks: &mut Vec<bool>)
    requires made { IsGraph graph.now }
    requires long { length marks.old.items ≡ length graph.now.nodes }
    requires named { length named.now ≡ length graph.now.nodes }
    ensures keeps { KeepsMarks marks.old.items marks.new.items }
    ensures marked { (n : ℕ) → IsMarked named.now n → IsMarkedWithKids graph.now marks.new.items n }
{
    for n in 0..graph.len() {
        mark_with_kids(graph, marks, is_marked(named, n as usize), n);
    }
}

// A mark for each node of a graph: whether the block names it, or it is a kid of one that the block names.
pub(crate) fn block_nodes(alloc: Global, graph: &Graph, block: &Block) -> Result<Vec<bool>, Memory>
    requires { IsGraph graph.now }
    ensures long { IfOk result (λ marks. length marks.items ≡ length graph.now.nodes) }
    ensures marked { IfOk result (λ marks. OfBlock (IsMarkedWithKids graph.now marks.items) block.now) }
{
    let mut named = vec![in alloc; false; graph.len() as usize]?;
    let mut marks = vec![in alloc; false; graph.len() as usize]?;
    mark_block(&mut named, block);
    mark_all_with_kids(graph, &named, &mut marks);
    Ok(marks)
}

// ---- all that are needed

// A mark for each node of a search: whether it is needed.
pub(crate) fn needed_nodes(alloc: Global, search: &Search, base: u32) -> Result<Vec<bool>, Memory>
    requires made { IsGraph search.now.graph.now }
    requires base { base ≡ search.now.graph.now.base }
    requires grounds { (assumed : List ℕ) × IsGrounded search.now assumed }
    ensures { IfOk result (λ marks. AreNodeMarks search.now marks.items) }
{
    let cited = cited_blocks(alloc, search)?;
    let mut marks = vec![in alloc; false; search.graph.len() as usize]?;
    mark_joins(&mut marks, search.joins);
    mark_cited(&mut marks, &cited, search.blocks);
    mark_all_kids(search.graph, base, &mut marks);
    Ok(marks)
}
