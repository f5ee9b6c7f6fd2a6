//! Operations over given nodes, one after the other.

ghost use Rattle.std.specs.Prelude.{◌≡◌, IfOk};
ghost use Rattle.pv_graph.specs.Graphs.{IsGraph};
ghost use Rattle.pv_graph.specs.Calls.{FitsOver};
ghost use Rattle.pv_terms.specs.Terms.{IsFlat, HasItsSort, Grows};
ghost use Rattle.pv_block.specs.Standing.{StandsOver};
ghost use Rattle.pv_block.specs.Lines.{node_at, after_first, nodes_for, Fit, AreMade};

use pv_graph::{Graph, NodeId, Op};
use pv_terms::{both, over};
use pv_value::Memory;
use std::alloc::{AllocError, Global};

/// What an operation takes: a node that is given, or one that an earlier line has made.
#[derive(Clone, Copy, Debug)]
pub(crate) enum Kid {
    Given(usize),
    Made(usize),
}

/// The kids of an operation: the heap and the operands, the operands, or these. Of the nodes that are given
/// the token where the block begins is the first, the heap the second, and the operands are the others.
#[derive(Clone, Copy, Debug)]
pub(crate) enum Kids {
    WithHeap,
    Operands,
    Zero,
    One(Kid),
    Two(Kid, Kid),
    Three(Kid, Kid, Kid),
}

/// An operation over nodes that are given, or that earlier lines have made.
#[derive(Debug, Drop)]
pub(crate) struct Line {
    pub(crate) op: Op,
    pub(crate) kids: Kids,
}

/// The node of a kid. Where there is none, which no line asks for, it is 0.
pub(crate) fn node_at(given: &[NodeId], made: &[NodeId], kid: Kid) -> NodeId
    ensures { result ≡ node_at given.now made.now kid }
{
    match kid {
        Kid::Given(k) => given.get(k).copied().unwrap_or(0),
        Kid::Made(k) => made.get(k).copied().unwrap_or(0),
    }
}

// All but the first.
fn after_first(nodes: &[NodeId]) -> &[NodeId]
    ensures { result.now ≡ after_first nodes.now }
{
    match nodes {
        [] => nodes,
        [_, others @ ..] => others,
    }
}

// The nodes of kids.
fn nodes_for(
    alloc: Global,
    given: &[NodeId],
    made: &[NodeId],
    kids: Kids,
) -> Result<Vec<NodeId>, AllocError>
    ensures { IfOk result (λ v. v.items ≡ nodes_for given.now made.now kids) }
{
    let at = |kid| node_at(given, made, kid);
    match kids {
        Kids::WithHeap => Vec::from_slice(alloc, after_first(given)),
        Kids::Operands => Vec::from_slice(alloc, after_first(after_first(given))),
        Kids::Zero => Ok(Vec::new(alloc)),
        Kids::One(a) => [at(a)].to_vec(alloc),
        Kids::Two(a, b) => [at(a), at(b)].to_vec(alloc),
        Kids::Three(a, b, c) => [at(a), at(b), at(c)].to_vec(alloc),
    }
}

// The node of an operation.
fn operation(alloc: Global, g: &mut Graph, op: &Op, kids: &[NodeId]) -> Result<NodeId, Memory>
    requires graph { IsGraph g.old }
    requires flat { IsFlat op.now }
    requires fits { FitsOver g.old op.now kids.now }
    ensures stands { IfOk result (λ n. StandsOver g.old.nodes op.now kids.now g.new.nodes n) }
    ensures sort { IfOk result (λ n. HasItsSort g.old op.now kids.now g.new n) }
    ensures grows { Grows g.old g.new }
{
    if matches!(op, Op::Both) {
        return both(alloc, g, kids[0], kids[1]);
    }
    let op = op.copy(alloc)?;
    over(alloc, g, op, kids)
}

/// The nodes that the lines make, which are added to the graph.
pub(crate) fn emit(
    alloc: Global,
    g: &mut Graph,
    given: &[NodeId],
    lines: &[Line],
) -> Result<Vec<NodeId>, Memory>
    requires graph { IsGraph g.old }
    requires fit { Fit g.old given.now lines.now }
    ensures made { IfOk result (λ nodes. AreMade g.old given.now lines.now g.new nodes.items) }
    ensures grows { Grows g.old g.new }
{
    let mut nodes = Vec::new(alloc);
    for line in lines {
        let kids = nodes_for(alloc, given, &nodes, line.kids)?;
        let node = operation(alloc, g, &line.op, &kids)?;
        nodes.push(node)?;
    }
    Ok(nodes)
}
