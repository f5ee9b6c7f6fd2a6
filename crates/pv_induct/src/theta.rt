//! The thetas of a graph.

ghost use Rattle.std.specs.Prelude.{◌≡◌, List, IfOk};
ghost use Rattle.pv_graph.specs.declared.node.Node.{Node};
ghost use Rattle.pv_induct.specs.Thetas.{AreAll, AreThetas, IsThetaOver};

use pv_graph::{Graph, Node, NodeId, Op};
use pv_value::Memory;
use std::alloc::Global;

/// A theta: its depth, its number and its kids.
#[derive(Clone, Copy, Debug)]
pub(crate) struct Theta {
    pub(crate) depth: u32,
    pub(crate) node: NodeId,
    pub(crate) first: NodeId,
    pub(crate) second: NodeId,
}

// The node with this number as a theta, if it is one.
fn as_theta(n: NodeId, node: &Node) -> Option<Theta>
    ensures { IsThetaOver n node.now result }
{
    match (&node.op, node.kids.as_slice()) {
        (Op::Theta(depth), [first, second]) => Some(Theta {
            depth: *depth,
            node: n,
            first: *first,
            second: *second,
        }),
        _ => None,
    }
}

/// The thetas of a graph.
pub(crate) fn thetas(alloc: Global, g: &Graph) -> Result<Vec<Theta>, Memory>
    ensures { IfOk result (λ ts. AreAll g.now.nodes ts.items) }
{
    let mut found = Vec::new(alloc);
    for n in 0..g.len() {
        if let Some(t) = as_theta(n, g.node(n)) {
            found.push(t)?;
        }
    }
    Ok(found)
}

/// Those of a depth.
pub(crate) fn thetas_of_depth(
    alloc: Global,
    all: &[Theta],
    depth: u32,
) -> Result<Vec<Theta>, Memory>
    ensures { IfOk result (λ ts. (nodes : List Node) → AreAll nodes all.now → AreThetas nodes depth ts.items) }
{
    let mut found = Vec::new(alloc);
    for t in all {
        if t.depth == depth {
            found.push(*t)?;
        }
    }
    Ok(found)
}
