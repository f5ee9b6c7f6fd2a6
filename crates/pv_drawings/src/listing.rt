//! A graph as a listing.

ghost use Rattle.std.specs.Prelude.{◌≡◌, ◌++◌, ◌∷◌, [], map, IfOk, OnOk};
ghost use Rattle.std.specs.List.{enumerate_from};
ghost use Rattle.pv_format.specs.Splits.{text_of};
ghost use Rattle.pv_drawings.specs.Listings.{listing_of, node_line, roots_line};

use crate::spelling::push_op;
use pv_graph::{Graph, Node, NodeId};
use pv_token::{Number, Token, push, push_each};
use pv_value::Memory;
use std::alloc::{AllocError, Global};

/// The listing of a graph with two roots: a line for each node, in the order of their numbers, and one for the roots. Out
/// of memory is the one error.
pub fn write_listing(
    alloc: Global,
    graph: &Graph,
    first: NodeId,
    second: NodeId,
) -> Result<Vec<u8>, Memory>
    ensures { IfOk result (λ text. text.items ≡ listing_of graph.now.nodes first second) }
{
    let mut out = Vec::new(alloc);
    push_nodes(alloc, &mut out, graph)?;
    push_roots(&mut out, first, second)?;
    Ok(out)
}

// The lines of the nodes of a graph.
fn push_nodes(alloc: Global, out: &mut Vec<u8>, graph: &Graph) -> Result<(), Memory>
    ensures { OnOk result (out.new.items ≡ out.old.items ++ text_of (map node_line (enumerate_from 0 graph.now.nodes))) }
{
    for n in 0..graph.len() {
        push_node(alloc, out, n, graph.node(n))?;
    }
    Ok(())
}

// The line of a node.
fn push_node(alloc: Global, out: &mut Vec<u8>, n: NodeId, node: &Node) -> Result<(), Memory>
    ensures { OnOk result (out.new.items ≡ out.old.items ++ text_of (node_line (n, node.now) ∷ [])) }
{
    Number::push(out, n)?;
    push_op(alloc, out, &node.op)?;
    push_each::<Number>(out, node.kids.as_slice())?;
    out.extend_from_slice(b"\n")?;
    Ok(())
}

// The line of the roots.
fn push_roots(out: &mut Vec<u8>, first: NodeId, second: NodeId) -> Result<(), AllocError>
    ensures { OnOk result (out.new.items ≡ out.old.items ++ text_of (roots_line first second ∷ [])) }
{
    out.extend_from_slice(b"roots")?;
    push::<Number>(out, first)?;
    push::<Number>(out, second)?;
    out.extend_from_slice(b"\n")
}
