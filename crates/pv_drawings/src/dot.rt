//! A graph as Graphviz text.

ghost use Rattle.std.specs.Prelude.{◌≡◌, ◌++◌, ◌∷◌, ◌<◌, ◌^◌, [], IfOk, OnOk};
ghost use Rattle.std.specs.List.{enumerate_from, flat_map};
ghost use Rattle.pv_format.specs.Splits.{text_of};
ghost use Rattle.pv_drawings.specs.Dots.{dot_of, edge_line, edge_lines, label_of, node_lines, root_lines, vertex_line};

use crate::spelling::push_op;
use pv_graph::{Graph, Node, NodeId};
use pv_token::{Number, Token, push_decimal};
use pv_value::Memory;
use std::alloc::{AllocError, Global};

/// The Graphviz text of a graph with two roots: a node for each node, in the order of their numbers, with the edges to its
/// kids after it, and the nodes `first` and `second` with an edge to each root. Out of memory is the one error.
pub fn write_dot(
    alloc: Global,
    graph: &Graph,
    first: NodeId,
    second: NodeId,
) -> Result<Vec<u8>, Memory>
    ensures { IfOk result (λ text. text.items ≡ dot_of graph.now.nodes first second) }
{
    let mut out = Vec::new(alloc);
    out.extend_from_slice(b"digraph {\nordering=out\n")?;
    push_root(&mut out, b"first", first)?;
    push_root(&mut out, b"second", second)?;
    push_nodes(alloc, &mut out, graph)?;
    out.extend_from_slice(b"}\n")?;
    Ok(out)
}

// The lines of the nodes of a graph.
fn push_nodes(alloc: Global, out: &mut Vec<u8>, graph: &Graph) -> Result<(), Memory>
    ensures { OnOk result (out.new.items ≡ out.old.items ++ text_of (flat_map node_lines (enumerate_from 0 graph.now.nodes))) }
{
    for n in 0..graph.len() {
        push_node(alloc, out, n, graph.node(n))?;
    }
    Ok(())
}

// The lines of a root: a node with its name, and an edge to the root.
fn push_root(out: &mut Vec<u8>, name: &[u8], root: NodeId) -> Result<(), AllocError>
    ensures { OnOk result (out.new.items ≡ out.old.items ++ text_of (root_lines name.now root)) }
{
    out.extend_from_slice(name)?;
    out.extend_from_slice(b" [shape=plaintext]\n")?;
    out.extend_from_slice(name)?;
    out.extend_from_slice(b" -> ")?;
    Number::push(out, root)?;
    out.extend_from_slice(b"\n")
}

// The lines of a node: its own, and one for each kid.
fn push_node(alloc: Global, out: &mut Vec<u8>, n: NodeId, node: &Node) -> Result<(), Memory>
    ensures { OnOk result (out.new.items ≡ out.old.items ++ text_of (node_lines (n, node.now))) }
{
    push_vertex(alloc, out, n, node)?;
    push_edges(out, n, node.kids.as_slice())?;
    Ok(())
}

// A node with its label.
fn push_vertex(alloc: Global, out: &mut Vec<u8>, n: NodeId, node: &Node) -> Result<(), Memory>
    ensures { OnOk result (out.new.items ≡ out.old.items ++ text_of (vertex_line n node.now.op ∷ [])) }
{
    let mut words = Vec::new(alloc);
    push_op(alloc, &mut words, &node.op)?;
    Number::push(out, n)?;
    out.extend_from_slice(b" [label=\"")?;
    Number::push(out, n)?;
    push_label(out, &words)?;
    out.extend_from_slice(b"\"]\n")?;
    Ok(())
}

// A text as it stands in a label.
fn push_label(out: &mut Vec<u8>, text: &[u8]) -> Result<(), AllocError>
    ensures { OnOk result (out.new.items ≡ out.old.items ++ label_of text.now) }
{
    for byte in text {
        push_label_byte(out, *byte)?;
    }
    Ok(())
}

// A byte as it stands in a label.
fn push_label_byte(out: &mut Vec<u8>, byte: u8) -> Result<(), AllocError>
    ensures { OnOk result (out.new.items ≡ out.old.items ++ label_of (byte ∷ [])) }
{
    match byte {
        b'"' => out.extend_from_slice(b"\\\""),
        b'\\' => out.extend_from_slice(b"\\\\"),
        b'&' => out.extend_from_slice(b"&amp;"),
        other => out.extend_from_slice(&[other]),
    }
}

// The edges from a node to its kids.
fn push_edges(out: &mut Vec<u8>, n: NodeId, kids: &[NodeId]) -> Result<(), AllocError>
    ensures { OnOk result (out.new.items ≡ out.old.items ++ text_of (edge_lines n kids.now)) }
{
    for (place, kid) in kids.iter().enumerate() {
        push_edge(out, n, place, *kid)?;
    }
    Ok(())
}

// The edge from a node to the kid at a place, which is counted from 0.
fn push_edge(out: &mut Vec<u8>, n: NodeId, place: usize, kid: NodeId) -> Result<(), AllocError>
    requires { place < 2 ^ 63 }
    ensures { OnOk result (out.new.items ≡ out.old.items ++ text_of (edge_line n (place, kid) ∷ [])) }
{
    Number::push(out, n)?;
    out.extend_from_slice(b" -> ")?;
    Number::push(out, kid)?;
    out.extend_from_slice(b" [label=")?;
    push_decimal(out, place + 1)?;
    out.extend_from_slice(b"]\n")
}
