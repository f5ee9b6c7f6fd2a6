//! The nodes of a graph, copied into a certificate.

ghost use Rattle.std.specs.Prelude.{◌≡◌, ◌<◌, IfOk, false, true, length, slice_get, Some};
ghost use Rattle.std.specs.List.{AllZip};
ghost use Rattle.pv_graph.specs.declared.node.Node.{Node};
ghost use Rattle.pv_graph.specs.Graphs.{IsGraph};
ghost use Rattle.pv_writer.specs.Written.{GoesOn};
ghost use Rattle.pv_explain.specs.Copies.{AreCopies, HasCopy, IsCopied};
ghost use Rattle.pv_explain.specs.Lines.{HaveCopies};
ghost use Rattle.pv_explain.specs.Copying.{AreFirstCopies, AreOwnCopies, HasBase, IsCopyIf, IsCopyOf};
ghost use Rattle.pv_explain.specs.Named.{AreClosed};

use crate::marks::is_marked;
use pv_graph::{Graph, NodeId};
use pv_value::Memory;
use pv_writer::Writer;
use std::alloc::Global;

// The copy of a node.
pub(crate) fn copy_of(map: &[Option<NodeId>], n: NodeId) -> NodeId
    requires { HasCopy map.now n }
    ensures { IsCopied map.now n result }
{
    map[n as usize].unwrap()
}

// The copies of nodes.
pub(crate) fn copies_of(
    alloc: Global,
    map: &[Option<NodeId>],
    nodes: &[NodeId],
) -> Result<Vec<NodeId>, Memory>
    requires { HaveCopies map.now nodes.now }
    ensures { IfOk result (λ copies. AllZip (IsCopied map.now) nodes.now copies.items) }
{
    let mut copies = Vec::new(alloc);
    for node in nodes {
        copies.push(copy_of(map, *node))?;
    }
    Ok(copies)
}

// A copy of a node whose kids have copies.
fn copy_node(
    alloc: Global,
    writer: &mut Writer,
    graph: &Graph,
    map: &[Option<NodeId>],
    n: NodeId,
) -> Result<NodeId, Memory>
    requires made { IsGraph graph.now }
    requires sealed { graph.now.is_open ≡ false }
    requires copies { AreCopies graph.now writer.old.graph map.now }
    requires node { n < length graph.now.nodes }
    requires kids { (node : Node) → slice_get graph.now.nodes n ≡ Some node → HaveCopies map.now node.kids }
    ensures copy { IfOk result (λ m. IsCopyOf writer.new graph.now map.now n m) }
    ensures goes { IfOk result (λ m. GoesOn writer.old writer.new) }
{
    let node = graph.node(n);
    let kids = copies_of(alloc, map, node.kids.as_slice())?;
    let copy = writer.node(alloc, &node.op, &kids)?;
    Ok(copy)
}

// A copy of a node, if it is marked.
fn copy_if_marked(
    alloc: Global,
    writer: &mut Writer,
    graph: &Graph,
    map: &[Option<NodeId>],
    is_marked: bool,
    n: NodeId,
) -> Result<Option<NodeId>, Memory>
    requires made { IsGraph graph.now }
    requires sealed { graph.now.is_open ≡ false }
    requires copies { AreCopies graph.now writer.old.graph map.now }
    requires node { n < length graph.now.nodes }
    requires kids { is_marked ≡ true → (node : Node) → slice_get graph.now.nodes n ≡ Some node → HaveCopies map.now node.kids }
    ensures copy { IfOk result (λ copy. IsCopyIf writer.new graph.now map.now is_marked n copy) }
    ensures goes { IfOk result (λ copy. GoesOn writer.old writer.new) }
{
    if !is_marked {
        return Ok(None);
    }
    let copy = copy_node(alloc, writer, graph, map, n)?;
    Ok(Some(copy))
}

// The nodes of a base, each its own copy.
fn base_copies(alloc: Global, base: u32) -> Result<Vec<Option<NodeId>>, Memory>
    ensures { IfOk result (λ map. AreOwnCopies base map.items) }
{
    let mut map = Vec::new(alloc);
    for n in 0..base {
        map.push(Some(n))?;
    }
    Ok(map)
}

// Copies of the marked nodes of a graph. The nodes of the base are there already, and the kids of a marked node are marked.
pub(crate) fn copy_nodes(
    alloc: Global,
    writer: &mut Writer,
    graph: &Graph,
    base: u32,
    marks: &[bool],
) -> Result<Vec<Option<NodeId>>, Memory>
    requires made { IsGraph graph.now }
    requires sealed { graph.now.is_open ≡ false }
    requires base { base ≡ graph.now.base }
    requires begins { HasBase writer.old graph.now }
    requires long { length marks.now ≡ length graph.now.nodes }
    requires closed { AreClosed graph.now marks.now }
    ensures copies { IfOk result (λ map. AreFirstCopies writer.new graph.now marks.now (length graph.now.nodes) map.items) }
    ensures goes { IfOk result (λ map. GoesOn writer.old writer.new) }
{
    let mut map = base_copies(alloc, base)?;
    for n in base..graph.len() {
        let wanted = is_marked(marks, n as usize);
        let copy = copy_if_marked(alloc, writer, graph, &map, wanted, n)?;
        map.push(copy)?;
    }
    Ok(map)
}
