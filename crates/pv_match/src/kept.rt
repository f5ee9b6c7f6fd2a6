//! Which nodes are kept: of those of one form in one class the first, since all of them match the same patterns.

ghost use Rattle.std.specs.Prelude.{◌↔◌, IsTrue, OnOk};
ghost use Rattle.pv_match.specs.Kept.{AddsKept, IsKept};

use pv_graph::NodeId;
use pv_value::Memory;

// Whether a node is kept.
pub(crate) fn is_kept(kept: &[bool], n: NodeId) -> bool
    ensures { IsTrue result ↔ IsKept kept.now n }
{
    match kept.get(n as usize) {
        Some(is) => *is,
        None => false,
    }
}

// Adds to a list those of these nodes that are kept.
pub(crate) fn add_kept(
    kept: &[bool],
    nodes: &[NodeId],
    list: &mut Vec<NodeId>,
) -> Result<(), Memory>
    ensures { OnOk result (AddsKept kept.now nodes.now list.old.items list.new.items) }
{
    for n in nodes {
        if is_kept(kept, *n) {
            list.push(*n)?;
        }
    }
    Ok(())
}
