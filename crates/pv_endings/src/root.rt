//! The kids of a root.

ghost use Rattle.std.specs.Prelude.{◌≡◌, ◌∷◌, [], MatchOption, Some, slice_get};
ghost use Rattle.pv_graph.specs.declared.node.Op.TheVariants as Op;
ghost use Rattle.pv_endings.specs.Endings.{IsRootOver};

use pv_graph::{Graph, NodeId, Op};

/// The kids of a root: its token, its fault, its result and its heap.
#[derive(Clone, Copy, Debug, PartialEq, Eq)]
pub struct RootParts {
    pub token: NodeId,
    pub fault: NodeId,
    pub result: NodeId,
    pub heap: NodeId,
}

/// The kids of node p, where it is a root; none where it is another node, or no node.
pub fn root_parts(graph: &Graph, p: NodeId) -> Option<RootParts>
    ensures { MatchOption result ((parts : RootParts) → IsRootOver graph.now p parts → ⊥) (λ parts. IsRootOver graph.now p parts) }
{
    if p >= graph.len() {
        return None;
    }
    let node = graph.node(p);
    match (&node.op, node.kids.as_slice()) {
        (Op::Root, [token, fault, result, heap]) => Some(RootParts {
            token: *token,
            fault: *fault,
            result: *result,
            heap: *heap,
        }),
        _ => None,
    }
}
