//! Nodes of the graph.

ghost use Rattle.std.specs.Prelude.{◌≡◌, ◌↔◌, [], ◌∷◌, IsTrue, MatchOption, None, Some, slice_get};
ghost use Rattle.pv_graph.specs.Ops.{shape};
ghost use Rattle.pv_steps.specs.Right.{Is, looks_at};
ghost use Rattle.pv_check.specs.Nodes.{IsCount, LooksAt};

use pv_graph::{Graph, Node, NodeId, Op};

pub(crate) fn is_same_op(a: &Op, b: &Op) -> bool
    ensures { IsTrue result ↔ (a.now ≡ b.now) }
{
    a == b
}

// The node with this number, if there is one.
pub(crate) fn node_at(graph: &Graph, n: NodeId) -> Option<&Node>
    ensures { MatchOption result (slice_get graph.now.nodes n ≡ None) (λ node. slice_get graph.now.nodes n ≡ Some node.now) }
{
    if n < graph.len() {
        Some(graph.node(n))
    } else {
        None
    }
}

// Whether node n is the count 0.
pub(crate) fn is_zero(graph: &Graph, n: NodeId) -> bool
    ensures { IsTrue result ↔ Is graph.now n Op.Zero [] }
{
    match node_at(graph, n) {
        Some(node) => matches!(node.op, Op::Zero) && node.kids.as_slice().is_empty(),
        None => false,
    }
}

// Whether node n is the shift of this depth over the kid.
pub(crate) fn is_shift(graph: &Graph, n: NodeId, depth: u32, kid: NodeId) -> bool
    ensures { IsTrue result ↔ Is graph.now n (Op.Shift depth) (kid ∷ []) }
{
    match node_at(graph, n) {
        Some(node) => match (&node.op, node.kids.as_slice()) {
            (Op::Shift(d), [only]) => *d == depth && *only == kid,
            _ => false,
        },
        None => false,
    }
}

// Whether node n is the eval of this depth over the kid and the count.
pub(crate) fn is_eval(graph: &Graph, n: NodeId, depth: u32, kid: NodeId, count: NodeId) -> bool
    ensures { IsTrue result ↔ Is graph.now n (Op.Eval depth) (kid ∷ count ∷ []) }
{
    match node_at(graph, n) {
        Some(node) => match (&node.op, node.kids.as_slice()) {
            (Op::Eval(d), [first, second]) => { *d == depth && *first == kid && *second == count }
            _ => false,
        },
        None => false,
    }
}

// The depth at whose other iterations an operation looks.
pub(crate) fn looks_at(op: &Op) -> Option<u32>
    ensures { result ≡ looks_at (shape op.now) }
{
    match op {
        Op::Theta(d) | Op::Eval(d) | Op::Pass(d) | Op::Shift(d) => Some(*d),
        _ => None,
    }
}

// Whether node n looks at other iterations of this depth.
pub(crate) fn looks_at_depth(graph: &Graph, n: NodeId, depth: u32) -> bool
    ensures { IsTrue result ↔ LooksAt graph.now n depth }
{
    match node_at(graph, n) {
        Some(node) => match looks_at(&node.op) {
            Some(d) => d == depth,
            None => false,
        },
        None => false,
    }
}

// The count of node n, where it is an eval of this depth over the kid.
pub(crate) fn count_of(graph: &Graph, n: NodeId, depth: u32, kid: NodeId) -> Option<NodeId>
    ensures { IsCount graph.now n depth kid result }
{
    match node_at(graph, n) {
        Some(node) => match (&node.op, node.kids.as_slice()) {
            (Op::Eval(d), [first, count]) => {
                if *d == depth && *first == kid {
                    Some(*count)
                } else {
                    None
                }
            }
            _ => None,
        },
        None => None,
    }
}
