//! Recognizes the parts of a loop that counts up.

ghost use Rattle.std.specs.Prelude.{◌≡◌, ◌<◌, ◌↔◌, ℕ, length, IsTrue, MatchOption};
ghost use Rattle.pv_graph.specs.Graphs.{form_at, IsGraph};
ghost use Rattle.pv_counted.specs.Counted.{IsInt, AddsOne, IsSum};
ghost use Rattle.pv_counted.specs.Recognized.{IsOver, IsNotOver, CountsFrom, CountsAs, IsTest};

use pv_graph::{Graph, NodeId, Op};
use pv_value::ScalarOp;

// Whether two operations are equal.
fn is_same_op(a: &Op, b: &Op) -> bool
    ensures { IsTrue result ↔ (a.now ≡ b.now) }
{
    a == b
}

/// The kids of a node that is this operation.
pub(crate) fn kids_of<'a>(g: &'a Graph, n: NodeId, op: &Op) -> Option<&'a [NodeId]>
    requires { n < length g.now.nodes }
    ensures { MatchOption result (IsNotOver g.now n op.now) (λ ks. IsOver g.now n op.now ks.now) }
{
    let node = g.node(n);
    if is_same_op(&node.op, op) {
        Some(node.kids.as_slice())
    } else {
        None
    }
}

// Whether a node is this constant.
fn is_int(g: &Graph, n: NodeId, c: i32) -> bool
    requires { n < length g.now.nodes }
    ensures { IsTrue result ↔ IsInt (form_at g.now.nodes) c n }
{
    match kids_of(g, n, &Op::Int(c)) {
        Some(kids) => kids.is_empty(),
        None => false,
    }
}

// Whether a node is the sum of x and 1, in either order.
fn adds_one(g: &Graph, x: NodeId, y: NodeId) -> bool
    requires graph { IsGraph g.now }
    requires there { y < length g.now.nodes }
    ensures { IsTrue result ↔ AddsOne (form_at g.now.nodes) x y }
{
    match kids_of(g, y, &Op::Scalar(ScalarOp::Iadd)) {
        Some([a, b]) => (*a == x && is_int(g, *b, 1)) || (*b == x && is_int(g, *a, 1)),
        _ => false,
    }
}

// The start of the loop of this depth whose theta is x and whose next iteration is y, which adds 1 to x.
fn start_of(g: &Graph, depth: u32, x: NodeId, y: NodeId) -> Option<NodeId>
    requires graph { IsGraph g.now }
    requires first { x < length g.now.nodes }
    requires second { y < length g.now.nodes }
    ensures { MatchOption result ((start : ℕ) → CountsFrom g.now depth start x y → ⊥) (λ start. CountsFrom g.now depth start x y) }
{
    match kids_of(g, x, &Op::Theta(depth)) {
        Some([start, next]) if *next == y && adds_one(g, x, y) => Some(*start),
        _ => None,
    }
}

/// The start from which a counter counts in a loop of this depth.
pub(crate) fn counter_start(g: &Graph, depth: u32, counter: NodeId) -> Option<NodeId>
    requires graph { IsGraph g.now }
    requires there { counter < length g.now.nodes }
    ensures { MatchOption result ((start : ℕ) → CountsAs g.now depth start counter → ⊥) (λ start. CountsAs g.now depth start counter) }
{
    if let Some([_, next]) = kids_of(g, counter, &Op::Theta(depth)) {
        return start_of(g, depth, counter, *next);
    }
    match kids_of(g, counter, &Op::Scalar(ScalarOp::Iadd)) {
        Some([a, b]) => match start_of(g, depth, *a, counter) {
            Some(start) => Some(start),
            None => start_of(g, depth, *b, counter),
        },
        _ => None,
    }
}

/// The counter and the bound of a test.
pub(crate) fn test_of(g: &Graph, test: NodeId) -> Option<(NodeId, NodeId)>
    requires graph { IsGraph g.now }
    requires there { test < length g.now.nodes }
    ensures { MatchOption result ((counter bound : ℕ) → IsTest g.now test counter bound → ⊥) (λ r. IsTest g.now test r.0 r.1) }
{
    let Some([less, no, yes]) = kids_of(g, test, &Op::Phi) else {
        return None;
    };
    if !is_int(g, *no, 0) || !is_int(g, *yes, 1) {
        return None;
    }
    match kids_of(g, *less, &Op::Scalar(ScalarOp::Ilt)) {
        Some([counter, bound]) => Some((*counter, *bound)),
        _ => None,
    }
}
