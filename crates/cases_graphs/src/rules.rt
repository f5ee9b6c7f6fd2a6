//! Tests for what some calls of `pv_graph` and `pv_alike` require. They compare the numbers of nodes alone, so
//! some graphs that keep the rules don't pass, least graphs among them.
//!
//! The later kids of a theta are all but its first.

ghost use Rattle.std.specs.Prelude.{◌≡◌, ◌⊎◌, ◌<◌, length, IsTrue, MatchOption};
ghost use Rattle.pv_graph.specs.Ops.{shape};
ghost use Rattle.pv_graph.specs.Walks.{down, move_to};
ghost use Rattle.pv_graph.specs.Graphs.{IsWellMade};
ghost use Rattle.pv_graph.specs.Calls.{IsDistinct, LeavesNoSortOpen};
ghost use Rattle.cases_graphs.specs.Rules.{AllStayBelow, Falls, IsLater, IsUncrossed, KidStaysBelow, Rises, StaysBelow};

use pv_graph::{Graph, Node, NodeId, Op};

// The depth of a theta, where the kid at this place is a later one of it.
fn later_of(op: &Op, place: usize) -> Option<u32>
    ensures { MatchOption result (IsLater op.now place → ⊥) (λ d. move_to (shape op.now) place ≡ down d) }
{
    match op {
        Op::Theta(d) if place > 0 => Some(*d),
        _ => None,
    }
}

// Whether the kid at this place is smaller than n, or a later kid of a theta.
fn kid_falls(n: NodeId, op: &Op, place: usize, kid: NodeId) -> bool
    ensures { IsTrue result → (kid < n) ⊎ IsLater op.now place }
{
    kid < n || later_of(op, place).is_some()
}

// .. and each kid of the node.
fn falls(n: NodeId, node: &Node) -> bool
    ensures { IsTrue result → Falls n node.now }
{
    let kids = node.kids.as_slice();
    for (place, kid) in kids.iter().enumerate() {
        if !kid_falls(n, &node.op, place, *kid) {
            return false;
        }
    }
    true
}

// Whether the kid at this place is larger than n, or a later kid of a theta.
fn kid_rises(n: usize, op: &Op, place: usize, kid: NodeId) -> bool
    ensures { IsTrue result → (n < kid) ⊎ IsLater op.now place }
{
    n < kid as usize || later_of(op, place).is_some()
}

// .. and each kid of the node.
fn rises(n: usize, node: &Node) -> bool
    ensures { IsTrue result → Rises n node.now }
{
    let kids = node.kids.as_slice();
    for (place, kid) in kids.iter().enumerate() {
        if !kid_rises(n, &node.op, place, *kid) {
            return false;
        }
    }
    true
}

// Whether the kid at this place is smaller than n, where it is a later kid of a theta of depth e or more.
fn kid_stays_below(n: NodeId, e: u32, op: &Op, place: usize, kid: NodeId) -> bool
    ensures { IsTrue result → KidStaysBelow n e op.now place kid }
{
    match later_of(op, place) {
        Some(d) => kid < n || d < e,
        None => true,
    }
}

// .. and each kid of the node.
fn stays_below(n: NodeId, e: u32, node: &Node) -> bool
    ensures { IsTrue result → StaysBelow n e node.now }
{
    let kids = node.kids.as_slice();
    for (place, kid) in kids.iter().enumerate() {
        if !kid_stays_below(n, e, &node.op, place, *kid) {
            return false;
        }
    }
    true
}

// .. and each kid of the nodes below n.
fn all_stay_below(graph: &Graph, n: NodeId, e: u32) -> bool
    requires { n < length graph.now.nodes }
    ensures { IsTrue result → AllStayBelow graph.now.nodes n e }
{
    for t in 0..n {
        if !stays_below(n, e, graph.node(t)) {
            return false;
        }
    }
    true
}

// .. where e is the depth of node n, if that is an eval, a pass or a shift.
fn is_uncrossed(graph: &Graph, n: NodeId, node: &Node) -> bool
    requires { n < length graph.now.nodes }
    ensures { IsTrue result → IsUncrossed graph.now.nodes n node.now }
{
    match node.op {
        Op::Eval(e) | Op::Pass(e) | Op::Shift(e) => all_stay_below(graph, n, e),
        _ => true,
    }
}

/// Whether each kid but a theta's later ones is smaller than its node, and no eval, pass or shift of a theta's depth
/// or less is larger than the theta and not larger than a later kid of it: such a graph is well made.
pub fn is_well_made(graph: &Graph) -> bool
    ensures { IsTrue result → IsWellMade graph.now }
{
    for n in 0..graph.len() {
        let node = graph.node(n);
        if !falls(n, node) || !is_uncrossed(graph, n, node) {
            return false;
        }
    }
    true
}

/// Whether each kid but a theta's later ones is larger than its node: then each cycle takes the second kid of some
/// theta.
pub fn rise(nodes: &[Node]) -> bool
    ensures { IsTrue result → LeavesNoSortOpen nodes.now }
{
    for (n, node) in nodes.iter().enumerate() {
        if !rises(n, node) {
            return false;
        }
    }
    true
}

/// Whether no two nodes of a list are equal.
pub fn are_distinct(nodes: &[Node]) -> bool
    ensures { IsTrue result → IsDistinct nodes.now }
{
    for (n, node) in nodes.iter().enumerate() {
        if nodes[..n].contains(node) {
            return false;
        }
    }
    true
}
