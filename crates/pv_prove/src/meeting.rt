//! How two roots meet in two searches.

ghost use Rattle.std.specs.Prelude.{◌↔◌, IsTrue};
ghost use Rattle.pv_heights.specs.Searches.{OneClass};
ghost use Rattle.pv_prove.specs.Meetings.{AreMetKids, IsMeeting, KidsMeet};

use pv_alike::Least;
use pv_classes::Classes;
use pv_endings::{RootParts, root_parts};
use pv_graph::{Graph, NodeId};

/// How two roots meet: they are in one class, or else their kids are.
#[derive(Clone, Copy, Debug, PartialEq, Eq)]
pub enum Meeting {
    Roots,
    Kids,
}

// Whether two nodes are in one class; no, where one of them is no node.
fn are_joined(classes: &Classes, a: NodeId, b: NodeId) -> bool
    ensures { IsTrue result ↔ OneClass classes.now.numbers a b }
{
    let n = classes.len();
    if a >= n || b >= n {
        return false;
    }
    classes.joined(a, b)
}

// Whether the tokens are joined in the plain search, and the other kids in the one with endings.
fn are_met(left: RootParts, right: RootParts, plain: &Classes, ending: &Classes) -> bool
    ensures { IsTrue result ↔ AreMetKids left right plain.now.numbers ending.now.numbers }
{
    are_joined(plain, left.token, right.token)
        && are_joined(ending, left.fault, right.fault)
        && are_joined(ending, left.result, right.result)
        && are_joined(ending, left.heap, right.heap)
}

// Whether p and q are roots whose kids meet.
fn kids_meet(graph: &Graph, p: NodeId, q: NodeId, plain: &Classes, ending: &Classes) -> bool
    ensures { IsTrue result ↔ KidsMeet graph.now p q plain.now.numbers ending.now.numbers }
{
    match (root_parts(graph, p), root_parts(graph, q)) {
        (Some(left), Some(right)) => are_met(left, right, plain, ending),
        _ => false,
    }
}

/// How the roots of a least graph meet, by the classes of a plain search and of one with endings; none, where they don't. It takes
/// no memory and constant time.
pub fn how_met(least: &Least, plain: &Classes, ending: &Classes) -> Option<Meeting>
    ensures { IsMeeting least.now.graph least.now.first least.now.second plain.now.numbers ending.now.numbers result }
{
    let (graph, p, q) = (least.graph(), least.first(), least.second());
    if are_joined(plain, p, q) {
        Some(Meeting::Roots)
    } else if kids_meet(graph, p, q, plain, ending) {
        Some(Meeting::Kids)
    } else {
        None
    }
}
