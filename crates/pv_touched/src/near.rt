//! Which classes are near those that changed.

ghost use Rattle.std.specs.Prelude.{◌≡◌, ◌↔◌, ◌<◌, IfOk, IsTrue, length};
ghost use Rattle.std.specs.Bool.{OnTrue};
ghost use Rattle.pv_marks.specs.Classes.{class_of};
ghost use Rattle.pv_marks.specs.Marks.{AreClasses};
ghost use Rattle.pv_match.specs.Kept.{IsKept};
ghost use Rattle.pv_touched.specs.Far.{AllClear, AreFar, IsClear, IsOld, ListsNear, Spreads};

use crate::changed::changed;
use crate::since::Since;
use pv_graph::{Graph, NodeId};
use std::alloc::{AllocError, Global};

// The class of a node.
fn class_at(numbers: &[NodeId], n: NodeId) -> u32
    ensures { result ≡ class_of numbers.now n }
{
    match numbers.get(n as usize) {
        Some(class) => *class,
        None => 0,
    }
}

// Whether a class isn't near.
fn is_clear(near: &[bool], class: u32) -> bool
    ensures { IsTrue result ↔ IsClear near.now class }
{
    match near.get(class as usize) {
        Some(is_near) => !*is_near,
        None => false,
    }
}

// Whether none of these nodes is in a class that is near.
fn all_clear(near: &[bool], numbers: &[NodeId], kids: &[NodeId]) -> bool
    ensures { OnTrue result (AllClear numbers.now near.now kids.now) }
{
    for kid in kids {
        if !is_clear(near, class_at(numbers, *kid)) {
            return false;
        }
    }
    true
}

// The classes that are near, and those that hold a node with a kid in one of them.
fn spread(
    alloc: Global,
    graph: &Graph,
    numbers: &[NodeId],
    near: &[bool],
) -> Result<Vec<bool>, AllocError>
    requires classes { AreClasses graph.now numbers.now }
    requires long { length near.now ≡ length graph.now.nodes }
    ensures long { IfOk result (λ next. length next.items ≡ length graph.now.nodes) }
    ensures spreads { IfOk result (λ next. Spreads graph.now numbers.now near.now next.items) }
{
    let mut next = Vec::from_slice(alloc, near)?;
    for n in 0..graph.len() {
        if !all_clear(near, numbers, graph.node(n).kids.as_slice()) {
            next[numbers[n as usize] as usize] = true;
        }
    }
    Ok(next)
}

/// For each class whether one that changed is reached from it by at most so many steps to kids.
pub(crate) fn near(
    alloc: Global,
    graph: &Graph,
    since: &Since,
    steps: u32,
) -> Result<Vec<bool>, AllocError>
    requires { AreClasses graph.now since.now.numbers.now }
    ensures { IfOk result (λ near. AreFar graph.now since.now steps near.items) }
{
    let mut near = changed(alloc, since)?;
    for _ in 0..steps {
        near = spread(alloc, graph, since.numbers, &near)?;
    }
    Ok(near)
}

// Whether a node was there at the earlier look, and has no kid in a class that is near.
fn is_untouched(graph: &Graph, since: &Since, near: &[bool], n: NodeId) -> bool
    requires { n < length graph.now.nodes }
    ensures { OnTrue result (IsOld graph.now since.now near.now n) }
{
    if n as usize >= since.old_numbers.len() {
        return false;
    }
    all_clear(near, since.numbers, graph.node(n).kids.as_slice())
}

// Whether a node is kept.
fn is_kept(kept: &[bool], n: NodeId) -> bool
    ensures { IsTrue result ↔ IsKept kept.now n }
{
    match kept.get(n as usize) {
        Some(is_kept) => *is_kept,
        None => false,
    }
}

/// Of the nodes that are kept those that are new, or have a kid in a class that is near.
pub(crate) fn nodes_near(
    alloc: Global,
    graph: &Graph,
    since: &Since,
    kept: &[bool],
    near: &[bool],
) -> Result<Vec<NodeId>, AllocError>
    ensures { IfOk result (λ touched. ListsNear graph.now since.now kept.now near.now touched.items) }
{
    let mut touched = Vec::new(alloc);
    for n in 0..graph.len() {
        if is_kept(kept, n) && !is_untouched(graph, since, near, n) {
            touched.push(n)?;
        }
    }
    Ok(touched)
}
