//! The supports of a condition.

ghost use Rattle.std.specs.Prelude.{◌≡◌, ◌↔◌, ◌<◌, ℕ, false, length, vec_len, IfOk, OnOk, IsTrue};
ghost use Rattle.pv_graph.specs.Walks.{In};
ghost use Rattle.pv_graph.specs.Reach.{IsMarked};
ghost use Rattle.pv_witness.specs.Found.{Begins, IsFound, IsReadyBy, Lists, Spreads};
ghost use Rattle.pv_marks.specs.Classes.{class_of};
ghost use Rattle.pv_witness.specs.Numbered.{AreNumbered, numbered};
ghost use Rattle.pv_witness.specs.Supports.{AreAllSupports, counted};

use crate::condition::Condition;
use pv_graph::{Graph, Node, NodeId};
use pv_marks::parents_of;
use std::alloc::{AllocError, Global};

// The supports so far, and for each class number whether they cover it.
#[derive(Drop)]
struct Found {
    list: Vec<NodeId>,
    has: Vec<bool>,
}

// Whether the classes of all these nodes are marked.
fn all_have(has: &[bool], numbers: &[NodeId], kids: &[NodeId]) -> bool
    requires kids { (k : ℕ) → In kids.now k → k < length numbers.now }
    requires numbers { (k : ℕ) → In kids.now k → class_of numbers.now k < length has.now }
    ensures { IsTrue result ↔ ((k : ℕ) → In kids.now k → IsMarked has.now (class_of numbers.now k)) }
{
    for kid in kids {
        if !has[numbers[*kid as usize] as usize] {
            return false;
        }
    }
    true
}

// Whether a node is ready by the classes that are marked.
fn is_ready(has: &[bool], numbers: &[NodeId], condition: Condition, node: &Node) -> bool
    requires kids { (k : ℕ) → In node.now.kids k → k < length numbers.now }
    requires numbers { (k : ℕ) → In node.now.kids k → class_of numbers.now k < length has.now }
    ensures { IsTrue result ↔ IsReadyBy numbers.now condition has.now node.now }
{
    condition.hands_on(&node.op) && all_have(has, numbers, condition.counted(node))
}

// Lists a node as the support of its class, where that has none yet.
fn list_support(found: &mut Found, numbers: &[NodeId], n: NodeId) -> Result<(), AllocError>
    requires there { n < length numbers.now }
    requires class { class_of numbers.now n < vec_len found.old.has }
    ensures { OnOk result (Lists numbers.now n found.old.list.items found.new.list.items found.old.has.items found.new.has.items) }
{
    let c = numbers[n as usize] as usize;
    if !found.has[c] {
        found.list.push(n)?;
        found.has[c] = true;
    }
    Ok(())
}

// Lists those of these nodes that are ready.
fn spread(
    graph: &Graph,
    numbers: &[NodeId],
    condition: Condition,
    nodes: &[NodeId],
    found: &mut Found,
) -> Result<(), AllocError>
    requires sealed { graph.now.is_open ≡ false }
    requires numbered { AreNumbered graph.now numbers.now }
    requires nodes { (n : ℕ) → In nodes.now n → n < length numbers.now }
    requires found { IsFound (numbered graph.now numbers.now) numbers.now found.old.list.items found.old.has.items }
    ensures { OnOk result (Spreads (numbered graph.now numbers.now) numbers.now condition nodes.now found.old.list.items found.new.list.items found.new.has.items) }
{
    let _count = graph.len();
    for n in nodes {
        if is_ready(&found.has, numbers, condition, graph.node(*n)) {
            list_support(found, numbers, *n)?;
        }
    }
    Ok(())
}

// The supports that rest on no others.
fn begin(
    alloc: Global,
    graph: &Graph,
    numbers: &[NodeId],
    condition: Condition,
    starts: &[bool],
) -> Result<Found, AllocError>
    requires sealed { graph.now.is_open ≡ false }
    requires numbered { AreNumbered graph.now numbers.now }
    requires starts { length starts.now ≡ length numbers.now }
    ensures { IfOk result (λ found. Begins (numbered graph.now numbers.now) numbers.now condition starts.now (length numbers.now) found.list.items found.has.items) }
{
    let _count = graph.len();
    let mut found = Found {
        list: Vec::new(alloc),
        has: vec![in alloc; false; numbers.len()]?,
    };
    for n in 0..numbers.len() as u32 {
        if starts[n as usize] || is_ready(&found.has, numbers, condition, graph.node(n)) {
            list_support(&mut found, numbers, n)?;
        }
    }
    Ok(found)
}

// The supports of a condition, by the nodes that are marked: one for each class of which the condition holds, in an order in
// which each rests on earlier ones. The list is its own queue: the parents of the class of each listed node are looked at
// again, so all calls together look at a node once for each of its kids.
pub(crate) fn supports(
    alloc: Global,
    graph: &Graph,
    numbers: &[NodeId],
    condition: Condition,
    starts: &[bool],
) -> Result<Vec<NodeId>, AllocError>
    requires sealed { graph.now.is_open ≡ false }
    requires numbered { AreNumbered graph.now numbers.now }
    requires starts { length starts.now ≡ length numbers.now }
    ensures { IfOk result (λ list. AreAllSupports (numbered graph.now numbers.now) numbers.now condition starts.now list.items) }
{
    let _count = graph.len();
    let parents = parents_of(alloc, graph, numbers)?;
    let mut found = begin(alloc, graph, numbers, condition, starts)?;
    let mut next = 0;
    while next < found.list.len() {
        let c = numbers[found.list[next] as usize] as usize;
        spread(graph, numbers, condition, &parents[c], &mut found)?;
        next += 1;
    }
    let Found { list, has: _ } = found;
    Ok(list)
}
