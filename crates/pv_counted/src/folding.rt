//! Makes equal nodes one, until no two are equal.

ghost use Rattle.std.specs.Prelude.{◌≡◌, ◌<◌, ◌^◌, ℕ, Some, length, map, slice_get, IfOk, vec_len};
ghost use Rattle.pv_graph.specs.Walks.{In};
ghost use Rattle.pv_graph.specs.Calls.{IsDistinct};
ghost use Rattle.pv_alike.specs.Keys.{number_at, over_numbers};
ghost use Rattle.pv_counted.specs.Folding.{ArePlaces, IsFolded, KidsAreNodes};

use crate::keys::Keys;
use pv_graph::{Kids, Node, NodeId};
use pv_value::Memory;
use std::alloc::Global;

/// Nodes, of which two are roots.
#[derive(Drop)]
pub(crate) struct TwoRoots {
    pub(crate) nodes: Vec<Node>,
    pub(crate) first: NodeId,
    pub(crate) second: NodeId,
}

// The nodes without repetitions, and for each node its place among these.
#[derive(Drop)]
struct Places {
    of: Vec<NodeId>,
    kept: Keys,
}

// The places of nodes.
fn places_of(alloc: Global, nodes: &[Node]) -> Result<Places, Memory>
    requires { length nodes.now < 2 ^ 32 }
    ensures { IfOk result (λ p. ArePlaces nodes.now p.of.items p.kept) }
{
    let mut kept = Keys::new(alloc);
    let mut of = Vec::new(alloc);
    for node in nodes {
        let place = kept.number(node.copy(alloc)?)?;
        of.push(place)?;
    }
    Ok(Places { of, kept })
}

// The places of some nodes.
fn all_places(alloc: Global, places: &[NodeId], nodes: &[NodeId]) -> Result<Vec<NodeId>, Memory>
    requires { (k : ℕ) → In nodes.now k → k < length places.now }
    ensures { IfOk result (λ found. found.items ≡ map (number_at places.now) nodes.now) }
{
    let mut found = Vec::new(alloc);
    for k in nodes {
        found.push(places[*k as usize])?;
    }
    Ok(found)
}

// A node over the places of its kids.
fn over_places(alloc: Global, places: &[NodeId], node: &Node) -> Result<Node, Memory>
    requires { (k : ℕ) → In node.now.kids k → k < length places.now }
    ensures { IfOk result (λ over. over ≡ over_numbers (number_at places.now) node.now) }
{
    let kids = all_places(alloc, places, node.kids.as_slice())?;
    Ok(Node {
        op: node.op.copy(alloc)?,
        kids: Kids::new(alloc, &kids)?,
    })
}

// Nodes over the places of their kids.
fn all_over(alloc: Global, places: &[NodeId], nodes: &[Node]) -> Result<Vec<Node>, Memory>
    requires { (n k : ℕ) (node : Node) → slice_get nodes.now n ≡ Some node → In node.kids k → k < length places.now }
    ensures { IfOk result (λ all. all.items ≡ map (over_numbers (number_at places.now)) nodes.now) }
{
    let mut all = Vec::new(alloc);
    for node in nodes {
        all.push(over_places(alloc, places, node)?)?;
    }
    Ok(all)
}

// Equal nodes made one.
fn fold(alloc: Global, f: &TwoRoots, places: &Places) -> Result<TwoRoots, Memory>
    requires places { ArePlaces f.now.nodes.items places.now.of.items places.now.kept }
    requires within { KidsAreNodes f.now.nodes.items }
    requires first { f.now.first < vec_len f.now.nodes }
    requires second { f.now.second < vec_len f.now.nodes }
    ensures nodes { IfOk result (λ r. r.nodes.items ≡ map (over_numbers (number_at places.now.of.items)) places.now.kept) }
    ensures first { IfOk result (λ r. r.first ≡ number_at places.now.of.items f.now.first) }
    ensures second { IfOk result (λ r. r.second ≡ number_at places.now.of.items f.now.second) }
{
    let nodes = all_over(alloc, &places.of, places.kept.as_slice())?;
    Ok(TwoRoots {
        nodes,
        first: places.of[f.first as usize],
        second: places.of[f.second as usize],
    })
}

/// Equal nodes made one, then those that are equal after that, and so on, until no two nodes are equal.
/// The time of each round is linear in the number of nodes and kids.
pub(crate) fn folded(alloc: Global, start: TwoRoots) -> Result<TwoRoots, Memory>
    requires few { vec_len start.nodes < 2 ^ 32 }
    requires within { KidsAreNodes start.nodes.items }
    requires first { start.first < vec_len start.nodes }
    requires second { start.second < vec_len start.nodes }
    ensures distinct { IfOk result (λ f. IsDistinct f.nodes.items) }
    ensures same { IfOk result (λ f. IsFolded start.nodes.items start.first start.second f.nodes.items f.first f.second) }
{
    let mut f = start;
    loop {
        let places = places_of(alloc, &f.nodes)?;
        if places.kept.as_slice().len() >= f.nodes.len() {
            return Ok(f);
        }
        f = fold(alloc, &f, &places)?;
    }
}
