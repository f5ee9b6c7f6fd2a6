//! One node for each number.

ghost use Rattle.std.specs.Prelude.{◌≡◌, ◌<◌, ◌∷◌, ℕ, length, map, IfOk, vec_len};
ghost use Rattle.std.specs.List.{All};
ghost use Rattle.pv_graph.specs.Graphs.{IsGraph};
ghost use Rattle.pv_alike.specs.Algorithm.{IsByNumber, IsNumbered};
ghost use Rattle.pv_alike.specs.Keys.{number_at, IsOnto};
ghost use Rattle.pv_alike.specs.Renumbered.{AreKidsWithin};
ghost use Rattle.pv_alike.specs.Quotient.{AreOrigins, AreOver};

use crate::numbering::{Numbers, over_numbers};
use pv_graph::{Graph, Node, NodeId};
use pv_value::Memory;
use std::alloc::Global;

// A node that has each number.
fn origins(alloc: Global, g: &Graph, numbers: &Numbers) -> Result<Vec<NodeId>, Memory>
    requires graph { IsGraph g.now }
    requires long { vec_len numbers.now.of ≡ length g.now.nodes }
    requires onto { IsOnto g.now.nodes (number_at numbers.now.of.items) numbers.now.count }
    ensures { IfOk result (λ origins. AreOrigins g.now.nodes (number_at numbers.now.of.items) numbers.now.count origins.items) }
{
    let mut origins = vec![in alloc; 0; numbers.count]?;
    for n in 0..g.len() {
        origins[numbers.of[n as usize] as usize] = n;
    }
    Ok(origins)
}

// Some nodes over the numbers of their kids.
fn all_over(
    alloc: Global,
    g: &Graph,
    numbers: &[NodeId],
    nodes: &[NodeId],
) -> Result<Vec<Node>, Memory>
    requires graph { IsGraph g.now }
    requires long { length numbers.now ≡ length g.now.nodes }
    requires there { All (λ n. n < length g.now.nodes) nodes.now }
    ensures { IfOk result (λ all. AreOver g.now.nodes (number_at numbers.now) nodes.now all.items) }
{
    let mut all = Vec::new(alloc);
    for n in nodes {
        all.push(over_numbers(alloc, numbers, g.node(*n))?)?;
    }
    Ok(all)
}

/// A node for each number: the operation of its nodes, over the numbers of their kids.
pub(crate) fn quotient(alloc: Global, g: &Graph, numbers: &Numbers) -> Result<Vec<Node>, Memory>
    requires graph { IsGraph g.now }
    requires long { vec_len numbers.now.of ≡ length g.now.nodes }
    requires onto { IsOnto g.now.nodes (number_at numbers.now.of.items) numbers.now.count }
    requires numbered { IsNumbered g.now.nodes (number_at numbers.now.of.items) }
    ensures long { IfOk result (λ q. vec_len q ≡ numbers.now.count) }
    ensures within { IfOk result (λ q. AreKidsWithin q.items) }
    ensures by_number { IfOk result (λ q. IsByNumber g.now.nodes (number_at numbers.now.of.items) q.items) }
{
    let origins = origins(alloc, g, numbers)?;
    let nodes = all_over(alloc, g, &numbers.of, &origins)?;
    Ok(nodes)
}
