//! A least graph and its two roots.

ghost use Rattle.std.specs.Prelude.{◌≡◌};

use pv_graph::{Graph, NodeId};
use std::marker::Model;

/// The least graph of two nodes, with its two roots.
#[derive(Drop)]
pub struct Least {
    graph: Graph,
    first: NodeId,
    second: NodeId,
}

impl Model for Least {
    ghost use Rattle.pv_alike.specs.Least.{Rooted};

    ghost Value = { Rooted };

    ghost view = { λ l. record { graph = l.graph; first = l.first; second = l.second } };
}

impl Least {
    pub(crate) fn new(graph: Graph, first: NodeId, second: NodeId) -> Least
        ensures graph { result.graph ≡ graph }
        ensures first { result.first ≡ first }
        ensures second { result.second ≡ second }
    {
        Least {
            graph,
            first,
            second,
        }
    }

    /// The graph, which is sealed and of which all nodes are the base.
    pub fn graph(&self) -> &Graph
        ensures { result.now ≡ self.now.graph }
    {
        &self.graph
    }

    /// The first root.
    pub fn first(&self) -> NodeId
        ensures { result ≡ self.now.first }
    {
        self.first
    }

    /// The second root.
    pub fn second(&self) -> NodeId
        ensures { result ≡ self.now.second }
    {
        self.second
    }
}
