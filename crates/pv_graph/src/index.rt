//! The numbers of nodes, found by the node.

ghost use Rattle.std.specs.Prelude.{◌≡◌, None, Some, OnOk, OnErr};
ghost use Rattle.pv_graph.specs.Index.{least_of, number_in, Renumbers};

use crate::node::{Node, NodeId};
use std::alloc::{AllocError, Global};
use std::collections::HashMap;

// A number for some nodes.
#[derive(Drop)]
pub(crate) struct Index {
    numbers: HashMap<Node, NodeId>,
}

impl Index {
    // No numbers.
    pub(crate) fn new(alloc: Global) -> Index
        ensures { (node : Node) → number_in result.numbers node ≡ None }
    {
        Index {
            numbers: HashMap::new(alloc),
        }
    }

    // The number of a node.
    pub(crate) fn get(&self, node: &Node) -> Option<NodeId>
        ensures { result ≡ number_in self.now.numbers node.now }
    {
        self.numbers.get(node).copied()
    }

    // The smaller of a node's number, if it has one, and n.
    pub(crate) fn least(&self, node: &Node, n: NodeId) -> NodeId
        ensures { result ≡ least_of (number_in self.now.numbers node.now) n }
    {
        match self.get(node) {
            Some(m) => m.min(n),
            None => n,
        }
    }

    // Gives a node this number, in place of the one that it has.
    pub(crate) fn insert(&mut self, node: Node, n: NodeId) -> Result<(), AllocError>
        ensures ok { OnOk result (Renumbers self.old.numbers self.new.numbers node n) }
        ensures err { OnErr result ((other : Node) → number_in self.new.numbers other ≡ number_in self.old.numbers other) }
    {
        self.numbers.insert(node, n)?;
        Ok(())
    }
}
