//! Nodes by their keys.

ghost use Rattle.std.specs.Prelude.{◌≡◌, [], OnOk};
ghost use Rattle.pv_classes.specs.Index.{found_in, Enters};

use pv_graph::{Node, NodeId};
use pv_value::Memory;
use std::alloc::Global;
use std::collections::HashMap;
use std::marker::Model;

/// A node for some keys, seen as the list of these pairs. A key is itself written as a node.
#[derive(Drop)]
pub(crate) struct Table {
    numbers: HashMap<Node, NodeId>,
}

impl Model for Table {
    ghost use Rattle.std.specs.Prelude.{List, ℕ};
    ghost use Rattle.pv_graph.specs.declared.node.Node.{Node};

    ghost Value = { List (Node × ℕ) };

    ghost view = { λ t. t.numbers.entries };
}

impl Table {
    // No key.
    pub(crate) fn new(alloc: Global) -> Table
        ensures { result ≡ [] }
    {
        Table {
            numbers: HashMap::new(alloc),
        }
    }

    // The node for a key.
    pub(crate) fn get(&self, node: &Node) -> Option<NodeId>
        ensures { result ≡ found_in self.now node.now }
    {
        self.numbers.get(node).copied()
    }

    // Puts node n under a key.
    pub(crate) fn insert(&mut self, node: Node, n: NodeId) -> Result<(), Memory>
        ensures { OnOk result (Enters self.old self.new node n) }
    {
        self.numbers.insert(node, n)?;
        Ok(())
    }
}
