//! Nodes without repetitions, with their numbers.

ghost use Rattle.std.specs.Prelude.{◌≡◌, ◌<◌, ◌^◌, [], length, IfOk};
ghost use Rattle.pv_alike.specs.Keys.{Keyed};

use indexmap::IndexSet;
use pv_graph::{Node, NodeId};
use pv_value::Memory;
use std::alloc::Global;
use std::marker::Model;

/// Nodes in the order in which they were met first, each with its place there as its number; seen as
/// their list.
#[derive(Drop)]
pub(crate) struct Keys {
    nodes: IndexSet<Node>,
}

impl Model for Keys {
    ghost use Rattle.std.specs.Prelude.{List};
    ghost use Rattle.pv_graph.specs.declared.node.Node.{Node};

    ghost Value = { List Node };

    ghost view = { λ k. k.nodes.keys };
}

impl Keys {
    // No node.
    pub(crate) fn new(alloc: Global) -> Keys
        ensures { result ≡ [] }
    {
        Keys {
            nodes: IndexSet::new(alloc),
        }
    }

    // The number of a node, which is put after the others where it is new.
    pub(crate) fn number(&mut self, node: Node) -> Result<NodeId, Memory>
        requires { length self.old < 2 ^ 32 }
        ensures { IfOk result (λ n. Keyed self.old self.new node n) }
    {
        let (n, _) = self.nodes.insert_full(node)?;
        Ok(n as NodeId)
    }

    // The nodes in order.
    pub(crate) fn as_slice(&self) -> &[Node]
        ensures { result.now ≡ self.now }
    {
        self.nodes.as_slice()
    }
}
