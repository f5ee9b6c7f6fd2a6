//! Keys, with their numbers.

ghost use Rattle.std.specs.Prelude.{◌≡◌, ◌<◌, ◌^◌, [], length, IfOk};
ghost use Rattle.pv_alike.specs.Keys.{Keyed};

use indexmap::IndexSet;
use pv_graph::{Node, NodeId};
use pv_value::Memory;
use std::alloc::Global;
use std::marker::Model;

/// Keys in the order in which they were met first, each with its place there as its number; seen as
/// their list.
#[derive(Drop)]
pub(crate) struct Keys {
    nodes: IndexSet<Node>,
}

impl Model for Keys {
    ghost use Rattle.std.specs.Prelude.{List};
    ghost use Rattle.pv_graph.specs.declared.node.Node.{Node};

    ghost Value = { List Node };

    ghost view = { λ k. k.nodes.keys };
}

impl Keys {
    // No key.
    pub(crate) fn new(alloc: Global) -> Keys
        ensures { result ≡ [] }
    {
        Keys {
            nodes: IndexSet::new(alloc),
        }
    }

    // The number of a key, which is put after the others where it is new.
    pub(crate) fn number(&mut self, key: Node) -> Result<NodeId, Memory>
        requires { length self.old < 2 ^ 32 }
        ensures { IfOk result (λ n. Keyed self.old self.new key n) }
    {
        let (n, _) = self.nodes.insert_full(key)?;
        Ok(n as NodeId)
    }

    // How many keys there are.
    pub(crate) fn len(&self) -> usize
        ensures { result ≡ length self.now }
    {
        self.nodes.len()
    }
}
