//! Nodes in an order, none twice.

ghost use Rattle.std.specs.Prelude.{◌≡◌, ◌↔◌, ◌<◌, ◌^◌, [], length, slice_get, Some, IsTrue, IfOk};
ghost use Rattle.std.specs.List.{Contains};
ghost use Rattle.pv_alike.specs.Visits.{Visited};

use indexmap::IndexSet;
use pv_graph::NodeId;
use pv_value::Memory;
use std::alloc::Global;
use std::marker::Model;

/// Nodes in an order, none twice, seen as their list.
#[derive(Drop)]
pub(crate) struct Order {
    nodes: IndexSet<NodeId>,
}

impl Model for Order {
    ghost use Rattle.std.specs.Prelude.{List, ℕ};

    ghost Value = { List ℕ };

    ghost view = { λ o. o.nodes.keys };
}

impl Order {
    // No node.
    pub(crate) fn new(alloc: Global) -> Order
        ensures { result ≡ [] }
    {
        Order {
            nodes: IndexSet::new(alloc),
        }
    }

    // Puts a node after the others where it is new, and says whether it is.
    pub(crate) fn visit(&mut self, n: NodeId) -> Result<bool, Memory>
        ensures { IfOk result (λ is_new. Visited self.old self.new n is_new) }
    {
        Ok(self.nodes.insert(n)?)
    }

    // Whether a node is there.
    pub(crate) fn has(&self, n: NodeId) -> bool
        ensures { IsTrue result ↔ Contains self.now n }
    {
        self.nodes.contains(&n)
    }

    // The node at a place.
    pub(crate) fn get(&self, place: usize) -> Option<NodeId>
        ensures { result ≡ slice_get self.now place }
    {
        self.nodes.get_index(place).copied()
    }

    // The place of a node.
    pub(crate) fn place(&self, n: NodeId) -> NodeId
        requires there { Contains self.now n }
        requires small { length self.now < 2 ^ 32 }
        ensures { slice_get self.now result ≡ Some n }
    {
        self.nodes.get_index_of(&n).unwrap() as NodeId
    }

    // The nodes in order.
    pub(crate) fn as_slice(&self) -> &[NodeId]
        ensures { result.now ≡ self.now }
    {
        self.nodes.as_slice()
    }
}
