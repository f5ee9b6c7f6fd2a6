//! Nodes that wait for others.

ghost use Rattle.std.specs.Prelude.{◌≡◌, ◌<◌, ◌++◌, [], ◌∷◌, length, replicate, slice_index_or, slice_set, IfOk, OnOk};

use pv_graph::NodeId;
use pv_value::Memory;
use std::alloc::Global;
use std::marker::Model;

/// For each node the nodes that wait for it, seen as the list of these lists.
#[derive(Drop)]
pub(crate) struct Waiting {
    lists: Vec<Vec<NodeId>>,
}

impl Model for Waiting {
    ghost use Rattle.std.specs.Prelude.{List, ℕ, map};

    ghost Value = { List (List ℕ) };

    ghost view = { λ w. map (λ v. v.items) w.lists.items };
}

impl Waiting {
    // None, for each of `count` nodes.
    pub(crate) fn none(alloc: Global, count: u32) -> Result<Waiting, Memory>
        ensures { IfOk result (λ w. w ≡ replicate count []) }
    {
        let mut lists = Vec::new(alloc);
        for _ in 0..count {
            lists.push(Vec::new(alloc))?;
        }
        Ok(Waiting { lists })
    }

    // Puts node n after those that wait for node k.
    pub(crate) fn put(&mut self, k: NodeId, n: NodeId) -> Result<(), Memory>
        requires { k < length self.old }
        ensures { OnOk result (self.new ≡ slice_set self.old k (slice_index_or self.old k [] ++ n ∷ [])) }
    {
        self.lists[k as usize].push(n)?;
        Ok(())
    }

    // Takes those that wait for node k.
    pub(crate) fn take(&mut self, alloc: Global, k: NodeId) -> Vec<NodeId>
        requires { k < length self.old }
        ensures taken { result.items ≡ slice_index_or self.old k [] }
        ensures left { self.new ≡ slice_set self.old k [] }
    {
        std::mem::replace(&mut self.lists[k as usize], Vec::new(alloc))
    }
}
