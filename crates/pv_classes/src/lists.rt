//! A list of nodes for each number.

ghost use Rattle.std.specs.Prelude.{◌≡◌, ◌<◌, ◌++◌, [], ◌∷◌, length, slice_index_or, slice_set, IfOk, OnOk, OnErr};

use pv_graph::NodeId;
use pv_value::Memory;
use std::alloc::Global;
use std::marker::Model;

/// For each number from 0 on a list of nodes, seen as the list of these lists.
#[derive(Drop)]
pub(crate) struct Lists {
    lists: Vec<Vec<NodeId>>,
}

impl Model for Lists {
    ghost use Rattle.std.specs.Prelude.{List, ℕ, map};

    ghost Value = { List (List ℕ) };

    ghost view = { λ l. map (λ v. v.items) l.lists.items };
}

impl Lists {
    // No list.
    pub(crate) fn new(alloc: Global) -> Lists
        ensures { result ≡ [] }
    {
        Lists {
            lists: Vec::new(alloc),
        }
    }

    // How many lists there are.
    pub(crate) fn len(&self) -> usize
        ensures { result ≡ length self.now }
    {
        self.lists.len()
    }

    // One list more, without nodes.
    pub(crate) fn add_list(&mut self, alloc: Global) -> Result<(), Memory>
        ensures ok { OnOk result (self.new ≡ self.old ++ [] ∷ []) }
        ensures err { OnErr result (self.new ≡ self.old) }
    {
        self.lists.push(Vec::new(alloc))?;
        Ok(())
    }

    // The list of number k.
    pub(crate) fn at(&self, k: NodeId) -> &[NodeId]
        requires { k < length self.now }
        ensures { result.now ≡ slice_index_or self.now k [] }
    {
        &self.lists[k as usize]
    }

    // The list of number k: without nodes, where there is none.
    pub(crate) fn get(&self, k: NodeId) -> &[NodeId]
        ensures { result.now ≡ slice_index_or self.now k [] }
    {
        match self.lists.get(k as usize) {
            Some(list) => list,
            None => &[],
        }
    }

    // Puts nodes after those of number k.
    pub(crate) fn extend(&mut self, k: NodeId, nodes: &[NodeId]) -> Result<(), Memory>
        requires { k < length self.old }
        ensures ok { OnOk result (self.new ≡ slice_set self.old k (slice_index_or self.old k [] ++ nodes.now)) }
        ensures err { OnErr result (self.new ≡ self.old) }
    {
        self.lists[k as usize].extend_from_slice(nodes)?;
        Ok(())
    }

    // Puts a node after those of number k.
    pub(crate) fn put(&mut self, k: NodeId, node: NodeId) -> Result<(), Memory>
        requires { k < length self.old }
        ensures ok { OnOk result (self.new ≡ slice_set self.old k (slice_index_or self.old k [] ++ node ∷ [])) }
        ensures err { OnErr result (self.new ≡ self.old) }
    {
        self.lists[k as usize].push(node)?;
        Ok(())
    }

    // Leaves number k without nodes.
    pub(crate) fn clear(&mut self, alloc: Global, k: NodeId)
        requires { k < length self.old }
        ensures { self.new ≡ slice_set self.old k [] }
    {
        self.lists[k as usize] = Vec::new(alloc);
    }

    // Equal lists.
    pub(crate) fn copy(&self, alloc: Global) -> Result<Lists, Memory>
        ensures { IfOk result (λ copy. copy ≡ self.now) }
    {
        let mut lists = Vec::new(alloc);
        for list in &self.lists {
            lists.push(Vec::from_slice(alloc, list)?)?;
        }
        Ok(Lists { lists })
    }
}
