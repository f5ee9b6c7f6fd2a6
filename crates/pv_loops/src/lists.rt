//! A list of numbers for each node.

ghost use Rattle.std.specs.Prelude.{◌≡◌, ◌<◌, ◌++◌, [], ◌∷◌, length, map, replicate, slice_index_or, slice_set, IfOk, OnOk};

use std::alloc::{AllocError, Global};
use std::marker::Model;

/// A list of numbers for each node, seen as the list of these lists.
#[derive(Debug, Drop)]
pub struct Lists {
    lists: Vec<Vec<u32>>,
}

impl Model for Lists {
    ghost use Rattle.std.specs.Prelude.{List, ℕ, map};

    ghost Value = { List (List ℕ) };

    ghost view = { λ l. map (λ v. v.items) l.lists.items };
}

impl Lists {
    /// These lists.
    pub fn new(lists: Vec<Vec<u32>>) -> Lists
        ensures { result ≡ map (λ v. v.items) lists.items }
    {
        Lists { lists }
    }

    /// An empty list for each of `count` nodes.
    pub fn empty(alloc: Global, count: usize) -> Result<Lists, AllocError>
        ensures { IfOk result (λ l. l ≡ replicate count []) }
    {
        let mut lists = Vec::new(alloc);
        for _ in 0..count {
            lists.push(Vec::new(alloc))?;
        }
        Ok(Lists { lists })
    }

    /// How many lists there are.
    pub fn len(&self) -> usize
        ensures { result ≡ length self.now }
    {
        self.lists.len()
    }

    /// The list of a node.
    pub fn get(&self, n: u32) -> &[u32]
        requires { n < length self.now }
        ensures { result.now ≡ slice_index_or self.now n [] }
    {
        self.lists[n as usize].as_slice()
    }

    /// Puts a number after the others of a node.
    pub fn push(&mut self, n: u32, x: u32) -> Result<(), AllocError>
        requires { n < length self.old }
        ensures { OnOk result (self.new ≡ slice_set self.old n (slice_index_or self.old n [] ++ x ∷ [])) }
    {
        self.lists[n as usize].push(x)?;
        Ok(())
    }

    /// Puts numbers after the others of a node.
    pub fn append(&mut self, n: u32, xs: &[u32]) -> Result<(), AllocError>
        requires { n < length self.old }
        ensures { OnOk result (self.new ≡ slice_set self.old n (slice_index_or self.old n [] ++ xs.now)) }
    {
        self.lists[n as usize].extend_from_slice(xs)?;
        Ok(())
    }

    /// Takes the list of a node, and leaves an empty one.
    pub fn take(&mut self, alloc: Global, n: u32) -> Vec<u32>
        requires { n < length self.old }
        ensures taken { result.items ≡ slice_index_or self.old n [] }
        ensures left { self.new ≡ slice_set self.old n [] }
    {
        std::mem::replace(&mut self.lists[n as usize], Vec::new(alloc))
    }
}
