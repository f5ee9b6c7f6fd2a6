//! Groups of nodes, each with a leader.

use crate::lists::Lists;
use std::alloc::{AllocError, Global};

/// Groups of nodes: for each node its leader and its place in the list of its group, and for each
/// leader that list.
#[derive(Debug, Drop)]
pub struct Groups {
    leader: Vec<u32>,
    place: Vec<usize>,
    members: Lists,
}

impl Groups {
    ghost use Rattle.std.specs.Prelude.{◌≡◌, ◌≢◌, ℕ, ◌<◌, ◌+◌, ◌^◌, length, slice_index, IfOk, OnOk};
    ghost use Rattle.pv_loops.specs.Groups.{leader_of, place_of, group_of, Leads, AreGroups, Relabels, Merges};

    /// Each of `count` nodes in a group of its own.
    pub fn single(alloc: Global, count: u32) -> Result<Groups, AllocError>
        ensures groups { IfOk result AreGroups }
        ensures size { IfOk result (λ g. length g.leader.items ≡ count) }
        ensures leaders { IfOk result (λ g. (x : ℕ) → x < count → leader_of g x ≡ x) }
    {
        let mut groups = Groups {
            leader: Vec::new(alloc),
            place: Vec::new(alloc),
            members: Lists::empty(alloc, count as usize)?,
        };
        for n in 0..count {
            groups.leader.push(n)?;
            groups.place.push(0)?;
            groups.members.push(n, n)?;
        }
        Ok(groups)
    }

    /// The leader of a node.
    pub fn leader(&self, n: u32) -> u32
        requires { n < length self.now.leader.items }
        ensures { result ≡ leader_of self.now n }
    {
        self.leader[n as usize]
    }

    /// The group of the entry, and the places of all nodes.
    pub fn into_order(self, alloc: Global) -> (Vec<u32>, Vec<usize>)
        requires groups { AreGroups self }
        requires some { 0 < length self.leader.items }
        ensures nodes { result.0.items ≡ group_of self 0 }
        ensures place { result.1.items ≡ self.place.items }
    {
        let Groups {
            leader: _,
            place,
            mut members,
        } = self;
        let nodes = members.take(alloc, 0);
        (nodes, place)
    }

    /// Puts the group of the leader `n` after the group of the leader `p`.
    pub fn merge(&mut self, alloc: Global, n: u32, p: u32) -> Result<(), AllocError>
        requires groups { AreGroups self.old }
        requires merged { Leads self.old n }
        requires into { Leads self.old p }
        requires other { n ≢ p }
        ensures { OnOk result (Merges self.old self.new n p) }
    {
        let moved = self.members.take(alloc, n);
        let from = self.members.get(p).len();
        self.members.append(p, &moved)?;
        let to = self.members.get(p).len();
        prove!(to - from == moved.len());
        self.relabel(&moved, p, from);
        Ok(())
    }

    // Gives these nodes this leader, and places from this one on.
    fn relabel(&mut self, moved: &[u32], p: u32, from: usize)
        requires nodes { (k : ℕ) → k < length moved.now → slice_index moved.now k < length self.old.leader.items }
        requires places { length self.old.place.items ≡ length self.old.leader.items }
        requires distinct { (j k : ℕ) → j < k → k < length moved.now → slice_index moved.now j ≢ slice_index moved.now k }
        requires fits { from + length moved.now < 2 ^ 64 }
        ensures { Relabels self.old self.new moved.now (length moved.now) p from }
    {
        for (k, x) in moved.iter().enumerate() {
            self.leader[*x as usize] = p;
            self.place[*x as usize] = from + k;
        }
    }
}
