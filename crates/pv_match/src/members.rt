//! The members of classes that are kept, by the numbers of their operations.

ghost use Rattle.std.specs.Prelude.{◌≡◌, ◌<◌, IfOk, MatchOption, OnOk, length, vec_len};
ghost use Rattle.pv_graph.specs.Graphs.{IsGraph};
ghost use Rattle.pv_marks.specs.Marks.{AreClasses};
ghost use Rattle.pv_match.specs.Bindings.{IsMembers, members_of, with_number};
ghost use Rattle.pv_match.specs.Grouping.{Gains, HasNoGroup, IsGroupAt, IsNoMember};
ghost use Rattle.pv_match.specs.Kept.{KeepsForms};

use crate::kept::is_kept;
use pv_graph::{Graph, NodeId};
use pv_pattern::op_number;
use pv_value::Memory;
use std::alloc::{AllocError, Global};

// Things that have operations with one number: the nodes of a class, or the axioms of a table, by their places.
#[derive(Drop)]
pub(crate) struct Group {
    pub(crate) number: u32,
    pub(crate) members: Vec<u32>,
}

// For each class its nodes that are kept, in groups by the numbers of their operations.
#[derive(Drop)]
pub(crate) struct Members {
    pub(crate) groups: Vec<Vec<Group>>,
}

// The members of the group with a number.
pub(crate) fn with_number(groups: &[Group], number: u32) -> &[u32]
    ensures { result.now ≡ with_number groups.now number }
{
    for group in groups {
        if group.number == number {
            return &group.members;
        }
    }
    &[]
}

// The place of the group with a number.
fn place_of(groups: &[Group], number: u32) -> Option<usize>
    ensures { MatchOption result (HasNoGroup groups.now number) (λ i. IsGroupAt groups.now number i) }
{
    for (i, group) in groups.iter().enumerate() {
        if group.number == number {
            return Some(i);
        }
    }
    None
}

// Adds a member to the group with a number.
pub(crate) fn put(
    alloc: Global,
    groups: &mut Vec<Group>,
    number: u32,
    n: u32,
) -> Result<(), AllocError>
    ensures { OnOk result (Gains groups.old.items groups.new.items number n) }
{
    match place_of(groups, number) {
        Some(i) => groups[i].members.push(n)?,
        None => {
            let mut members = Vec::new(alloc);
            members.push(n)?;
            groups.push(Group { number, members })?;
        }
    }
    Ok(())
}

// No groups, for each class.
fn no_groups(alloc: Global, len: u32) -> Result<Vec<Vec<Group>>, AllocError>
    ensures len { IfOk result (λ lists. vec_len lists ≡ len) }
    ensures none { IfOk result (λ lists. IsNoMember lists.items) }
{
    let mut lists = Vec::new(alloc);
    for _ in 0..len {
        lists.push(Vec::new(alloc))?;
    }
    Ok(lists)
}

impl Members {
    // The members of the classes of a graph's nodes, as far as they are kept.
    pub(crate) fn new(
        alloc: Global,
        graph: &Graph,
        numbers: &[NodeId],
        kept: &[bool],
    ) -> Result<Members, Memory>
        requires classes { AreClasses graph.now numbers.now }
        requires kept { KeepsForms graph.now numbers.now kept.now }
        ensures members { IfOk result (λ m. IsMembers graph.now numbers.now m.groups.items) }
        ensures graph { IsGraph graph.now }
    {
        let mut groups = no_groups(alloc, graph.len())?;
        for n in 0..graph.len() {
            if is_kept(kept, n) {
                let number = op_number(&graph.node(n).op);
                put(alloc, &mut groups[numbers[n as usize] as usize], number, n)?;
            }
        }
        Ok(Members { groups })
    }

    // The nodes of a class that are kept and whose operation has this number.
    pub(crate) fn with(&self, class: u32, number: u32) -> &[NodeId]
        ensures { result.now ≡ members_of self.now.groups.items class number }
    {
        match self.groups.get(class as usize) {
            Some(groups) => with_number(groups, number),
            None => &[],
        }
    }
}
