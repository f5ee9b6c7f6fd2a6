//! The nodes of a loop, found from its header.

ghost use Rattle.std.specs.Prelude.{◌≡◌, ◌≢◌, ◌<◌, ℕ, Some, None, IfOk, OnOk, length, slice_index_or};
ghost use Rattle.std.specs.List.{All};
ghost use Rattle.pv_loops.specs.Shapes.{IsShape};
ghost use Rattle.pv_loops.specs.Bodies.{IsOrder, AreBody};
ghost use Rattle.pv_loops.specs.Nests.{IsMarked, KeepsHomes, AddsMembers};

use crate::lists::Lists;
use crate::order::Order;
use std::alloc::{AllocError, Global};

/// The body of the header `h`: the nodes from which an edge back to it is reached without passing it.
/// Each gets the home `i`, which no node has yet.
pub fn body(
    alloc: Global,
    sources: &Lists,
    order: &Order,
    home: &mut [Option<u32>],
    h: u32,
    i: u32,
) -> Result<Vec<u32>, AllocError>
    requires shape { IsShape sources.now }
    requires order { IsOrder sources.now order.now.nodes.items order.now.place.items }
    requires homes { length home.old ≡ length sources.now }
    requires header { h < length sources.now }
    requires unused { (x : ℕ) → slice_index_or home.old x None ≢ Some i }
    ensures body { IfOk result (λ members. AreBody sources.now order.now.place.items h members.items) }
    ensures marked { IfOk result (λ members. IsMarked i home.new members.items) }
    ensures kept { OnOk result (KeepsHomes i home.old home.new) }
{
    let mut members = Vec::new(alloc);
    home[h as usize] = Some(i);
    members.push(h)?;
    let mut next = 0;
    while next < members.len() {
        let sources = sources.get(members[next]);
        add_members(home, &mut members, &order.place, sources, h, i)?;
        next += 1;
    }
    Ok(members)
}

// Adds those of these nodes that aren't before `h` in the order.
fn add_members(
    home: &mut [Option<u32>],
    members: &mut Vec<u32>,
    place: &[usize],
    nodes: &[u32],
    h: u32,
    i: u32,
) -> Result<(), AllocError>
    requires header { h < length place.now }
    requires nodes { All (λ x. x < length place.now) nodes.now }
    requires homes { length home.old ≡ length place.now }
    requires marked { IsMarked i home.old members.old.items }
    ensures added { OnOk result (AddsMembers place.now h nodes.now members.old.items members.new.items) }
    ensures marked { OnOk result (IsMarked i home.new members.new.items) }
    ensures kept { OnOk result (KeepsHomes i home.old home.new) }
{
    for x in nodes {
        if place[h as usize] <= place[*x as usize] && home[*x as usize] != Some(i) {
            home[*x as usize] = Some(i);
            members.push(*x)?;
        }
    }
    Ok(())
}
