//! Known matches, with the class of now for each of their classes.

ghost use Rattle.std.specs.Prelude.{◌≡◌, IfOk, map};
ghost use Rattle.std.specs.List.Sorted.{IsStrictlySortedBy};
ghost use Rattle.pv_marks.specs.Classes.{class_of};
ghost use Rattle.pv_match.specs.Orders.{match_cmp};
ghost use Rattle.pv_match.specs.Rematching.{AreRenumbered, IsRenumbered};

use crate::found::Match;
use crate::merge::sort_once;
use pv_graph::NodeId;
use pv_value::Memory;
use std::alloc::{AllocError, Global};

// The class of a node.
fn class_now(numbers: &[NodeId], n: NodeId) -> u32
    ensures { result ≡ class_of numbers.now n }
{
    match numbers.get(n as usize) {
        Some(class) => *class,
        None => 0,
    }
}

// The classes of nodes, one for each.
fn classes_now(alloc: Global, numbers: &[NodeId], nodes: &[NodeId]) -> Result<Vec<u32>, AllocError>
    ensures { IfOk result (λ classes. classes.items ≡ map (class_of numbers.now) nodes.now) }
{
    let mut classes = Vec::new(alloc);
    for n in nodes {
        classes.push(class_now(numbers, *n))?;
    }
    Ok(classes)
}

// A known match, with the class of now for each of its classes.
fn one_renumbered(alloc: Global, numbers: &[NodeId], known: &Match) -> Result<Match, Memory>
    ensures { IfOk result (λ x. IsRenumbered numbers.now known.now x) }
{
    let mut x = known.copy(alloc)?;
    x.classes = classes_now(alloc, numbers, &known.classes)?;
    Ok(x)
}

// Known matches, each with the class of now for each of its classes.
fn renumbered(alloc: Global, numbers: &[NodeId], known: &[Match]) -> Result<Vec<Match>, Memory>
    ensures { IfOk result (λ list. AreRenumbered numbers.now known.now list.items) }
{
    let mut list = Vec::new(alloc);
    for x in known {
        let one = one_renumbered(alloc, numbers, x)?;
        list.push(one)?;
    }
    Ok(list)
}

// Known matches, so, in order and each once.
pub(crate) fn renumbered_in_order(
    alloc: Global,
    numbers: &[NodeId],
    known: &[Match],
) -> Result<Vec<Match>, Memory>
    ensures renumbered { IfOk result (λ list. AreRenumbered numbers.now known.now list.items) }
    ensures ordered { IfOk result (λ list. IsStrictlySortedBy match_cmp list.items) }
{
    let mut list = renumbered(alloc, numbers, known)?;
    sort_once(&mut list)?;
    Ok(list)
}
