//! Matches that are gathered in sets and put together, up to a limit.

ghost use Rattle.std.specs.Prelude.{◌≡◌, ◌≤◌, ℕ, List, length, suc, IfOk};
ghost use Rattle.std.specs.Bool.{OnFalse, OnTrue};
ghost use Rattle.std.specs.List.Sorted.{IsStrictlySortedBy};
ghost use Rattle.pv_graph.specs.Graphs.{Graph};
ghost use Rattle.pv_pattern.specs.Patterns.{Axiom};
ghost use Rattle.pv_pieces.specs.Cut.{joined};
ghost use Rattle.pv_match.specs.Orders.{match_cmp};
ghost use Rattle.pv_match.specs.Gathering.{AreFrom, AreParts, Finds, FindsAll, GathersAll, GathersSome, IsListing};
ghost use Rattle.pv_match.specs.Reading.{AreReadable};
ghost use Rattle.pv_match.specs.Rematching.{CanTakeOver};

use crate::found::{Match, Matches};
use crate::gathered::Gathered;
use crate::merge::merge_ordered;
use crate::renumbered::renumbered_in_order;
use pv_graph::NodeId;
use pv_value::Memory;
use std::alloc::Global;
use std::collections::BTreeSet;

// Puts matches into a set, and says whether it has more than `limit` then. It stops as soon as it has.
pub(crate) fn gather(
    set: &mut BTreeSet<Match>,
    more: Vec<Match>,
    limit: usize,
) -> Result<bool, Memory>
    requires { length set.old.keys ≤ limit }
    ensures over { IfOk result (λ over. OnTrue over ((length set.new.keys ≡ suc limit) × GathersSome set.old.keys more.items set.new.keys)) }
    ensures all { IfOk result (λ over. OnFalse over ((length set.new.keys ≤ limit) × GathersAll set.old.keys more.items set.new.keys)) }
{
    let mut rest = more;
    while let Some(x) = rest.pop() {
        set.insert(x)?;
        if set.len() > limit {
            return Ok(true);
        }
    }
    Ok(false)
}

// Two ordered lists in one, up to one more match than `limit`.
fn unite(
    alloc: Global,
    first: Vec<Match>,
    second: Vec<Match>,
    limit: usize,
) -> Result<Gathered, Memory>
    requires first { IsStrictlySortedBy match_cmp first.items }
    requires second { IsStrictlySortedBy match_cmp second.items }
    ensures over { IfOk result (λ got. OnTrue got.is_over ((length got.list.items ≡ suc limit) × AreFrom first.items second.items got.list.items)) }
    ensures all { IfOk result (λ got. OnFalse got.is_over ((length got.list.items ≤ limit) × GathersAll first.items second.items got.list.items)) }
{
    let list = merge_ordered(alloc, first, second, limit)?;
    let is_over = list.len() > limit;
    Ok(Gathered { list, is_over })
}

// Puts together what the pieces gathered, in their order. It stops as soon as that is more than `limit`.
pub(crate) fn put_together(
    alloc: Global,
    parts: Vec<Result<Gathered, Memory>>,
    limit: usize,
) -> Result<Gathered, Memory>
    ensures found { IfOk result (λ got. (g : Graph) (numbers assumed : List ℕ) (table : List Axiom) (items : ℕ → List ℕ) → AreReadable table → AreParts g numbers assumed table limit items parts.items → Finds g numbers assumed table limit (joined items (length parts.items)) got.is_over got.list.items) }
    ensures few { IfOk result (λ got. OnFalse got.is_over (length got.list.items ≤ limit)) }
{
    let mut list = Vec::new(alloc);
    for part in parts {
        let part = part?;
        if part.is_over {
            return Ok(part);
        }
        let all = unite(alloc, list, part.list, limit)?;
        if all.is_over {
            return Ok(all);
        }
        list = all.list;
    }
    Ok(Gathered {
        list,
        is_over: false,
    })
}

// Puts known matches beside those that were gathered, with the class of now for each of their classes. It stops as soon as there are more
// than `limit`.
pub(crate) fn beside_known(
    alloc: Global,
    numbers: &[NodeId],
    got: Gathered,
    known: &[Match],
    limit: usize,
) -> Result<Gathered, Memory>
    requires few { OnFalse got.is_over (length got.list.items ≤ limit) }
    ensures found { IfOk result (λ all. (g : Graph) (assumed : List ℕ) (table : List Axiom) (items : List ℕ) → AreReadable table → CanTakeOver g numbers.now assumed table known.now items → Finds g numbers.now assumed table limit items got.is_over got.list.items → FindsAll g numbers.now assumed table limit all.is_over all.list.items) }
    ensures few { IfOk result (λ all. OnFalse all.is_over (length all.list.items ≤ limit)) }
{
    if got.is_over {
        return Ok(got);
    }
    let more = renumbered_in_order(alloc, numbers, known)?;
    let all = unite(alloc, got.list, more, limit)?;
    Ok(all)
}

// The matches that were gathered, in order, or how many there are where they are too many.
pub(crate) fn in_order(got: Gathered) -> Matches
    ensures { IsListing got result }
{
    if got.is_over {
        return Matches::More(got.list.len());
    }
    Matches::All(got.list)
}
