//! Matches that were gathered, in order.

ghost use Rattle.std.specs.Prelude.{◌≡◌, IfOk};
ghost use Rattle.std.specs.List.Sorted.{IsStrictlySortedBy, IsStrictlySortedBy-prop};
ghost use Rattle.pv_match.specs.Orders.{match_cmp};

use crate::found::Match;
use pv_value::Memory;
use std::alloc::Global;
use std::collections::BTreeSet;

// The matches that were gathered, each once and in order, and whether they are more than the limit. Then not all may have been gathered.
#[derive(Drop)]
pub(crate) struct Gathered {
    pub(crate) list: Vec<Match>,
    pub(crate) is_over: bool,
    ghost ordered: { IsStrictlySortedBy match_cmp list.items } by { IsStrictlySortedBy-prop match_cmp list.items },
}

impl Gathered {
    // The matches of a set.
    pub(crate) fn from_set(
        alloc: Global,
        set: BTreeSet<Match>,
        is_over: bool,
    ) -> Result<Gathered, Memory>
        ensures list { IfOk result (λ got. got.list.items ≡ set.keys) }
        ensures over { IfOk result (λ got. got.is_over ≡ is_over) }
    {
        let list = listed(alloc, set)?;
        Ok(Gathered { list, is_over })
    }
}

// The matches of a set, in order.
fn listed(alloc: Global, set: BTreeSet<Match>) -> Result<Vec<Match>, Memory>
    ensures items { IfOk result (λ list. list.items ≡ set.keys) }
    ensures ordered { IfOk result (λ list. IsStrictlySortedBy match_cmp list.items) }
{
    let mut rest = set;
    let mut list = Vec::with_capacity(alloc, rest.len())?;
    while let Some(x) = rest.pop_first() {
        list.push(x)?;
    }
    Ok(list)
}
