//! The matches of a list that aren't known from the last round, which joined the sides of each of its matches.

ghost use Rattle.std.specs.Prelude.{IfOk, map};
ghost use Rattle.std.specs.Bool.{OnTrue};
ghost use Rattle.pv_axioms.specs.Entries.{NumbersOnce};
ghost use Rattle.pv_match.specs.Reading.{AreReadable};
ghost use Rattle.pv_pattern.specs.Seen.{axiom_seen};
ghost use Rattle.pv_saturate.specs.Decoding.{decoded_seen};
ghost use Rattle.pv_rounds.specs.Decoded.{AreReady, AreShown};
ghost use Rattle.pv_rounds.specs.Known.{IsKnown, LeavesKnown};

use crate::decoded::decode_one;
use pv_match::Match;
use pv_pattern::Axiom;
use pv_saturate::Decoded;
use pv_value::Memory;
use std::alloc::Global;
use std::cmp::Ordering;

// The first place, from one on, at which a match doesn't come before another one.
fn place_from(known: &[Match], from: usize, found: &Match) -> usize {
    for place in from..known.len() {
        if known[place].cmp(found) != Ordering::Less {
            return place;
        }
    }
    known.len()
}

// Whether the match at a place is this one.
fn is_at(known: &[Match], place: usize, found: &Match) -> bool
    ensures { OnTrue result (IsKnown known.now found.now) }
{
    match known.get(place) {
        Some(x) => x.cmp(found) == Ordering::Equal,
        None => false,
    }
}

/// The matches of a list, decoded, but for those that are known. Where both lists are in order it leaves out all that are in both: it goes along the two
/// once. Where they aren't, it leaves out known ones alone, but perhaps not all.
pub(crate) fn new_matches<'a>(
    alloc: Global,
    table: &'a [Axiom],
    known: &[Match],
    list: &'a [Match],
) -> Result<Vec<Decoded<'a>>, Memory>
    requires readable { AreReadable (map axiom_seen table.now) }
    requires once { NumbersOnce (map axiom_seen table.now) }
    requires shown { AreShown (map axiom_seen table.now) list.now }
    ensures ready { IfOk result (λ new. AreReady new.items) }
    ensures leaves { IfOk result (λ new. LeavesKnown (map axiom_seen table.now) known.now list.now (map decoded_seen new.items)) }
{
    let mut new = Vec::new(alloc);
    let mut place = 0;
    for found in list {
        place = place_from(known, place, found);
        if !is_at(known, place, found) {
            let one = decode_one(alloc, table, found)?;
            new.push(one)?;
        }
    }
    Ok(new)
}
