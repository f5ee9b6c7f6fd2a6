//! Which conditions on classes some matches ask.

ghost use Rattle.std.specs.Prelude.{◌≡◌, ◌↔◌, ◌≤◌, ℕ, IsTrue, map};
ghost use Rattle.pv_pattern.specs.Patterns.{settled, not_free};
ghost use Rattle.pv_pattern.specs.Seen.{side_seen};
ghost use Rattle.pv_saturate.specs.Decoding.{decoded_seen};
ghost use Rattle.pv_rounds.specs.Asking.{AsksAt, AsksNotFree, AsksSettled, SomeNotFree, SomeSettled};

use pv_pattern::Side;
use pv_saturate::Decoded;

fn is_settled(side: Side) -> bool
    ensures { IsTrue result ↔ ((j : ℕ) × (side_seen side ≡ settled j)) }
{
    matches!(side, Side::Settled(_))
}

fn is_not_free(side: Side) -> bool
    ensures { IsTrue result ↔ ((j : ℕ) × (side_seen side ≡ not_free j)) }
{
    matches!(side, Side::NotFree(_))
}

// Whether one of the conditions of an axiom is that the class of a variable is settled.
fn asks_settled(sides: &[Side]) -> bool
    ensures { IsTrue result ↔ AsksSettled (map side_seen sides.now) }
{
    for side in sides {
        if is_settled(*side) {
            return true;
        }
    }
    false
}

// Whether one of them is that the depth isn't free in the class of a variable.
fn asks_not_free(sides: &[Side]) -> bool
    ensures { IsTrue result ↔ AsksNotFree (map side_seen sides.now) }
{
    for side in sides {
        if is_not_free(*side) {
            return true;
        }
    }
    false
}

// Whether one of these matches asks for a settled class.
pub(crate) fn some_settled(list: &[Decoded]) -> bool
    ensures { IsTrue result ↔ SomeSettled (map decoded_seen list.now) }
{
    for m in list {
        if asks_settled(&m.entry.sides) {
            return true;
        }
    }
    false
}

// Whether a match asks for a class in which this depth isn't free.
fn is_at(m: &Decoded, depth: u32) -> bool
    ensures { IsTrue result ↔ AsksAt (decoded_seen m.now) depth }
{
    asks_not_free(&m.entry.sides) && m.params.depth == depth
}

// Whether one of these matches asks for a class in which this depth isn't free.
pub(crate) fn some_not_free(list: &[Decoded], depth: u32) -> bool
    ensures { IsTrue result ↔ SomeNotFree (map decoded_seen list.now) depth }
{
    for m in list {
        if is_at(m, depth) {
            return true;
        }
    }
    false
}

// The greater of two numbers.
fn greater(a: u32, b: u32) -> u32
    ensures first { a ≤ result }
    ensures second { b ≤ result }
{
    if a < b { b } else { a }
}

// The greatest depth of a match, or 0 where there is none.
pub(crate) fn deepest(list: &[Decoded]) -> u32
    ensures { (d : ℕ) → SomeNotFree (map decoded_seen list.now) d → d ≤ result }
{
    let mut most = 0;
    for m in list {
        most = greater(most, m.params.depth);
    }
    most
}
