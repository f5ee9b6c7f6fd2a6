//! How far down the left sides of a table look.

ghost use Rattle.std.specs.Prelude.{◌≡◌, ◌↔◌, IfSome, IsTrue, map};
ghost use Rattle.pv_pattern.specs.Seen.{axiom_seen, listed, seen};
ghost use Rattle.pv_touched.specs.Looks.{TableWithin, all_within, looks_within, parts_within};

use pv_pattern::{Axiom, Each, Pattern};

// Left sides that look further down are none that a search goes by: then all nodes are touched.
const MOST_STEPS: u32 = 16;

// Whether a pattern looks at most so many steps to kids below its class, where it is one that a search reads.
#[cycle(within)]
fn looks_within(pattern: &Pattern, steps: u32) -> bool
    ensures { result ≡ looks_within steps (seen pattern.now) }
{
    match pattern {
        Pattern::Var(_) | Pattern::Constant(_) => true,
        Pattern::Over(_, patterns) => steps > 0 && all_within(patterns, steps - 1),
        Pattern::OverEach(_, Each::Bare) => steps > 0,
        _ => false,
    }
}

// Whether each of these patterns does.
#[cycle(within)]
fn all_within(patterns: &[Pattern], steps: u32) -> bool
    ensures { result ≡ all_within steps (listed (map seen patterns.now)) }
{
    for pattern in patterns {
        if !looks_within(pattern, steps) {
            return false;
        }
    }
    true
}

// Whether the parts of a left side do.
fn parts_within(left: &Pattern, steps: u32) -> bool
    ensures { result ≡ parts_within steps (seen left.now) }
{
    match left {
        Pattern::Over(_, patterns) => all_within(patterns, steps),
        _ => false,
    }
}

// Whether the parts of all left sides do.
fn table_within(table: &[Axiom], steps: u32) -> bool
    ensures { IsTrue result ↔ TableWithin steps (map axiom_seen table.now) }
{
    for rule in table {
        if !parts_within(&rule.left, steps) {
            return false;
        }
    }
    true
}

// The least number of steps to kids that the parts of all left sides look down.
pub(crate) fn steps_of(table: &[Axiom]) -> Option<u32>
    ensures { IfSome result (λ steps. TableWithin steps (map axiom_seen table.now)) }
{
    for steps in 0..MOST_STEPS {
        if table_within(table, steps) {
            return Some(steps);
        }
    }
    None
}
