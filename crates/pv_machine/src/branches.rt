//! Tests of branches, and targets of switches.

ghost use Rattle.std.specs.Prelude.{◌≡◌, Some, pos};
ghost use Rattle.pv_machine.specs.Machine.{compares, tested, target_of};

use pv_frame::{Comparison, Test};
use pv_insn::Case;
use pv_value::Num;

// How two ints compare.
fn compares(c: Comparison, a: i32, b: i32) -> bool
    ensures { result ≡ compares c a b }
{
    match c {
        Comparison::Eq => a == b,
        Comparison::Ne => a != b,
        Comparison::Lt => a < b,
        Comparison::Ge => a >= b,
        Comparison::Gt => a > b,
        Comparison::Le => a <= b,
    }
}

/// What a test finds of its operands.
pub(crate) fn tested(test: Test, operands: &[Num]) -> Option<bool>
    ensures { result ≡ tested test operands.now }
{
    match (test, operands) {
        (Test::Zero(c), [Num::Int(a)]) => Some(compares(c, *a, 0)),
        (Test::Ints(c), [Num::Int(a), Num::Int(b)]) => Some(compares(c, *a, *b)),
        (Test::Same, [Num::Ref(a), Num::Ref(b)]) => Some(a == b),
        (Test::Other, [Num::Ref(a), Num::Ref(b)]) => Some(a != b),
        (Test::Null, [Num::Ref(a)]) => Some(*a == 0),
        (Test::NonNull, [Num::Ref(a)]) => Some(*a != 0),
        _ => None,
    }
}

/// The target of the case with a key, or else the default.
pub(crate) fn target_of(default: u32, cases: &[Case], n: i32) -> u32
    ensures { result ≡ target_of default cases.now n }
{
    for c in cases {
        if c.key == n {
            return c.target;
        }
    }
    default
}
