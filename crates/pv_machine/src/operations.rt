//! Operations on the operand stack's numbers.

ghost use Rattle.std.specs.Prelude.{◌≡◌, [], ◌∷◌, map, IfSome};
ghost use Rattle.pv_value.specs.Operations as operation;
ghost use Rattle.pv_frame.specs.Effects.{sort_of, sort_of_word};
ghost use Rattle.pv_machine.specs.Machine.{State, value_of, computed, divided};
ghost use Rattle.pv_machine.specs.Doing.{IsNumber, led, Leads, KeepsHeap};

use crate::effect::Effect;
use pv_frame::{Sort, value_sort};
use pv_value::{Fault, Num, ScalarOp, scalar};

// Whether the value of an operation is a long.
fn gives_long(op: ScalarOp) -> bool
    ensures { result ≡ operation.gives_long op }
{
    matches!(value_sort(op), Sort::Long)
}

// The number of an int or a long; of a reference 0, since no operation takes one.
fn number(n: Num) -> i64
    ensures { IsNumber n result }
{
    match n {
        Num::Int(n) => i64::from(n),
        Num::Long(n) => n,
        Num::Ref(_) => 0,
    }
}

// The value of an operation.
fn value(op: ScalarOp, a: i64, b: i64) -> Num
    requires { operation.AreOperands op a b }
    ensures { result ≡ value_of op a b }
{
    let n = scalar(op, a, b);
    if gives_long(op) {
        Num::Long(n)
    } else {
        Num::Int(n as i32)
    }
}

/// The value of an operation on its operands.
pub(crate) fn computed(op: ScalarOp, operands: &[Num]) -> Option<Num>
    requires { map sort_of operands.now ≡ map sort_of_word (operation.takes op) }
    ensures { result ≡ computed op operands.now }
{
    match operands {
        [a] => Some(value(op, number(*a), 0)),
        [a, b] => Some(value(op, number(*a), number(*b))),
        _ => None,
    }
}

// A division or a remainder throws where the divisor is 0.
fn quotient(op: ScalarOp, a: Num, b: Num) -> Effect
    requires { sort_of a ∷ sort_of b ∷ [] ≡ map sort_of_word (operation.takes op) }
    ensures leads { (s : State) → divided s op (a ∷ b ∷ []) ≡ led s result }
    ensures keeps { KeepsHeap result }
{
    let (dividend, divisor) = (number(a), number(b));
    if divisor == 0 {
        return Effect::Throw(Fault::Arith);
    }
    Effect::Push(value(op, dividend, divisor))
}

/// What a division or a remainder does with its operands.
pub(crate) fn divided(op: ScalarOp, operands: &[Num]) -> Option<Effect>
    requires { map sort_of operands.now ≡ map sort_of_word (operation.takes op) }
    ensures leads { Leads (λ s. divided s op operands.now) result }
    ensures keeps { IfSome result KeepsHeap }
{
    match operands {
        [a, b] => Some(quotient(op, *a, *b)),
        _ => None,
    }
}
