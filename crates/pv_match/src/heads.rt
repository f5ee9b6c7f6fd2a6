//! The operations that a pattern's head may stand for.

ghost use Rattle.std.specs.Prelude.{◌≡◌, ◌↔◌, IsTrue};
ghost use Rattle.pv_pattern.specs.Seen.{head_seen};
ghost use Rattle.pv_match.specs.Bindings.{IsUnderHead, head_number};

use crate::shown::is_same_op;
use pv_graph::Op;
use pv_pattern::{Head, op_number};

// The number of a head's operation.
pub(crate) fn head_number(head: Head) -> u32
    ensures { result ≡ head_number (head_seen head) }
{
    match head {
        Head::Int(_) => 0,
        Head::Long(_) => 1,
        Head::Null => 2,
        Head::This => 5,
        Head::Unit => 7,
        Head::Zero => 13,
        Head::Succ => 14,
        Head::Thrown => 15,
        Head::IsClear => 16,
        Head::Both => 17,
        Head::Phi => 18,
        Head::Scalar(op) => op_number(&Op::Scalar(op)),
        Head::Aeq => 65,
        Head::Theta => 19,
        Head::Eval => 20,
        Head::Pass => 21,
        Head::Shift => 22,
        Head::GetStatic(_) => 70,
        Head::PutStatic(_) => 71,
        Head::GetField(_) => 72,
        Head::PutField(_) => 73,
        Head::Load(_) => 74,
        Head::Store(_) => 75,
        Head::Length => 76,
    }
}

// Whether a head may stand for this operation.
pub(crate) fn is_under_head(head: Head, op: &Op) -> bool
    ensures { IsTrue result ↔ IsUnderHead (head_seen head) op.now }
{
    match (head, op) {
        (Head::Int(c), _) => is_same_op(op, &Op::Int(c)),
        (Head::Long(c), _) => is_same_op(op, &Op::Long(c)),
        (Head::Null, Op::Null) => true,
        (Head::This, Op::This) => true,
        (Head::Unit, Op::Unit) => true,
        (Head::Zero, Op::Zero) => true,
        (Head::Succ, Op::Succ) => true,
        (Head::Thrown, Op::Thrown) => true,
        (Head::IsClear, Op::IsClear) => true,
        (Head::Both, Op::Both) => true,
        (Head::Phi, Op::Phi) => true,
        (Head::Scalar(o), _) => is_same_op(op, &Op::Scalar(o)),
        (Head::Aeq, Op::Aeq) => true,
        (Head::Theta, Op::Theta(_)) => true,
        (Head::Eval, Op::Eval(_)) => true,
        (Head::Pass, Op::Pass(_)) => true,
        (Head::Shift, Op::Shift(_)) => true,
        (Head::GetStatic(_), Op::GetStatic(_)) => true,
        (Head::PutStatic(_), Op::PutStatic(_)) => true,
        (Head::GetField(_), Op::GetField(_)) => true,
        (Head::PutField(_), Op::PutField(_)) => true,
        (Head::Load(_), Op::Load(_)) => true,
        (Head::Store(_), Op::Store(_)) => true,
        (Head::Length, Op::Length) => true,
        _ => false,
    }
}
