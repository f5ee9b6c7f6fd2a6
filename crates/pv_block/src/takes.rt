//! The operands of actions, by their sorts.

ghost use Rattle.std.specs.Prelude.{◌≡◌, map, IfOk};
ghost use Rattle.pv_value.specs.Operations as operation;
ghost use Rattle.pv_frame.specs.Effects.{sort_of_type, sort_of_word, test_takes, takes};

use crate::effects::{sort_of_kind, sort_of_type};
use pv_frame::{Action, Sort, Test};
use pv_list::Listed;
use pv_value::{JType, Memory, ScalarOp};
use std::alloc::{AllocError, Global};

// The sorts of the operands of an operation.
fn operands(op: ScalarOp) -> &'static [Sort]
    ensures { result.now ≡ map sort_of_word (operation.takes op) }
{
    match op {
        ScalarOp::Iadd | ScalarOp::Isub | ScalarOp::Imul | ScalarOp::Idiv | ScalarOp::Irem => {
            &[Sort::Int, Sort::Int]
        }
        ScalarOp::Ishl | ScalarOp::Ishr | ScalarOp::Iushr => &[Sort::Int, Sort::Int],
        ScalarOp::Iand | ScalarOp::Ior | ScalarOp::Ixor => &[Sort::Int, Sort::Int],
        ScalarOp::Ieq | ScalarOp::Ilt => &[Sort::Int, Sort::Int],
        ScalarOp::Ineg | ScalarOp::I2b | ScalarOp::I2c | ScalarOp::I2s | ScalarOp::I2l => {
            &[Sort::Int]
        }
        ScalarOp::Ladd | ScalarOp::Lsub | ScalarOp::Lmul | ScalarOp::Ldiv | ScalarOp::Lrem => {
            &[Sort::Long, Sort::Long]
        }
        ScalarOp::Lshl | ScalarOp::Lshr | ScalarOp::Lushr => &[Sort::Long, Sort::Int],
        ScalarOp::Land | ScalarOp::Lor | ScalarOp::Lxor => &[Sort::Long, Sort::Long],
        ScalarOp::Leq | ScalarOp::Lcmp => &[Sort::Long, Sort::Long],
        ScalarOp::Lneg | ScalarOp::L2i => &[Sort::Long],
    }
}

// The sorts that a test asks for.
fn test_takes(test: Test) -> &'static [Sort]
    ensures { result.now ≡ test_takes test }
{
    match test {
        Test::Zero(_) => &[Sort::Int],
        Test::Ints(_) => &[Sort::Int, Sort::Int],
        Test::Same | Test::Other => &[Sort::Ref, Sort::Ref],
        Test::Null | Test::NonNull => &[Sort::Ref],
    }
}

// The sorts of parameters.
fn parameter_sorts(alloc: Global, params: &Listed<JType>) -> Result<Vec<Sort>, AllocError>
    ensures { IfOk result (λ v. v.items ≡ map sort_of_type params.now) }
{
    params
        .as_slice()
        .iter()
        .map(|param| sort_of_type(*param))
        .collect(alloc)
}

/// The sorts of the operands, in the order in which they are pushed; none for a move.
pub(crate) fn takes(alloc: Global, action: &Action) -> Result<Vec<Sort>, AllocError>
    ensures { IfOk result (λ v. v.items ≡ takes action.now) }
{
    match action {
        Action::Store(sort, _) => [*sort].to_vec(alloc),
        Action::Scalar(op) | Action::Divide(op) => operands(*op).to_vec(alloc),
        Action::Branch(test, _) => test_takes(*test).to_vec(alloc),
        Action::Switch(_, _) => [Sort::Int].to_vec(alloc),
        Action::Give(Some(sort)) => [*sort].to_vec(alloc),
        Action::Throw | Action::GetField(_, _) | Action::Length => [Sort::Ref].to_vec(alloc),
        Action::Cast(_) | Action::InstanceOf(_) => [Sort::Ref].to_vec(alloc),
        Action::PutStatic(field, _) => [sort_of_type(*field)].to_vec(alloc),
        Action::PutField(field, _) => [Sort::Ref, sort_of_type(*field)].to_vec(alloc),
        Action::LoadElement(_) => [Sort::Ref, Sort::Int].to_vec(alloc),
        Action::StoreElement(kind) => { [Sort::Ref, Sort::Int, sort_of_kind(*kind)].to_vec(alloc) }
        Action::StoreRef => [Sort::Ref, Sort::Int, Sort::Ref].to_vec(alloc),
        Action::Call(desc, _) | Action::CallOn(desc, _) => parameter_sorts(alloc, &desc.params),
        Action::Nop
        | Action::Push(_)
        | Action::Literal(_)
        | Action::Load(_, _)
        | Action::Increase(_, _)
        | Action::Move(_)
        | Action::Jump(_)
        | Action::Give(None)
        | Action::GetStatic(_, _) => Ok(Vec::new(alloc)),
    }
}
