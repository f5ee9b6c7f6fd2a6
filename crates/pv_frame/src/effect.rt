//! What actions take from the operand stack and put there, by sorts, and where they lead.

ghost use Rattle.std.specs.Prelude.{◌≡◌, ◌+◌, ◌<◌, ◌^◌, IfOk, map, [], ◌∷◌};
ghost use Rattle.pv_value.specs.Operations as operation;
ghost use Rattle.pv_frame.specs.Effects.{sort_of, sort_of_type, sort_of_kind, sort_of_word, sorts_given, test_takes, asked, takes, gives, successors};

use crate::action::{Action, Test};
use crate::sort::Sort;
use pv_insn::Case;
use pv_list::Listed;
use pv_value::{JType, Kind, Num, ScalarOp};
use std::alloc::{AllocError, Global};

/// The sort of a number.
pub fn sort_of(number: Num) -> Sort
    ensures { result ≡ sort_of number }
{
    match number {
        Num::Int(_) => Sort::Int,
        Num::Long(_) => Sort::Long,
        Num::Ref(_) => Sort::Ref,
    }
}

/// The sort of the values of a type; of floats and doubles none is known.
pub fn sort_of_type(jtype: JType) -> Sort
    ensures { result ≡ sort_of_type jtype }
{
    match jtype {
        JType::Z | JType::B | JType::C | JType::S | JType::I => Sort::Int,
        JType::J => Sort::Long,
        JType::F | JType::D => Sort::Unknown,
        JType::A => Sort::Ref,
    }
}

/// The sort of the elements of an array.
pub fn sort_of_kind(kind: Kind) -> Sort
    ensures { result ≡ sort_of_kind kind }
{
    match kind {
        Kind::Long => Sort::Long,
        Kind::Ref => Sort::Ref,
        Kind::Int | Kind::Byte | Kind::Char | Kind::Short => Sort::Int,
    }
}

/// The sorts of the operands of an operation.
fn operand_sorts(op: ScalarOp) -> &'static [Sort]
    ensures { result.now ≡ map sort_of_word (operation.takes op) }
{
    match op {
        ScalarOp::Iadd | ScalarOp::Isub | ScalarOp::Imul | ScalarOp::Idiv | ScalarOp::Irem => {
            &[Sort::Int, Sort::Int]
        }
        ScalarOp::Ishl | ScalarOp::Ishr | ScalarOp::Iushr => &[Sort::Int, Sort::Int],
        ScalarOp::Iand | ScalarOp::Ior | ScalarOp::Ixor => &[Sort::Int, Sort::Int],
        ScalarOp::Ieq | ScalarOp::Ilt => &[Sort::Int, Sort::Int],
        ScalarOp::Ineg | ScalarOp::I2b | ScalarOp::I2c | ScalarOp::I2s | ScalarOp::I2l => {
            &[Sort::Int]
        }
        ScalarOp::Ladd | ScalarOp::Lsub | ScalarOp::Lmul | ScalarOp::Ldiv | ScalarOp::Lrem => {
            &[Sort::Long, Sort::Long]
        }
        ScalarOp::Lshl | ScalarOp::Lshr | ScalarOp::Lushr => &[Sort::Long, Sort::Int],
        ScalarOp::Land | ScalarOp::Lor | ScalarOp::Lxor => &[Sort::Long, Sort::Long],
        ScalarOp::Leq | ScalarOp::Lcmp => &[Sort::Long, Sort::Long],
        ScalarOp::Lneg | ScalarOp::L2i => &[Sort::Long],
    }
}

/// The sort of the value of an operation.
pub fn value_sort(op: ScalarOp) -> Sort
    ensures { result ≡ sort_of_word (operation.gives op) }
{
    match op {
        ScalarOp::I2l
        | ScalarOp::Ladd
        | ScalarOp::Lsub
        | ScalarOp::Lmul
        | ScalarOp::Ldiv
        | ScalarOp::Lrem
        | ScalarOp::Lshl
        | ScalarOp::Lshr
        | ScalarOp::Lushr
        | ScalarOp::Land
        | ScalarOp::Lor
        | ScalarOp::Lxor
        | ScalarOp::Lneg => Sort::Long,
        _ => Sort::Int,
    }
}

/// The sorts that a test asks for.
fn test_takes(test: Test) -> &'static [Sort]
    ensures { result.now ≡ test_takes test }
{
    match test {
        Test::Zero(_) => &[Sort::Int],
        Test::Ints(_) => &[Sort::Int, Sort::Int],
        Test::Same | Test::Other => &[Sort::Ref, Sort::Ref],
        Test::Null | Test::NonNull => &[Sort::Ref],
    }
}

/// The sorts of parameters.
pub fn parameter_sorts(alloc: Global, params: &Listed<JType>) -> Result<Vec<Sort>, AllocError>
    ensures { IfOk result (λ v. v.items ≡ map sort_of_type params.now) }
{
    let mut sorts = Vec::new(alloc);
    for param in params.as_slice() {
        sorts.push(sort_of_type(*param))?;
    }
    Ok(sorts)
}

/// A value of a sort alone.
fn alone(sort: Sort) -> &'static [Sort]
    ensures { result.now ≡ sort ∷ [] }
{
    match sort {
        Sort::Int => &[Sort::Int],
        Sort::Long => &[Sort::Long],
        Sort::Ref => &[Sort::Ref],
        Sort::Unknown => &[Sort::Unknown],
    }
}

/// A reference, and a value of a sort.
fn after_ref(sort: Sort) -> &'static [Sort]
    ensures { result.now ≡ Sort.Ref ∷ sort ∷ [] }
{
    match sort {
        Sort::Int => &[Sort::Ref, Sort::Int],
        Sort::Long => &[Sort::Ref, Sort::Long],
        Sort::Ref => &[Sort::Ref, Sort::Ref],
        Sort::Unknown => &[Sort::Ref, Sort::Unknown],
    }
}

/// A reference, an int, and a value of a sort.
fn after_element(sort: Sort) -> &'static [Sort]
    ensures { result.now ≡ Sort.Ref ∷ Sort.Int ∷ sort ∷ [] }
{
    match sort {
        Sort::Int => &[Sort::Ref, Sort::Int, Sort::Int],
        Sort::Long => &[Sort::Ref, Sort::Int, Sort::Long],
        Sort::Ref => &[Sort::Ref, Sort::Int, Sort::Ref],
        Sort::Unknown => &[Sort::Ref, Sort::Int, Sort::Unknown],
    }
}

/// The sorts of the operands of an action, in the order in which they are pushed; none for a move, and
/// none for a call, whose type tells them.
pub fn asked_sorts(action: &Action) -> &'static [Sort]
    ensures { result.now ≡ asked action.now }
{
    match action {
        Action::Store(sort, _) => alone(*sort),
        Action::Scalar(op) | Action::Divide(op) => operand_sorts(*op),
        Action::Branch(test, _) => test_takes(*test),
        Action::Switch(_, _) => &[Sort::Int],
        Action::Give(Some(sort)) => alone(*sort),
        Action::Throw | Action::GetField(_, _) | Action::Length => &[Sort::Ref],
        Action::Cast(_) | Action::InstanceOf(_) => &[Sort::Ref],
        Action::PutStatic(field, _) => alone(sort_of_type(*field)),
        Action::PutField(field, _) => after_ref(sort_of_type(*field)),
        Action::LoadElement(_) => after_ref(Sort::Int),
        Action::StoreElement(kind) => after_element(sort_of_kind(*kind)),
        Action::StoreRef => after_element(Sort::Ref),
        _ => &[],
    }
}

/// The sorts of the operands, in the order in which they are pushed; none for a move.
pub fn takes(alloc: Global, action: &Action) -> Result<Vec<Sort>, AllocError>
    ensures { IfOk result (λ v. v.items ≡ takes action.now) }
{
    match action {
        Action::Call(desc, _) | Action::CallOn(desc, _) => parameter_sorts(alloc, &desc.params),
        _ => asked_sorts(action).to_vec(alloc),
    }
}

/// The sort of the value that is pushed, if one is; none for a move.
pub(crate) fn gives(action: &Action) -> Option<Sort>
    ensures { sorts_given result ≡ gives action.now }
{
    match action {
        Action::Push(number) => Some(sort_of(*number)),
        Action::Literal(_) | Action::Cast(_) => Some(Sort::Ref),
        Action::Load(sort, _) => Some(*sort),
        Action::Scalar(op) | Action::Divide(op) => Some(value_sort(*op)),
        Action::GetStatic(field, _) | Action::GetField(field, _) => Some(sort_of_type(*field)),
        Action::LoadElement(kind) => Some(sort_of_kind(*kind)),
        Action::Length | Action::InstanceOf(_) => Some(Sort::Int),
        Action::Call(desc, _) | Action::CallOn(desc, _) => {
            desc.result.map(|value| sort_of_type(value))
        }
        Action::Nop
        | Action::Store(_, _)
        | Action::Increase(_, _)
        | Action::Move(_)
        | Action::Branch(_, _)
        | Action::Jump(_)
        | Action::Switch(_, _)
        | Action::Give(_)
        | Action::Throw
        | Action::PutStatic(_, _)
        | Action::PutField(_, _)
        | Action::StoreElement(_)
        | Action::StoreRef => None,
    }
}

/// The places to which the instruction at a place may lead.
pub(crate) fn successors(alloc: Global, place: u32, action: &Action) -> Result<Vec<u32>, AllocError>
    requires { place + 1 < 2 ^ 32 }
    ensures { IfOk result (λ v. v.items ≡ successors place action.now) }
{
    match action {
        Action::Branch(_, target) => [*target, place + 1].to_vec(alloc),
        Action::Jump(target) => [*target].to_vec(alloc),
        Action::Switch(default, cases) => switch_targets(alloc, *default, cases),
        Action::Give(_) | Action::Throw => Ok(Vec::new(alloc)),
        Action::Nop
        | Action::Push(_)
        | Action::Literal(_)
        | Action::Load(_, _)
        | Action::Store(_, _)
        | Action::Increase(_, _)
        | Action::Move(_)
        | Action::Scalar(_)
        | Action::Divide(_)
        | Action::GetStatic(_, _)
        | Action::PutStatic(_, _)
        | Action::GetField(_, _)
        | Action::PutField(_, _)
        | Action::LoadElement(_)
        | Action::StoreElement(_)
        | Action::StoreRef
        | Action::Length
        | Action::Cast(_)
        | Action::InstanceOf(_)
        | Action::Call(_, _)
        | Action::CallOn(_, _) => [place + 1].to_vec(alloc),
    }
}

/// The default target of a switch, and the targets of its cases.
fn switch_targets(alloc: Global, default: u32, cases: &Listed<Case>) -> Result<Vec<u32>, AllocError>
    ensures { IfOk result (λ v. v.items ≡ default ∷ map (λ c. c.target) cases.now) }
{
    let mut targets = [default].to_vec(alloc)?;
    for case in cases.as_slice() {
        targets.push(case.target)?;
    }
    Ok(targets)
}
