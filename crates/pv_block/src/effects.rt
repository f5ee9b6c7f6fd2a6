//! The effect of each action.

ghost use Rattle.std.specs.Prelude.{◌≡◌, IfOk};
ghost use Rattle.pv_value.specs.Operations as operation;
ghost use Rattle.pv_frame.specs.Effects.{sort_of, sort_of_type, sort_of_word, sort_of_kind};
ghost use Rattle.pv_block.specs.Effects as effects;

use crate::effect::Change::{Calls, CallsFor, Pushes, Sets, Writes};
use crate::effect::{Effect, effect_of};
use crate::line::Kid::{Given, Made};
use crate::line::Kids;
use crate::line::Kids::{One, Operands, Two, WithHeap, Zero};
use crate::row::line_of;
use pv_frame::{Action, Sort};
use pv_graph::Op;
use pv_value::{JType, Kind, Memory, Name, Num, ScalarOp, Sym};
use std::alloc::Global;

/// The sort of the values of a type; of floats and doubles none is known.
pub(crate) fn sort_of_type(jtype: JType) -> Sort
    ensures { result ≡ sort_of_type jtype }
{
    match jtype {
        JType::Z | JType::B | JType::C | JType::S | JType::I => Sort::Int,
        JType::J => Sort::Long,
        JType::F | JType::D => Sort::Unknown,
        JType::A => Sort::Ref,
    }
}

/// The sort of the elements of an array.
pub(crate) fn sort_of_kind(kind: Kind) -> Sort
    ensures { result ≡ sort_of_kind kind }
{
    match kind {
        Kind::Long => Sort::Long,
        Kind::Ref => Sort::Ref,
        Kind::Int | Kind::Byte | Kind::Char | Kind::Short => Sort::Int,
    }
}

/// The sort of the value of an operation.
pub(crate) fn value_sort(op: ScalarOp) -> Sort
    ensures { result ≡ sort_of_word (operation.gives op) }
{
    match op {
        ScalarOp::I2l
        | ScalarOp::Ladd
        | ScalarOp::Lsub
        | ScalarOp::Lmul
        | ScalarOp::Ldiv
        | ScalarOp::Lrem
        | ScalarOp::Lshl
        | ScalarOp::Lshr
        | ScalarOp::Lushr
        | ScalarOp::Land
        | ScalarOp::Lor
        | ScalarOp::Lxor
        | ScalarOp::Lneg => Sort::Long,
        _ => Sort::Int,
    }
}

fn copy_name(alloc: Global, name: &Name) -> Result<Name, Memory>
    ensures { IfOk result (λ copy. copy ≡ name.now) }
{
    Name::new(alloc, name.bytes())
}

/// An equal symbol.
pub(crate) fn copy_sym(alloc: Global, sym: &Sym) -> Result<Sym, Memory>
    ensures { IfOk result (λ copy. copy ≡ sym.now) }
{
    Ok(Sym {
        class: copy_name(alloc, &sym.class)?,
        name: copy_name(alloc, &sym.name)?,
        desc: copy_name(alloc, &sym.desc)?,
    })
}

// The value of an operation is pushed.
fn pushes(alloc: Global, op: Op, kids: Kids, sort: Sort) -> Result<Effect, Memory>
    ensures { IfOk result (λ e. e ≡ effects.pushes op kids sort) }
{
    effect_of(alloc, [line_of(op, kids)], Pushes(sort, Made(0)))
}

// The value of an operation over the heap and the operands is pushed.
fn reads(alloc: Global, op: Op, sort: Sort) -> Result<Effect, Memory>
    ensures { IfOk result (λ e. e ≡ effects.pushes op Kids.WithHeap sort) }
{
    pushes(alloc, op, WithHeap, sort)
}

// The value of an operation over the heap and the operands is the heap.
fn writes(alloc: Global, op: Op) -> Result<Effect, Memory>
    ensures { IfOk result (λ e. e ≡ effects.writes op) }
{
    effect_of(alloc, [line_of(op, WithHeap)], Writes(Made(0)))
}

// A value that is there is pushed.
fn pushes_given(alloc: Global, sort: Sort) -> Result<Effect, Memory>
    ensures { IfOk result (λ e. e ≡ effects.pushes_given sort) }
{
    effect_of(alloc, [], Pushes(sort, Given(2)))
}

// A constant.
fn number(alloc: Global, n: Num) -> Result<Effect, Memory>
    ensures { IfOk result (λ e. e ≡ effects.pushes (effects.number_op n) Kids.Zero (sort_of n)) }
{
    match n {
        Num::Int(n) => pushes(alloc, Op::Int(n), Zero, Sort::Int),
        Num::Long(n) => pushes(alloc, Op::Long(n), Zero, Sort::Long),
        Num::Ref(_) => pushes(alloc, Op::Null, Zero, Sort::Ref),
    }
}

// An int is added to a local.
fn increase(alloc: Global, place: u16, by: i32) -> Result<Effect, Memory>
    ensures { IfOk result (λ e. e ≡ effects.increase place by) }
{
    let lines = [
        line_of(Op::Int(by), Zero),
        line_of(Op::Scalar(ScalarOp::Iadd), Two(Given(2), Made(0))),
    ];
    effect_of(alloc, lines, Sets(place, Made(1)))
}

// A call ends: its token, its heap, and its result if it has one.
fn call(alloc: Global, f: &Sym, gives: Option<JType>) -> Result<Effect, Memory>
    ensures { IfOk result (λ e. e ≡ effects.call f.now gives) }
{
    let end = line_of(Op::CallEnd(copy_sym(alloc, f)?), WithHeap);
    let token = line_of(Op::Both, Two(Given(0), Made(0)));
    let heap = line_of(Op::CallHeap(copy_sym(alloc, f)?), WithHeap);
    let Some(jtype) = gives else {
        return effect_of(alloc, [end, token, heap], Calls(Made(1), Made(2)));
    };
    let value = line_of(Op::CallRes(copy_sym(alloc, f)?), WithHeap);
    let change = CallsFor(Made(1), Made(2), sort_of_type(jtype), Made(3));
    effect_of(alloc, [end, token, heap, value], change)
}

/// The effect of an action, none where it moves values alone, or ends the method.
pub(crate) fn effect_for(alloc: Global, action: &Action) -> Result<Option<Effect>, Memory>
    ensures { IfOk result (λ e. e ≡ effects.effect_for action.now) }
{
    let effect = match action {
        Action::Push(n) => number(alloc, *n)?,
        Action::Literal(text) => {
            pushes(alloc, Op::Literal(copy_name(alloc, text)?), Zero, Sort::Ref)?
        }
        Action::Load(sort, _) => pushes_given(alloc, *sort)?,
        Action::Increase(place, by) => increase(alloc, *place, i32::from(*by))?,
        Action::Scalar(op) | Action::Divide(op) => {
            pushes(alloc, Op::Scalar(*op), Operands, value_sort(*op))?
        }
        Action::GetStatic(t, f) => {
            pushes(
                alloc,
                Op::GetStatic(copy_sym(alloc, f)?),
                One(Given(1)),
                sort_of_type(*t),
            )?
        }
        Action::PutStatic(_, f) => writes(alloc, Op::PutStatic(copy_sym(alloc, f)?))?,
        Action::GetField(t, f) => {
            reads(alloc, Op::GetField(copy_sym(alloc, f)?), sort_of_type(*t))?
        }
        Action::PutField(_, f) => writes(alloc, Op::PutField(copy_sym(alloc, f)?))?,
        Action::LoadElement(kind) => reads(alloc, Op::Load(*kind), sort_of_kind(*kind))?,
        Action::StoreElement(kind) => writes(alloc, Op::Store(*kind))?,
        Action::StoreRef => writes(alloc, Op::Store(Kind::Ref))?,
        Action::Length => pushes(alloc, Op::Length, Operands, Sort::Int)?,
        Action::Cast(_) => pushes_given(alloc, Sort::Ref)?,
        Action::InstanceOf(_) => pushes(alloc, Op::Int(0), Zero, Sort::Int)?,
        Action::Call(desc, f) | Action::CallOn(desc, f) => call(alloc, f, desc.result)?,
        _ => return Ok(None),
    };
    Ok(Some(effect))
}
