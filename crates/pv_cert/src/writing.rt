//! The words of operations are written, each after a blank.

ghost use Rattle.std.specs.Prelude.{◌≡◌, ◌++◌, ◌∷◌, drop, OnOk};
ghost use Rattle.pv_token.specs.Words.{spaced};
ghost use Rattle.pv_cert.specs.Names.{head_name};
ghost use Rattle.pv_cert.specs.Parameters.{text, sym, argument};
ghost use Rattle.pv_cert.specs.Operations.{op_words};

use crate::table::{Head, HeadWord, KindWord, SortWord};
use pv_graph::{Op, OpSort};
use pv_token::{Int, Long, Number, push, push_shown};
use pv_value::{Name, Sym};
use std::alloc::{AllocError, Global};

/// A text after a blank, as it is shown.
pub fn push_text(alloc: Global, out: &mut Vec<u8>, name: &Name) -> Result<(), AllocError>
    ensures { OnOk result (out.new.items ≡ out.old.items ++ spaced (text.spells name.now)) }
{
    out.extend_from_slice(b" ")?;
    push_shown(alloc, out, name.bytes())
}

fn push_sym(alloc: Global, out: &mut Vec<u8>, s: &Sym) -> Result<(), AllocError>
    ensures { OnOk result (out.new.items ≡ out.old.items ++ spaced (sym.spells s.now)) }
{
    push_text(alloc, out, &s.class)?;
    push_text(alloc, out, &s.name)?;
    push_text(alloc, out, &s.desc)
}

// The operation without its parameters.
fn head(op: &Op) -> Head
    ensures { op_words op.now ≡ head_name result ∷ drop 1 (op_words op.now) }
{
    match op {
        Op::Int(_) => Head::Int,
        Op::Long(_) => Head::Long,
        Op::Null => Head::Null,
        Op::Literal(_) => Head::Literal,
        Op::Param(_, _) => Head::Param,
        Op::This => Head::This,
        Op::Heap0 => Head::Heap0,
        Op::Unit => Head::Unit,
        Op::Never => Head::Never,
        Op::Clear => Head::Clear,
        Op::FNull => Head::FNull,
        Op::FArith => Head::FArith,
        Op::FIndex => Head::FIndex,
        Op::Zero => Head::Zero,
        Op::Succ => Head::Succ,
        Op::Thrown => Head::Thrown,
        Op::IsClear => Head::IsClear,
        Op::Both => Head::Both,
        Op::Phi => Head::Phi,
        Op::Theta(_) => Head::Theta,
        Op::Eval(_) => Head::Eval,
        Op::Pass(_) => Head::Pass,
        Op::Shift(_) => Head::Shift,
        Op::Root => Head::Root,
        Op::Scalar(op) => Head::Scalar(*op),
        Op::Aeq => Head::Aeq,
        Op::GetStatic(_) => Head::GetStatic,
        Op::PutStatic(_) => Head::PutStatic,
        Op::GetField(_) => Head::GetField,
        Op::PutField(_) => Head::PutField,
        Op::Load(_) => Head::Load,
        Op::Store(_) => Head::Store,
        Op::Length => Head::Length,
        Op::CallEnd(_) => Head::CallEnd,
        Op::CallRes(_) => Head::CallRes,
        Op::CallFault(_) => Head::CallFault,
        Op::CallHeap(_) => Head::CallHeap,
        Op::Var(_, _) => Head::Var,
    }
}

fn push_argument(out: &mut Vec<u8>, j: u32, sort: OpSort) -> Result<(), AllocError>
    ensures { OnOk result (out.new.items ≡ out.old.items ++ spaced (argument.spells (j, sort))) }
{
    push::<Number>(out, j)?;
    push::<SortWord>(out, sort)
}

// The parameters of an operation.
fn push_params(alloc: Global, out: &mut Vec<u8>, op: &Op) -> Result<(), AllocError>
    ensures { OnOk result (out.new.items ≡ out.old.items ++ spaced (drop 1 (op_words op.now))) }
{
    match op {
        Op::Int(x) => push::<Int>(out, *x),
        Op::Long(x) => push::<Long>(out, *x),
        Op::Null => Ok(()),
        Op::Literal(x) => push_text(alloc, out, x),
        Op::Param(j, sort) => push_argument(out, *j, *sort),
        Op::This => Ok(()),
        Op::Heap0 => Ok(()),
        Op::Unit => Ok(()),
        Op::Never => Ok(()),
        Op::Clear => Ok(()),
        Op::FNull => Ok(()),
        Op::FArith => Ok(()),
        Op::FIndex => Ok(()),
        Op::Zero => Ok(()),
        Op::Succ => Ok(()),
        Op::Thrown => Ok(()),
        Op::IsClear => Ok(()),
        Op::Both => Ok(()),
        Op::Phi => Ok(()),
        Op::Theta(x) => push::<Number>(out, *x),
        Op::Eval(x) => push::<Number>(out, *x),
        Op::Pass(x) => push::<Number>(out, *x),
        Op::Shift(x) => push::<Number>(out, *x),
        Op::Root => Ok(()),
        Op::Scalar(_) => Ok(()),
        Op::Aeq => Ok(()),
        Op::GetStatic(x) => push_sym(alloc, out, x),
        Op::PutStatic(x) => push_sym(alloc, out, x),
        Op::GetField(x) => push_sym(alloc, out, x),
        Op::PutField(x) => push_sym(alloc, out, x),
        Op::Load(x) => push::<KindWord>(out, *x),
        Op::Store(x) => push::<KindWord>(out, *x),
        Op::Length => Ok(()),
        Op::CallEnd(x) => push_sym(alloc, out, x),
        Op::CallRes(x) => push_sym(alloc, out, x),
        Op::CallFault(x) => push_sym(alloc, out, x),
        Op::CallHeap(x) => push_sym(alloc, out, x),
        Op::Var(_, _) => Ok(()),
    }
}

/// The words of an operation, each after a blank.
pub fn push_op(alloc: Global, out: &mut Vec<u8>, op: &Op) -> Result<(), AllocError>
    ensures { OnOk result (out.new.items ≡ out.old.items ++ spaced (op_words op.now)) }
{
    push::<HeadWord>(out, head(op))?;
    push_params(alloc, out, op)
}
