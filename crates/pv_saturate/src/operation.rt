//! The operation of a family, by its number and its parameter.

ghost use Rattle.std.specs.Prelude.{◌≡◌, IfOk};
ghost use Rattle.pv_saturate.specs.Operations.{bare_at, count_of, depth_rows, int_rows, kind_rows, long_rows, op_of, op_with, plain_rows, row_of, scalar_at, symbol_rows};

use pv_graph::Op;
use pv_match::Param;
use pv_value::{Kind, Memory, ScalarOp, Sym};

// One of no parameter that isn't one on numbers.
fn plain(number: u32) -> Option<Op>
    ensures { result ≡ row_of plain_rows number }
{
    let op = match number {
        5 => Op::This,
        6 => Op::Heap0,
        7 => Op::Unit,
        8 => Op::Never,
        9 => Op::Clear,
        10 => Op::FNull,
        11 => Op::FArith,
        12 => Op::FIndex,
        13 => Op::Zero,
        14 => Op::Succ,
        15 => Op::Thrown,
        16 => Op::IsClear,
        17 => Op::Both,
        18 => Op::Phi,
        23 => Op::Root,
        65 => Op::Aeq,
        76 => Op::Length,
        _ => return None,
    };
    Some(op)
}

// One on ints.
fn on_ints(number: u32) -> Option<ScalarOp>
    ensures { result ≡ row_of int_rows number }
{
    let op = match number {
        30 => ScalarOp::Iadd,
        31 => ScalarOp::Isub,
        32 => ScalarOp::Imul,
        33 => ScalarOp::Idiv,
        34 => ScalarOp::Irem,
        35 => ScalarOp::Ishl,
        36 => ScalarOp::Ishr,
        37 => ScalarOp::Iushr,
        38 => ScalarOp::Iand,
        39 => ScalarOp::Ior,
        40 => ScalarOp::Ixor,
        41 => ScalarOp::Ieq,
        42 => ScalarOp::Ilt,
        43 => ScalarOp::Ineg,
        44 => ScalarOp::I2b,
        45 => ScalarOp::I2c,
        46 => ScalarOp::I2s,
        47 => ScalarOp::I2l,
        _ => return None,
    };
    Some(op)
}

// One on longs.
fn on_longs(number: u32) -> Option<ScalarOp>
    ensures { result ≡ row_of long_rows number }
{
    let op = match number {
        50 => ScalarOp::Ladd,
        51 => ScalarOp::Lsub,
        52 => ScalarOp::Lmul,
        53 => ScalarOp::Ldiv,
        54 => ScalarOp::Lrem,
        55 => ScalarOp::Lshl,
        56 => ScalarOp::Lshr,
        57 => ScalarOp::Lushr,
        58 => ScalarOp::Land,
        59 => ScalarOp::Lor,
        60 => ScalarOp::Lxor,
        61 => ScalarOp::Leq,
        62 => ScalarOp::Lcmp,
        63 => ScalarOp::Lneg,
        64 => ScalarOp::L2i,
        _ => return None,
    };
    Some(op)
}

// One on numbers.
fn scalar(number: u32) -> Option<ScalarOp>
    ensures { result ≡ scalar_at number }
{
    match on_ints(number) {
        Some(op) => Some(op),
        None => on_longs(number),
    }
}

// One of no parameter.
fn bare(number: u32) -> Option<Op>
    ensures { result ≡ bare_at number }
{
    match scalar(number) {
        Some(op) => Some(Op::Scalar(op)),
        None => plain(number),
    }
}

// One of loops.
fn at_depth(number: u32, depth: u32) -> Option<Op>
    ensures { result ≡ row_of (depth_rows depth) number }
{
    let op = match number {
        19 => Op::Theta(depth),
        20 => Op::Eval(depth),
        21 => Op::Pass(depth),
        22 => Op::Shift(depth),
        _ => return None,
    };
    Some(op)
}

// One of a field or a method.
fn on_symbol(number: u32, sym: Sym) -> Option<Op>
    ensures { result ≡ row_of (symbol_rows sym) number }
{
    let op = match number {
        70 => Op::GetStatic(sym),
        71 => Op::PutStatic(sym),
        72 => Op::GetField(sym),
        73 => Op::PutField(sym),
        80 => Op::CallEnd(sym),
        81 => Op::CallRes(sym),
        82 => Op::CallFault(sym),
        83 => Op::CallHeap(sym),
        _ => return None,
    };
    Some(op)
}

// One on the elements of arrays.
fn on_kind(number: u32, kind: Kind) -> Option<Op>
    ensures { result ≡ row_of (kind_rows kind) number }
{
    let op = match number {
        74 => Op::Load(kind),
        75 => Op::Store(kind),
        _ => return None,
    };
    Some(op)
}

// One of this parameter.
fn op_with(number: u32, param: &Param) -> Result<Option<Op>, Memory>
    ensures { IfOk result (λ o. o ≡ op_with number param.now) }
{
    match param {
        Param::Depth(depth) => Ok(at_depth(number, *depth)),
        Param::Symbol(sym) => Ok(on_symbol(number, sym.clone()?)),
        Param::Kind(kind) => Ok(on_kind(number, *kind)),
        Param::Int(_) | Param::Long(_) => Ok(None),
    }
}

// The operation with a number and these parameters, of which it has one at most.
pub(crate) fn op_of(number: u32, own: &[Param]) -> Result<Option<Op>, Memory>
    ensures { IfOk result (λ o. o ≡ op_of number own.now) }
{
    match own {
        [] => Ok(bare(number)),
        [param, ..] => op_with(number, param),
    }
}

// How many parameters it has.
pub(crate) fn count_of(number: u32) -> usize
    ensures { result ≡ count_of number }
{
    match bare(number) {
        Some(_) => 0,
        None => 1,
    }
}
