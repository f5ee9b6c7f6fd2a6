//! The table of instructions without operands.

ghost use Rattle.std.specs.Prelude.{◌≡◌};
ghost use Rattle.pv_frame.specs.Actions.{constant_rows, load_rows, element_load_rows, store_rows, element_store_rows, move_rows, arithmetic_rows, end_rows, plain_rows, row_of};

use crate::action::{Action, Move};
use crate::sort::Sort;
use pv_value::{Kind, Num, ScalarOp};

/// Nop, and constants that stand in the opcode (JVMS 6.5).
fn constant(opcode: u8) -> Option<Action>
    ensures { result ≡ row_of constant_rows opcode }
{
    let action = match opcode {
        0 => Action::Nop,
        1 => Action::Push(Num::Ref(0)),
        2 => Action::Push(Num::Int(-1)),
        3 => Action::Push(Num::Int(0)),
        4 => Action::Push(Num::Int(1)),
        5 => Action::Push(Num::Int(2)),
        6 => Action::Push(Num::Int(3)),
        7 => Action::Push(Num::Int(4)),
        8 => Action::Push(Num::Int(5)),
        9 => Action::Push(Num::Long(0)),
        10 => Action::Push(Num::Long(1)),
        _ => return None,
    };
    Some(action)
}

/// Loads of the first four locals (JVMS 6.5).
fn load(opcode: u8) -> Option<Action>
    ensures { result ≡ row_of load_rows opcode }
{
    let action = match opcode {
        26 => Action::Load(Sort::Int, 0),
        27 => Action::Load(Sort::Int, 1),
        28 => Action::Load(Sort::Int, 2),
        29 => Action::Load(Sort::Int, 3),
        30 => Action::Load(Sort::Long, 0),
        31 => Action::Load(Sort::Long, 1),
        32 => Action::Load(Sort::Long, 2),
        33 => Action::Load(Sort::Long, 3),
        42 => Action::Load(Sort::Ref, 0),
        43 => Action::Load(Sort::Ref, 1),
        44 => Action::Load(Sort::Ref, 2),
        45 => Action::Load(Sort::Ref, 3),
        _ => return None,
    };
    Some(action)
}

/// Loads of the elements of arrays (JVMS 6.5).
fn element_load(opcode: u8) -> Option<Action>
    ensures { result ≡ row_of element_load_rows opcode }
{
    let action = match opcode {
        46 => Action::LoadElement(Kind::Int),
        47 => Action::LoadElement(Kind::Long),
        50 => Action::LoadElement(Kind::Ref),
        51 => Action::LoadElement(Kind::Byte),
        52 => Action::LoadElement(Kind::Char),
        53 => Action::LoadElement(Kind::Short),
        _ => return None,
    };
    Some(action)
}

/// Stores into the first four locals (JVMS 6.5).
fn store(opcode: u8) -> Option<Action>
    ensures { result ≡ row_of store_rows opcode }
{
    let action = match opcode {
        59 => Action::Store(Sort::Int, 0),
        60 => Action::Store(Sort::Int, 1),
        61 => Action::Store(Sort::Int, 2),
        62 => Action::Store(Sort::Int, 3),
        63 => Action::Store(Sort::Long, 0),
        64 => Action::Store(Sort::Long, 1),
        65 => Action::Store(Sort::Long, 2),
        66 => Action::Store(Sort::Long, 3),
        75 => Action::Store(Sort::Ref, 0),
        76 => Action::Store(Sort::Ref, 1),
        77 => Action::Store(Sort::Ref, 2),
        78 => Action::Store(Sort::Ref, 3),
        _ => return None,
    };
    Some(action)
}

/// Stores into arrays (JVMS 6.5).
fn element_store(opcode: u8) -> Option<Action>
    ensures { result ≡ row_of element_store_rows opcode }
{
    let action = match opcode {
        79 => Action::StoreElement(Kind::Int),
        80 => Action::StoreElement(Kind::Long),
        83 => Action::StoreRef,
        84 => Action::StoreElement(Kind::Byte),
        85 => Action::StoreElement(Kind::Char),
        86 => Action::StoreElement(Kind::Short),
        _ => return None,
    };
    Some(action)
}

/// Moves of the operand stack (JVMS 6.5).
fn stack_move(opcode: u8) -> Option<Action>
    ensures { result ≡ row_of move_rows opcode }
{
    let action = match opcode {
        87 => Action::Move(Move::Pop),
        88 => Action::Move(Move::Pop2),
        89 => Action::Move(Move::Dup),
        90 => Action::Move(Move::DupX1),
        91 => Action::Move(Move::DupX2),
        92 => Action::Move(Move::Dup2),
        93 => Action::Move(Move::Dup2X1),
        94 => Action::Move(Move::Dup2X2),
        95 => Action::Move(Move::Swap),
        _ => return None,
    };
    Some(action)
}

/// Operations on numbers (JVMS 6.5).
fn arithmetic(opcode: u8) -> Option<Action>
    ensures { result ≡ row_of arithmetic_rows opcode }
{
    let action = match opcode {
        96 => Action::Scalar(ScalarOp::Iadd),
        97 => Action::Scalar(ScalarOp::Ladd),
        100 => Action::Scalar(ScalarOp::Isub),
        101 => Action::Scalar(ScalarOp::Lsub),
        104 => Action::Scalar(ScalarOp::Imul),
        105 => Action::Scalar(ScalarOp::Lmul),
        108 => Action::Divide(ScalarOp::Idiv),
        109 => Action::Divide(ScalarOp::Ldiv),
        112 => Action::Divide(ScalarOp::Irem),
        113 => Action::Divide(ScalarOp::Lrem),
        116 => Action::Scalar(ScalarOp::Ineg),
        117 => Action::Scalar(ScalarOp::Lneg),
        120 => Action::Scalar(ScalarOp::Ishl),
        121 => Action::Scalar(ScalarOp::Lshl),
        122 => Action::Scalar(ScalarOp::Ishr),
        123 => Action::Scalar(ScalarOp::Lshr),
        124 => Action::Scalar(ScalarOp::Iushr),
        125 => Action::Scalar(ScalarOp::Lushr),
        126 => Action::Scalar(ScalarOp::Iand),
        127 => Action::Scalar(ScalarOp::Land),
        128 => Action::Scalar(ScalarOp::Ior),
        129 => Action::Scalar(ScalarOp::Lor),
        130 => Action::Scalar(ScalarOp::Ixor),
        131 => Action::Scalar(ScalarOp::Lxor),
        133 => Action::Scalar(ScalarOp::I2l),
        136 => Action::Scalar(ScalarOp::L2i),
        145 => Action::Scalar(ScalarOp::I2b),
        146 => Action::Scalar(ScalarOp::I2c),
        147 => Action::Scalar(ScalarOp::I2s),
        148 => Action::Scalar(ScalarOp::Lcmp),
        _ => return None,
    };
    Some(action)
}

/// Returns, the length of an array, and throwing (JVMS 6.5).
fn ending(opcode: u8) -> Option<Action>
    ensures { result ≡ row_of end_rows opcode }
{
    let action = match opcode {
        172 => Action::Give(Some(Sort::Int)),
        173 => Action::Give(Some(Sort::Long)),
        176 => Action::Give(Some(Sort::Ref)),
        177 => Action::Give(None),
        190 => Action::Length,
        191 => Action::Throw,
        _ => return None,
    };
    Some(action)
}

/// What an instruction without operands does, `None` at every other opcode.
pub(crate) fn plain(opcode: u8) -> Option<Action>
    ensures { result ≡ row_of plain_rows opcode }
{
    constant(opcode)
        .or(load(opcode))
        .or(element_load(opcode))
        .or(store(opcode))
        .or(element_store(opcode))
        .or(stack_move(opcode))
        .or(arithmetic(opcode))
        .or(ending(opcode))
}
