//! Which numbers an operation takes and gives.

ghost use Rattle.std.specs.Prelude.{◌≡◌};
ghost use Rattle.pv_value.specs.Operations.{gives, takes};
ghost use Rattle.pv_denote.specs.Words.{word_of, words_of};

use pv_value::ScalarOp;

/// A number of 32 bits or of 64.
#[derive(Clone, Copy, Debug, PartialEq, Eq)]
pub enum Word {
    Int,
    Long,
}

/// The operands of an operation, in the order in which they are pushed.
#[derive(Clone, Copy, Debug, PartialEq, Eq)]
pub enum Operands {
    One(Word),
    Two(Word, Word),
}

/// The operands that an operation takes.
pub fn takes(op: ScalarOp) -> Operands
    ensures { words_of result ≡ takes op }
{
    use ScalarOp::*;
    use Word::{Int, Long};
    match op {
        Iadd | Isub | Imul | Idiv | Irem | Ishl | Ishr | Iushr | Iand | Ior | Ixor | Ieq | Ilt => {
            Operands::Two(Int, Int)
        }
        Ineg | I2b | I2c | I2s | I2l => Operands::One(Int),
        Ladd | Lsub | Lmul | Ldiv | Lrem | Land | Lor | Lxor | Leq | Lcmp => {
            Operands::Two(Long, Long)
        }
        Lshl | Lshr | Lushr => Operands::Two(Long, Int),
        Lneg | L2i => Operands::One(Long),
    }
}

/// The value of an operation.
pub fn gives(op: ScalarOp) -> Word
    ensures { word_of result ≡ gives op }
{
    use ScalarOp::*;
    match op {
        I2l | Ladd | Lsub | Lmul | Ldiv | Lrem | Lshl | Lshr | Lushr | Land | Lor | Lxor | Lneg => {
            Word::Long
        }
        _ => Word::Int,
    }
}
