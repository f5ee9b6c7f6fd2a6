//! The constants that operations give over constants, and the types that narrow values.

ghost use Rattle.std.specs.Prelude.{◌≡◌, ◌∷◌, [], IfSome};
ghost use Rattle.pv_value.specs.Operations.{IsOfWord, gives, takes};
ghost use Rattle.pv_value.specs.Spelled.{field_type};
ghost use Rattle.pv_value.specs.declared.outcome.Val.TheVariants as val;
ghost use Rattle.pv_denote.specs.Denote.{operand, num_of};
ghost use Rattle.pv_denote.specs.Words.{word_of};
ghost use Rattle.pv_pattern.specs.Instances.{fold_of, kind_type};

use pv_denote::{Operands, Word, gives, takes};
use pv_value::{JType, Kind, Num, ScalarOp, read_field_type, scalar};

// The number of a word.
fn operand(word: Word, n: Num) -> Option<i64>
    ensures number { result ≡ operand (word_of word) (val.Num n) }
    ensures range { IfSome result (λ k. IsOfWord (word_of word) k) }
{
    match (word, n) {
        (Word::Int, Num::Int(n)) => Some(i64::from(n)),
        (Word::Long, Num::Long(n)) => Some(n),
        _ => None,
    }
}

fn num_of(word: Word, n: i64) -> Num
    requires { IsOfWord (word_of word) n }
    ensures { result ≡ num_of (word_of word) n }
{
    match word {
        Word::Int => Num::Int(n as i32),
        Word::Long => Num::Long(n),
    }
}

// The constant that an operation on one number gives.
fn fold1(op: ScalarOp, word: Word, a: Num) -> Option<Num>
    requires { takes op ≡ word_of word ∷ [] }
    ensures { result ≡ fold_of op (a ∷ []) }
{
    let n = scalar(op, operand(word, a)?, 0);
    Some(num_of(gives(op), n))
}

// The constant that an operation on two numbers gives.
fn fold2(op: ScalarOp, words: (Word, Word), a: Num, b: Num) -> Option<Num>
    requires { takes op ≡ word_of words.0 ∷ word_of words.1 ∷ [] }
    ensures { result ≡ fold_of op (a ∷ b ∷ []) }
{
    let first = operand(words.0, a)?;
    let second = operand(words.1, b)?;
    Some(num_of(gives(op), scalar(op, first, second)))
}

/// The constant that an operation gives over these, if it takes so many of these words.
pub fn folded(op: ScalarOp, numbers: &[Num]) -> Option<Num>
    ensures { result ≡ fold_of op numbers.now }
{
    match (takes(op), numbers) {
        (Operands::One(word), [a]) => fold1(op, word, *a),
        (Operands::Two(first, second), [a, b]) => fold2(op, (first, second), *a, *b),
        _ => None,
    }
}

/// The type of an array's elements; a byte array may be a boolean one.
pub fn kind_type(kind: Kind) -> JType
    ensures { result ≡ kind_type kind }
{
    match kind {
        Kind::Int => JType::I,
        Kind::Long => JType::J,
        Kind::Ref => JType::A,
        Kind::Byte => JType::B,
        Kind::Char => JType::C,
        Kind::Short => JType::S,
    }
}

/// The type of a field with this descriptor.
pub fn field_type(desc: &[u8]) -> Option<JType>
    ensures { result ≡ field_type desc.now }
{
    read_field_type(desc)
}
