//! The operations on numbers.

ghost use Rattle.std.specs.Prelude.{◌≡◌, ◌∷◌, [], IfOk};
ghost use Rattle.pv_value.specs.Operations.{IsOfWord, gives, takes};
ghost use Rattle.pv_denote.specs.Denote.{num_of, operand, scalar_on, scalar_value};
ghost use Rattle.pv_denote.specs.Given.{Gives};
ghost use Rattle.pv_denote.specs.Words.{word_of};

use crate::stop::Stop;
use crate::word::{Operands, Word, gives, takes};
use pv_value::{Num, ScalarOp, Val, scalar};

/// A number of a word.
fn operand(word: Word, v: &Val) -> Result<i64, Stop>
    ensures number { Gives result (operand (word_of word) v.now) }
    ensures range { IfOk result (λ n. IsOfWord (word_of word) n) }
{
    match (word, v) {
        (Word::Int, Val::Num(Num::Int(n))) => Ok(i64::from(*n)),
        (Word::Long, Val::Num(Num::Long(n))) => Ok(*n),
        _ => Err(Stop::NoValue),
    }
}

fn num_of(word: Word, n: i64) -> Num
    requires { IsOfWord (word_of word) n }
    ensures { result ≡ num_of (word_of word) n }
{
    match word {
        Word::Int => Num::Int(n as i32),
        Word::Long => Num::Long(n),
    }
}

/// The value of an operation over two operands.
fn binary(op: ScalarOp, words: (Word, Word), u: &Val, v: &Val) -> Result<i64, Stop>
    requires { takes op ≡ word_of words.0 ∷ word_of words.1 ∷ [] }
    ensures number { Gives result (scalar_on op (takes op) (u.now ∷ v.now ∷ [])) }
    ensures range { IfOk result (λ n. IsOfWord (gives op) n) }
{
    let first = operand(words.0, u)?;
    let second = operand(words.1, v)?;
    Ok(scalar(op, first, second))
}

/// The value of an operation over exactly its operands.
fn scalar_on(op: ScalarOp, values: &[Val]) -> Result<i64, Stop>
    ensures number { Gives result (scalar_on op (takes op) values.now) }
    ensures range { IfOk result (λ n. IsOfWord (gives op) n) }
{
    match (takes(op), values) {
        (Operands::One(word), [v]) => Ok(scalar(op, operand(word, v)?, 0)),
        (Operands::Two(first, second), [u, v]) => binary(op, (first, second), u, v),
        _ => Err(Stop::NoValue),
    }
}

/// The value of an operation on numbers.
pub fn scalar_value(op: ScalarOp, values: &[Val]) -> Result<Val, Stop>
    ensures { Gives result (scalar_value op values.now) }
{
    let n = scalar_on(op, values)?;
    Ok(Val::Num(num_of(gives(op), n)))
}
