//! The words of operations.

ghost use Rattle.std.specs.Prelude.{◌≡◌, IfOk};
ghost use Rattle.std.specs.Option.{option_map};
ghost use Rattle.pv_format.specs.Seen.{texts};
ghost use Rattle.pv_cert.specs.Parameters.{text, sym, argument};
ghost use Rattle.pv_cert.specs.Operations.{params_of, op_phrase};

use crate::table::{Head, HeadWord, KindWord, SortWord};
use pv_graph::{Op, OpSort};
use pv_token::{Int, Long, Number, read_shown, take};
use pv_value::{Memory, Name, Sym};
use std::alloc::Global;

/// The text at the front, and the words after it.
pub fn take_text<'w>(
    alloc: Global,
    words: &'w [&'w [u8]],
) -> Result<Option<(Name, &'w [&'w [u8]])>, Memory>
    ensures { IfOk result (λ r. option_map (λ p. (p.0, texts p.1.now)) r ≡ text.takes (texts words.now)) }
{
    match words {
        [] => Ok(None),
        [word, rest @ ..] => match read_shown(alloc, word)? {
            None => Ok(None),
            Some(bytes) => Ok(Some((Name::new(alloc, &bytes)?, rest))),
        },
    }
}

fn take_sym<'w>(
    alloc: Global,
    words: &'w [&'w [u8]],
) -> Result<Option<(Sym, &'w [&'w [u8]])>, Memory>
    ensures { IfOk result (λ r. option_map (λ p. (p.0, texts p.1.now)) r ≡ sym.takes (texts words.now)) }
{
    let Some((class, words)) = take_text(alloc, words)? else {
        return Ok(None);
    };
    let Some((name, words)) = take_text(alloc, words)? else {
        return Ok(None);
    };
    let Some((desc, words)) = take_text(alloc, words)? else {
        return Ok(None);
    };
    Ok(Some((Sym { class, name, desc }, words)))
}

fn take_argument<'w>(words: &'w [&'w [u8]]) -> Option<((u32, OpSort), &'w [&'w [u8]])>
    ensures { option_map (λ p. (p.0, texts p.1.now)) result ≡ argument.takes (texts words.now) }
{
    let (j, words) = take::<Number>(words)?;
    let (sort, words) = take::<SortWord>(words)?;
    Some(((j, sort), words))
}

// The operation of a name, with the parameters at the front of the words, and the words after them.
fn take_params<'w>(
    alloc: Global,
    head: Head,
    words: &'w [&'w [u8]],
) -> Result<Option<(Op, &'w [&'w [u8]])>, Memory>
    ensures { IfOk result (λ r. option_map (λ p. (p.0, texts p.1.now)) r ≡ params_of head (texts words.now)) }
{
    match head {
        Head::Int => Ok(take::<Int>(words).map(|(n, rest)| (Op::Int(n), rest))),
        Head::Long => Ok(take::<Long>(words).map(|(n, rest)| (Op::Long(n), rest))),
        Head::Null => Ok(Some((Op::Null, words))),
        Head::Literal => Ok(take_text(alloc, words)?.map(|(text, rest)| (Op::Literal(text), rest))),
        Head::Param => Ok(take_argument(words).map(|((j, s), rest)| (Op::Param(j, s), rest))),
        Head::This => Ok(Some((Op::This, words))),
        Head::Heap0 => Ok(Some((Op::Heap0, words))),
        Head::Unit => Ok(Some((Op::Unit, words))),
        Head::Never => Ok(Some((Op::Never, words))),
        Head::Clear => Ok(Some((Op::Clear, words))),
        Head::FNull => Ok(Some((Op::FNull, words))),
        Head::FArith => Ok(Some((Op::FArith, words))),
        Head::FIndex => Ok(Some((Op::FIndex, words))),
        Head::Zero => Ok(Some((Op::Zero, words))),
        Head::Succ => Ok(Some((Op::Succ, words))),
        Head::Thrown => Ok(Some((Op::Thrown, words))),
        Head::IsClear => Ok(Some((Op::IsClear, words))),
        Head::Both => Ok(Some((Op::Both, words))),
        Head::Phi => Ok(Some((Op::Phi, words))),
        Head::Theta => Ok(take::<Number>(words).map(|(d, rest)| (Op::Theta(d), rest))),
        Head::Eval => Ok(take::<Number>(words).map(|(d, rest)| (Op::Eval(d), rest))),
        Head::Pass => Ok(take::<Number>(words).map(|(d, rest)| (Op::Pass(d), rest))),
        Head::Shift => Ok(take::<Number>(words).map(|(d, rest)| (Op::Shift(d), rest))),
        Head::Root => Ok(Some((Op::Root, words))),
        Head::Scalar(op) => Ok(Some((Op::Scalar(op), words))),
        Head::Aeq => Ok(Some((Op::Aeq, words))),
        Head::GetStatic => Ok(take_sym(alloc, words)?.map(|(s, rest)| (Op::GetStatic(s), rest))),
        Head::PutStatic => Ok(take_sym(alloc, words)?.map(|(s, rest)| (Op::PutStatic(s), rest))),
        Head::GetField => Ok(take_sym(alloc, words)?.map(|(s, rest)| (Op::GetField(s), rest))),
        Head::PutField => Ok(take_sym(alloc, words)?.map(|(s, rest)| (Op::PutField(s), rest))),
        Head::Load => Ok(take::<KindWord>(words).map(|(k, rest)| (Op::Load(k), rest))),
        Head::Store => Ok(take::<KindWord>(words).map(|(k, rest)| (Op::Store(k), rest))),
        Head::Length => Ok(Some((Op::Length, words))),
        Head::CallEnd => Ok(take_sym(alloc, words)?.map(|(s, rest)| (Op::CallEnd(s), rest))),
        Head::CallRes => Ok(take_sym(alloc, words)?.map(|(s, rest)| (Op::CallRes(s), rest))),
        Head::CallFault => Ok(take_sym(alloc, words)?.map(|(s, rest)| (Op::CallFault(s), rest))),
        Head::CallHeap => Ok(take_sym(alloc, words)?.map(|(s, rest)| (Op::CallHeap(s), rest))),
        Head::Var => Ok(None),
    }
}

/// The operation at the front, and the words after it.
pub fn take_operation<'w>(
    alloc: Global,
    words: &'w [&'w [u8]],
) -> Result<Option<(Op, &'w [&'w [u8]])>, Memory>
    ensures { IfOk result (λ r. option_map (λ p. (p.0, texts p.1.now)) r ≡ op_phrase.takes (texts words.now)) }
{
    match take::<HeadWord>(words) {
        None => Ok(None),
        Some((head, rest)) => take_params(alloc, head, rest),
    }
}
