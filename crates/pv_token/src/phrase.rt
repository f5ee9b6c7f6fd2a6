//! Words one after the other.

ghost use Rattle.std.specs.Prelude.{◌≡◌, ◌++◌, ◌∷◌, [], ◌<◌, length, map, OnOk, IfOk, IfSome};
ghost use Rattle.std.specs.Option.{option_map};
ghost use Rattle.pv_format.specs.Reading.{take_one, read_each, read_pairs};
ghost use Rattle.pv_format.specs.Combinators.{one, each, each_pair};
ghost use Rattle.pv_format.specs.Seen.{texts};
ghost use Rattle.pv_token.specs.Words.{spaced};

use crate::token::Token;
use std::alloc::{AllocError, Global};

/// The value at the front of words, and the words after it.
pub fn take<'w, T: Token>(words: &'w [&'w [u8]]) -> Option<(T::Value, &'w [&'w [u8]])>
    ensures { option_map (λ p. (p.0, texts p.1.now)) result ≡ (one T.token).takes (texts words.now) }
{
    match words {
        [] => None,
        [word, rest @ ..] => match T::read(word) {
            None => None,
            Some(value) => Some((value, rest)),
        },
    }
}

/// All of these words, each as a value.
pub fn read_each<'w, T: Token>(
    alloc: Global,
    words: &'w [&'w [u8]],
) -> Result<Option<Vec<T::Value>>, AllocError>
    ensures { IfOk result (λ r. option_map (λ v. v.items) r ≡ (each T.token).reads (texts words.now)) }
{
    let mut list = Vec::new(alloc);
    for word in words {
        let Some(value) = T::read(word) else {
            return Ok(None);
        };
        list.push(value)?;
    }
    Ok(Some(list))
}

/// All of these words, two each as a pair.
pub fn read_pairs<'w, T: Token>(
    alloc: Global,
    words: &'w [&'w [u8]],
) -> Result<Option<Vec<(T::Value, T::Value)>>, AllocError>
    ensures { IfOk result (λ r. option_map (λ v. v.items) r ≡ (each_pair T.token).reads (texts words.now)) }
{
    let mut list = Vec::new(alloc);
    let mut rest = words;
    while let [first, second, more @ ..] = rest {
        let (Some(a), Some(b)) = (T::read(first), T::read(second)) else {
            return Ok(None);
        };
        list.push((a, b))?;
        rest = more;
    }
    if rest.is_empty() {
        Ok(Some(list))
    } else {
        Ok(None)
    }
}

/// Adds a word at the end, after a blank.
pub fn push<T: Token>(out: &mut Vec<u8>, value: T::Value) -> Result<(), AllocError>
    ensures { OnOk result (out.new.items ≡ out.old.items ++ spaced (T.token.spells value ∷ [])) }
{
    out.extend_from_slice(b" ")?;
    T::push(out, value)
}

/// Adds words at the end, each after a blank.
pub fn push_each<T: Token>(out: &mut Vec<u8>, list: &[T::Value]) -> Result<(), AllocError>
    ensures { OnOk result (out.new.items ≡ out.old.items ++ spaced ((each T.token).spells list.now)) }
{
    for value in list {
        push::<T>(out, *value)?;
    }
    Ok(())
}

/// Adds pairs of words at the end, each word after a blank.
pub fn push_pairs<T: Token>(
    out: &mut Vec<u8>,
    list: &[(T::Value, T::Value)],
) -> Result<(), AllocError>
    ensures { OnOk result (out.new.items ≡ out.old.items ++ spaced ((each_pair T.token).spells list.now)) }
{
    for pair in list {
        push::<T>(out, pair.0)?;
        push::<T>(out, pair.1)?;
    }
    Ok(())
}
