//! The first three lines of a chain.

ghost use Rattle.std.specs.Prelude.{◌≡◌, ◌++◌, IfOk, OnOk};
ghost use Rattle.std.specs.Option.{option_map};
ghost use Rattle.pv_format.specs.Seen.{texts};
ghost use Rattle.pv_chain.specs.Digits.{IsMeant};
ghost use Rattle.pv_chain.specs.Fed.{fed};
ghost use Rattle.pv_chain.specs.Heads.{bytes_token, count_text, count_words, head, middle_text, middle_words, version_text};

use hex::FromHexError;
use pv_format::{cut_at, words_of};
use pv_token::{Number, Token, push_decimal};
use pv_value::Memory;
use std::alloc::{AllocError, Global};

// The bytes whose digits a word has, in either case.
fn meant_bytes(alloc: Global, word: &[u8]) -> Result<Option<Vec<u8>>, Memory>
    ensures { IfOk result (λ r. IsMeant word.now (option_map (λ v. v.items) r)) }
{
    match hex::decode(alloc, word) {
        Ok(bytes) => Ok(Some(bytes)),
        Err(fault) => match fault {
            FromHexError::OutOfMemory => Err(Memory),
            _ => Ok(None),
        },
    }
}

// The bytes that a word spells.
fn bytes_in(alloc: Global, word: &[u8]) -> Result<Option<Vec<u8>>, Memory>
    ensures { IfOk result (λ r. option_map (λ v. v.items) r ≡ bytes_token.reads word.now) }
{
    let Some(bytes) = meant_bytes(alloc, word)? else {
        return Ok(None);
    };
    let digits = hex::encode(alloc, bytes.as_slice())?;
    if digits.as_bytes() == word {
        Ok(Some(bytes))
    } else {
        Ok(None)
    }
}

// The middle class, of the words of its line.
fn middle_in<'w>(alloc: Global, words: &'w [&'w [u8]]) -> Result<Option<Vec<u8>>, Memory>
    ensures { IfOk result (λ r. option_map (λ v. v.items) r ≡ middle_words.reads (texts words.now)) }
{
    match words {
        [name, word] => {
            if *name == b"middle".as_slice() {
                bytes_in(alloc, word)
            } else {
                Ok(None)
            }
        }
        _ => Ok(None),
    }
}

// The number of lines, of the words of its line.
fn count_in<'w>(words: &'w [&'w [u8]]) -> Option<u32>
    ensures { result ≡ count_words.reads (texts words.now) }
{
    match words {
        [name, word] => {
            if *name == b"lines".as_slice() {
                Number::read(word)
            } else {
                None
            }
        }
        _ => None,
    }
}

// The text after the version.
fn after_version(text: &[u8]) -> Option<&[u8]>
    ensures { option_map (λ rest. (tt, rest.now)) result ≡ (fed version_text).takes text.now }
{
    let (line, rest) = cut_at(b'\n', text)?;
    if line == b"peggy-chain 1".as_slice() {
        Some(rest)
    } else {
        None
    }
}

// The middle class, and the text after its line.
fn take_middle(alloc: Global, text: &[u8]) -> Result<Option<(Vec<u8>, &[u8])>, Memory>
    ensures { IfOk result (λ r. option_map (λ p. (p.0.items, p.1.now)) r ≡ (fed middle_text).takes text.now) }
{
    let Some((line, rest)) = cut_at(b'\n', text) else {
        return Ok(None);
    };
    let words = words_of(alloc, line)?;
    match middle_in(alloc, &words)? {
        None => Ok(None),
        Some(middle) => Ok(Some((middle, rest))),
    }
}

// The number of lines, and the text after its line.
fn take_count(alloc: Global, text: &[u8]) -> Result<Option<(u32, &[u8])>, Memory>
    ensures { IfOk result (λ r. option_map (λ p. (p.0, p.1.now)) r ≡ (fed count_text).takes text.now) }
{
    let Some((line, rest)) = cut_at(b'\n', text) else {
        return Ok(None);
    };
    let words = words_of(alloc, line)?;
    match count_in(&words) {
        None => Ok(None),
        Some(count) => Ok(Some((count, rest))),
    }
}

/// The middle class and the number of lines of the first certificate, and the text after them.
pub(crate) fn take_head(
    alloc: Global,
    text: &[u8],
) -> Result<Option<((Vec<u8>, u32), &[u8])>, Memory>
    ensures { IfOk result (λ r. option_map (λ p. ((p.0.0.items, p.0.1), p.1.now)) r ≡ head.takes text.now) }
{
    let Some(text) = after_version(text) else {
        return Ok(None);
    };
    let Some((middle, text)) = take_middle(alloc, text)? else {
        return Ok(None);
    };
    let Some((count, text)) = take_count(alloc, text)? else {
        return Ok(None);
    };
    Ok(Some(((middle, count), text)))
}

/// Adds the first three lines.
pub(crate) fn push_head(
    alloc: Global,
    out: &mut Vec<u8>,
    middle: &[u8],
    count: usize,
) -> Result<(), AllocError>
    ensures { OnOk result (out.new.items ≡ out.old.items ++ head.spells (middle.now, count)) }
{
    out.extend_from_slice(b"peggy-chain 1\nmiddle ")?;
    let digits = hex::encode(alloc, middle)?;
    out.extend_from_slice(digits.as_bytes())?;
    out.extend_from_slice(b"\nlines ")?;
    push_decimal(out, count)?;
    out.extend_from_slice(b"\n")?;
    Ok(())
}
