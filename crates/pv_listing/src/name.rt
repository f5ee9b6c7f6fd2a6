//! Names, descriptors and labels as words.

ghost use Rattle.std.specs.Prelude.{◌≡◌, IfOk, map};
ghost use Rattle.std.specs.Option.{option_map};
ghost use Rattle.std.specs.List.{list_all};
ghost use Rattle.pv_format.specs.Combinators.{one, each};
ghost use Rattle.pv_format.specs.Seen.{texts};
ghost use Rattle.pv_pool.specs.TextTests.{awaited, is_text_from};
ghost use Rattle.pv_class.specs.Deciding.{is_field_type, is_method_type};
ghost use Rattle.pv_listing.specs.WordReading.{is_name, is_label, is_label_byte};
ghost use Rattle.pv_listing.specs.Words.{name_token, field_token, method_token, label_token};

use pv_list::Listed;
use pv_token::read_shown;
use pv_value::{Memory, Name, read_descriptor, read_field_type};
use std::alloc::Global;

/// The bytes of the longest name, those of the longest Utf8 (JVMS 4.4.7).
const LONGEST_NAME: usize = 65535;

/// How many bytes of a group of modified UTF-8 are still to come after this one (JVMS 4.4.7).
fn awaited(before: u8, byte: u8) -> Option<u8>
    ensures { result ≡ awaited before byte }
{
    match (before, byte) {
        (0, 0x01..=0x7F) => Some(0),
        (0, 0xC0..=0xDF) => Some(1),
        (0, 0xE0..=0xEF) => Some(2),
        (1..=2, 0x80..=0xBF) => Some(before - 1),
        _ => None,
    }
}

/// Whether bytes are groups of modified UTF-8, one after the other.
#[tactic(auto, unfolding(pv_pool::specs::TextTests::is_text_from))]
fn is_text(bytes: &[u8]) -> bool
    ensures { result ≡ is_text_from bytes.now 0 }
{
    let mut before = 0;
    for byte in bytes {
        match awaited(before, *byte) {
            Some(after) => before = after,
            None => return false,
        }
    }
    before == 0
}

/// Whether bytes can be those of a Utf8.
fn is_name(bytes: &[u8]) -> bool
    ensures { result ≡ is_name bytes.now }
{
    bytes.len() <= LONGEST_NAME && is_text(bytes)
}

/// The name that a word shows.
pub fn read_name(alloc: Global, word: &[u8]) -> Result<Option<Name>, Memory>
    ensures { IfOk result (λ r. r ≡ name_token.reads word.now) }
{
    let Some(bytes) = read_shown(alloc, word)? else {
        return Ok(None);
    };
    if is_name(&bytes) {
        Ok(Some(Name::new(alloc, &bytes)?))
    } else {
        Ok(None)
    }
}

fn is_field_type(text: &[u8]) -> bool
    ensures { result ≡ is_field_type text.now }
{
    read_field_type(text).is_some()
}

fn is_method_type(alloc: Global, text: &[u8]) -> Result<bool, Memory>
    ensures { IfOk result (λ is. is ≡ is_method_type text.now) }
{
    Ok(read_descriptor(alloc, text)?.is_some())
}

/// The field descriptor that a word shows (JVMS 4.3.2).
pub fn read_field(alloc: Global, word: &[u8]) -> Result<Option<Name>, Memory>
    ensures { IfOk result (λ r. r ≡ field_token.reads word.now) }
{
    let Some(desc) = read_name(alloc, word)? else {
        return Ok(None);
    };
    if is_field_type(desc.bytes()) {
        Ok(Some(desc))
    } else {
        Ok(None)
    }
}

/// The method descriptor that a word shows (JVMS 4.3.3).
pub fn read_method(alloc: Global, word: &[u8]) -> Result<Option<Name>, Memory>
    ensures { IfOk result (λ r. r ≡ method_token.reads word.now) }
{
    let Some(desc) = read_name(alloc, word)? else {
        return Ok(None);
    };
    if is_method_type(alloc, desc.bytes())? {
        Ok(Some(desc))
    } else {
        Ok(None)
    }
}

/// The name at the front of words, and the words after it.
pub fn take_name<'w>(
    alloc: Global,
    words: &'w [&'w [u8]],
) -> Result<Option<(Name, &'w [&'w [u8]])>, Memory>
    ensures { IfOk result (λ r. option_map (λ p. (p.0, texts p.1.now)) r ≡ (one name_token).takes (texts words.now)) }
{
    match words {
        [] => Ok(None),
        [word, rest @ ..] => match read_name(alloc, word)? {
            None => Ok(None),
            Some(name) => Ok(Some((name, rest))),
        },
    }
}

// An ASCII letter or digit.
fn is_label_byte(byte: u8) -> bool
    ensures { result ≡ is_label_byte byte }
{
    matches!(byte, b'0'..=b'9' | b'A'..=b'Z' | b'a'..=b'z')
}

/// The method descriptor at the front of words, and the words after it.
pub fn take_method<'w>(
    alloc: Global,
    words: &'w [&'w [u8]],
) -> Result<Option<(Name, &'w [&'w [u8]])>, Memory>
    ensures { IfOk result (λ r. option_map (λ p. (p.0, texts p.1.now)) r ≡ (one method_token).takes (texts words.now)) }
{
    match words {
        [] => Ok(None),
        [word, rest @ ..] => match read_method(alloc, word)? {
            None => Ok(None),
            Some(desc) => Ok(Some((desc, rest))),
        },
    }
}

/// Whether a word is a label: one or more ASCII letters and digits.
fn is_label(word: &[u8]) -> bool
    ensures { result ≡ is_label word.now }
{
    for byte in word {
        if !is_label_byte(*byte) {
            return false;
        }
    }
    !word.is_empty()
}

/// The label that a word is.
pub fn read_label(alloc: Global, word: &[u8]) -> Result<Option<Name>, Memory>
    ensures { IfOk result (λ r. r ≡ label_token.reads word.now) }
{
    if is_label(word) {
        Ok(Some(Name::new(alloc, word)?))
    } else {
        Ok(None)
    }
}

/// The label at the front of words, and the words after it.
pub fn take_label<'w>(
    alloc: Global,
    words: &'w [&'w [u8]],
) -> Result<Option<(Name, &'w [&'w [u8]])>, Memory>
    ensures { IfOk result (λ r. option_map (λ p. (p.0, texts p.1.now)) r ≡ (one label_token).takes (texts words.now)) }
{
    match words {
        [] => Ok(None),
        [word, rest @ ..] => match read_label(alloc, word)? {
            None => Ok(None),
            Some(label) => Ok(Some((label, rest))),
        },
    }
}

/// All of these words, each as a label.
pub fn read_labels<'w>(alloc: Global, words: &'w [&'w [u8]]) -> Result<Option<Listed<Name>>, Memory>
    ensures { IfOk result (λ r. r ≡ (each label_token).reads (texts words.now)) }
{
    let mut list = Vec::new(alloc);
    for word in words {
        let Some(label) = read_label(alloc, word)? else {
            return Ok(None);
        };
        list.push(label)?;
    }
    Ok(Some(Listed::from(list)))
}
