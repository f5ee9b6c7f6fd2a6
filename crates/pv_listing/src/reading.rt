//! Lines are read.

ghost use Rattle.std.specs.Prelude.{◌≡◌, IfOk};
ghost use Rattle.std.specs.Option.{option_map};
ghost use Rattle.std.specs.Str.{bytes_eq};
ghost use Rattle.pv_format.specs.Combinators.{one, exactly, nothing};
ghost use Rattle.pv_format.specs.Seen.{texts};
ghost use Rattle.pv_token.specs.Words.{IsWord};
ghost use Rattle.pv_listing.specs.WordReading.{before_colon, word_as};
ghost use Rattle.pv_listing.specs.declared.line.Line.TheVariants as lines;
ghost use Rattle.pv_listing.specs.Words.{name_token, first_token};
ghost use Rattle.pv_listing.specs.Lines.{title_words, read_by, line_sentence, line_text};

use crate::line::{First, Line, Title};
use crate::mnemonic::{kind_of, opcode_of};
use crate::name::{read_label, read_name, take_method, take_name};
use crate::number::Size;
use crate::operands::{only, read_operands};
use pv_format::words_of;
use pv_token::{Token, take};
use pv_value::Memory;
use std::alloc::{AllocError, Global};

/// Whether a method is static, as a word.
struct Static;

impl Token for Static {
    type Value = bool;

    ghost use Rattle.pv_listing.specs.Lines.{static_token};

    ghost token = { static_token };

    fn read(word: &[u8]) -> Option<bool> {
        if b"static".as_slice() == word {
            Some(true)
        } else if b"instance".as_slice() == word {
            Some(false)
        } else {
            None
        }
    }

    fn push(out: &mut Vec<u8>, value: bool) -> Result<(), AllocError> {
        if value {
            out.extend_from_slice(b"static")
        } else {
            out.extend_from_slice(b"instance")
        }
    }
}

// What stands before the last byte of a word, if that is a colon.
fn before_colon(word: &[u8]) -> Option<&[u8]>
    ensures { option_map (λ front. front.now) result ≡ before_colon word.now }
{
    word.strip_suffix(b":".as_slice())
}

// A word that is no label.
fn word_as(word: &[u8]) -> Option<First>
    ensures { result ≡ word_as word.now }
{
    if word == b"class".as_slice() {
        Some(First::Class)
    } else if word == b"method".as_slice() {
        Some(First::Method)
    } else if word == b"end".as_slice() {
        Some(First::End)
    } else {
        opcode_of(word).map(First::Mnemonic)
    }
}

// What the first word of a line says.
fn read_first(alloc: Global, word: &[u8]) -> Result<Option<First>, Memory>
    ensures { IfOk result (λ r. r ≡ first_token.reads word.now) }
{
    match before_colon(word) {
        Some(label) => Ok(read_label(alloc, label)?.map(First::Label)),
        None => Ok(word_as(word)),
    }
}

// A name alone.
fn only_name<'w>(alloc: Global, words: &'w [&'w [u8]]) -> Result<Option<Line>, Memory>
    ensures { IfOk result (λ r. r ≡ option_map lines.Class ((exactly (one name_token)).reads (texts words.now))) }
{
    match words {
        [word] => Ok(read_name(alloc, word)?.map(Line::Class)),
        _ => Ok(None),
    }
}

// The head of a method.
fn read_title<'w>(alloc: Global, words: &'w [&'w [u8]]) -> Result<Option<Title>, Memory>
    ensures { IfOk result (λ r. r ≡ title_words.reads (texts words.now)) }
{
    let Some((is_static, words)) = take::<Static>(words) else {
        return Ok(None);
    };
    let Some((name, words)) = take_name(alloc, words)? else {
        return Ok(None);
    };
    let Some((desc, words)) = take_method(alloc, words)? else {
        return Ok(None);
    };
    let Some((stack, words)) = take::<Size>(words) else {
        return Ok(None);
    };
    let Some(locals) = only::<Size>(words) else {
        return Ok(None);
    };
    Ok(Some(Title {
        is_static,
        name,
        desc,
        stack,
        locals,
    }))
}

// A line that has no further words.
fn alone<'w>(line: Line, words: &'w [&'w [u8]]) -> Option<Line>
    ensures { result ≡ option_map (λ x. line) ((exactly {P = IsWord} nothing).reads (texts words.now)) }
{
    if words.is_empty() { Some(line) } else { None }
}

// The line whose words after the first these are.
#[tactic(auto, using(crate::specs::Operands::read_kind_is))]
fn read_rest<'w>(alloc: Global, first: First, words: &'w [&'w [u8]]) -> Result<Option<Line>, Memory>
    ensures { IfOk result (λ r. r ≡ read_by first (texts words.now)) }
{
    match first {
        First::Class => only_name(alloc, words),
        First::Method => Ok(read_title(alloc, words)?.map(Line::Method)),
        First::Label(label) => Ok(alone(Line::Label(label), words)),
        First::Mnemonic(op) => Ok(read_operands(alloc, kind_of(op), words)?.map(
            |operands| Line::Instruction(op, operands),
        )),
        First::End => Ok(alone(Line::End, words)),
    }
}

// What the first word says, and the words after it.
fn take_first<'w>(
    alloc: Global,
    words: &'w [&'w [u8]],
) -> Result<Option<(First, &'w [&'w [u8]])>, Memory>
    ensures { IfOk result (λ r. option_map (λ p. (p.0, texts p.1.now)) r ≡ (one first_token).takes (texts words.now)) }
{
    match words {
        [] => Ok(None),
        [word, rest @ ..] => match read_first(alloc, word)? {
            None => Ok(None),
            Some(first) => Ok(Some((first, rest))),
        },
    }
}

// The line of these words.
fn read_words<'w>(alloc: Global, words: &'w [&'w [u8]]) -> Result<Option<Line>, Memory>
    ensures { IfOk result (λ r. r ≡ line_sentence.reads (texts words.now)) }
{
    match take_first(alloc, words)? {
        None => Ok(None),
        Some((first, rest)) => read_rest(alloc, first, rest),
    }
}

/// The line that a text spells, without its line feed.
pub fn read_line(alloc: Global, line: &[u8]) -> Result<Option<Line>, Memory>
    ensures { IfOk result (λ r. r ≡ line_text.reads line.now) }
{
    let words = words_of(alloc, line)?;
    read_words(alloc, &words)
}
