//! How bytes are written in a line, and the bytes that earlier lines have named.
//!
//! `-` is no bytes. Else bytes are written as parts with `+` between them, each of which may be
//! repeated, as `00*12`. A part is an even number of upper-case hexadecimal digits, a text after `'`,
//! in which `%` and two such digits stand for any byte, or named bytes:
//!
//! | Written | Is |
//! |---|---|
//! | `$one` | what a line `let one BYTES` named |
//! | `$one[7=2C]` | the same with `2C` from place 7 on, in place of what stood there |
//! | `$one[2..7]`, `$one[..7]`, `$one[2..]` | places 2 to 6, the first 7, all from place 2 on |
//!
//! A line `series NAME FROM TO BYTES` names these bytes once for each number from FROM up to TO, without TO,
//! with the number in place of each `#` and the one before it in place of each `@`.

use crate::answers::{Answer, NoAnswer};
use percent_encoding::percent_decode;
use std::alloc::{AllocError, Global};
use std::collections::BTreeMap;
use std::str::FromStr;

/// The named bytes.
#[derive(Drop)]
pub struct Bench {
    alloc: Global,
    named: BTreeMap<String, Vec<u8>>,
}

impl Bench {
    /// With nothing named.
    pub fn new(alloc: Global) -> Bench {
        Bench {
            alloc,
            named: BTreeMap::new(alloc),
        }
    }

    /// The allocator.
    pub fn alloc(&self) -> Global {
        self.alloc
    }

    /// Names bytes.
    pub fn name(&mut self, name: &str, bytes: Vec<u8>) -> Result<(), AllocError> {
        self.named
            .insert(String::from_str(self.alloc, name)?, bytes)?;
        Ok(())
    }

    /// `let NAME BYTES`: how many bytes are named.
    pub fn define(&mut self, rest: &str) -> Answer {
        let (name, text) = rest.split_once(' ').ok_or(NoAnswer::Unreadable)?;
        let bytes = self.bytes(text)?;
        let length = bytes.len();
        self.name(name, bytes)?;
        Ok(format!(in self.alloc; "{length} bytes")?)
    }

    /// `series NAME FROM TO BYTES`: how many bytes are named.
    pub fn define_series(&mut self, rest: &str) -> Answer {
        let words = words(self.alloc, rest)?;
        let [name, from, to, text] = *words.as_slice() else {
            return Err(NoAnswer::Unreadable);
        };
        let once = self.bytes(text)?;
        let mut bytes = Vec::new(self.alloc);
        for n in number::<u32>(from)?..number::<u32>(to)? {
            push_numbered(self.alloc, &mut bytes, &once, n)?;
        }
        let length = bytes.len();
        self.name(name, bytes)?;
        Ok(format!(in self.alloc; "{length} bytes")?)
    }

    /// The bytes that a word writes.
    pub fn bytes(&self, word: &str) -> Result<Vec<u8>, NoAnswer> {
        let mut bytes = Vec::new(self.alloc);
        if word == "-" {
            return Ok(bytes);
        }
        for part in word.split('+') {
            self.push_part(&mut bytes, part)?;
        }
        Ok(bytes)
    }

    // Puts the bytes of a part, as often as it says.
    fn push_part(&self, bytes: &mut Vec<u8>, part: &str) -> Result<(), NoAnswer> {
        let Some((once, times)) = part.split_once('*') else {
            bytes.extend_from_slice(&self.part(part)?)?;
            return Ok(());
        };
        let once = self.part(once)?;
        for _ in 0..number::<u32>(times)? {
            bytes.extend_from_slice(&once)?;
        }
        Ok(())
    }

    // The bytes of a part that isn't repeated.
    fn part(&self, part: &str) -> Result<Vec<u8>, NoAnswer> {
        if let Some(text) = part.strip_prefix('\'') {
            return unescaped(self.alloc, text);
        }
        match part.strip_prefix('$') {
            Some(name) => self.named(name),
            None => hexadecimal(self.alloc, part),
        }
    }

    // Named bytes, whole, with some changed, or some of them.
    fn named(&self, word: &str) -> Result<Vec<u8>, NoAnswer> {
        let Some((name, change)) = word.split_once('[') else {
            return Ok(Vec::from_slice(self.alloc, self.look_up(word)?)?);
        };
        let bytes = self.look_up(name)?;
        let change = change.strip_suffix(']').ok_or(NoAnswer::Unreadable)?;
        if let Some((place, new)) = change.split_once('=') {
            let new = hexadecimal(self.alloc, new)?;
            return replaced(self.alloc, bytes, number(place)?, &new);
        }
        let (from, to) = change.split_once("..").ok_or(NoAnswer::Unreadable)?;
        let from = number_or(from, 0)?;
        let to = number_or(to, bytes.len())?;
        let part = bytes.get(from..to).ok_or(NoAnswer::Unreadable)?;
        Ok(Vec::from_slice(self.alloc, part)?)
    }

    fn look_up(&self, name: &str) -> Result<&[u8], NoAnswer> {
        match self.named.get(name) {
            Some(bytes) => Ok(bytes),
            None => Err(NoAnswer::Unreadable),
        }
    }
}

/// The words of a text.
pub fn words<'a>(alloc: Global, text: &'a str) -> Result<Vec<&'a str>, AllocError> {
    text.split_whitespace().collect(alloc)
}

/// A number in decimal.
pub fn number<T: FromStr>(word: &str) -> Result<T, NoAnswer>
where
    T::Err: Drop,
{
    match word.parse() {
        Ok(n) => Ok(n),
        Err(_) => Err(NoAnswer::Unreadable),
    }
}

/// What a word names in a table.
pub fn named<T: Copy>(table: &[(&str, T)], word: &str) -> Result<T, NoAnswer> {
    for (name, item) in table {
        if *name == word {
            return Ok(*item);
        }
    }
    Err(NoAnswer::Unreadable)
}

// A number, or another where nothing stands.
fn number_or(word: &str, other: usize) -> Result<usize, NoAnswer> {
    if word.is_empty() {
        Ok(other)
    } else {
        number(word)
    }
}

/// The bytes of hexadecimal digits.
pub fn hexadecimal(alloc: Global, digits: &str) -> Result<Vec<u8>, NoAnswer> {
    match hex::decode(alloc, digits) {
        Ok(bytes) => Ok(bytes),
        Err(hex::FromHexError::OutOfMemory) => Err(NoAnswer::Memory),
        Err(_) => Err(NoAnswer::Unreadable),
    }
}

/// The bytes of a text in which `%` and two digits stand for any byte.
pub fn unescaped(alloc: Global, text: &str) -> Result<Vec<u8>, NoAnswer> {
    let mut bytes = Vec::new(alloc);
    percent_decode(text.as_bytes()).append_to(&mut bytes)?;
    Ok(bytes)
}

// Puts bytes with a number in place of each `#`, and the one before it in place of each `@`.
fn push_numbered(alloc: Global, bytes: &mut Vec<u8>, once: &[u8], n: u32) -> Result<(), NoAnswer> {
    let this = format!(in alloc; "{n}")?;
    let before = format!(in alloc; "{}", n.saturating_sub(1))?;
    for byte in once {
        match byte {
            b'#' => bytes.extend_from_slice(this.as_bytes())?,
            b'@' => bytes.extend_from_slice(before.as_bytes())?,
            _ => bytes.push(*byte)?,
        }
    }
    Ok(())
}

// Bytes with new ones from a place on, in place of as many.
fn replaced(alloc: Global, bytes: &[u8], place: usize, new: &[u8]) -> Result<Vec<u8>, NoAnswer> {
    let (Some(front), Some(rest)) = (bytes.get(..place), bytes.get(place..)) else {
        return Err(NoAnswer::Unreadable);
    };
    let after = rest.get(new.len()..).ok_or(NoAnswer::Unreadable)?;
    let mut changed = Vec::from_slice(alloc, front)?;
    changed.extend_from_slice(new)?;
    changed.extend_from_slice(after)?;
    Ok(changed)
}
