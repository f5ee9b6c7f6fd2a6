//! Texts as they are shown.

ghost use Rattle.std.specs.Prelude.{◌≡◌, ◌++◌, ◌<◌, OnOk, IfOk};
ghost use Rattle.std.specs.Option.{option_map};
ghost use Rattle.pv_token.specs.Spellings.{AreBytes, meant_bytes};
ghost use Rattle.pv_token.specs.Tokens.{shown_token};

use percent_encoding::{AsciiSet, CONTROLS, ascii_set, percent_decode, percent_encode};
use std::alloc::{AllocError, Global};

// What doesn't stand for itself: controls, the blank and `%`; bytes outside of ASCII never do.
const ESCAPED: AsciiSet = ascii_set!(CONTROLS.add(b' ').add(b'%'));

/// Adds a text at the end, as it is shown.
pub fn push_shown(alloc: Global, out: &mut Vec<u8>, bytes: &[u8]) -> Result<(), AllocError>
    ensures { OnOk result (out.new.items ≡ out.old.items ++ shown_token.spells bytes.now) }
{
    if bytes.is_empty() {
        return out.extend_from_slice(b"%-");
    }
    let mut text = String::new(alloc);
    percent_encode(bytes, ESCAPED).append_to(&mut text)?;
    out.extend_from_slice(text.as_bytes())?;
    Ok(())
}

// What a word means at most.
fn meant(alloc: Global, word: &[u8]) -> Result<Vec<u8>, AllocError>
    ensures value { IfOk result (λ v. v.items ≡ meant_bytes word.now) }
    ensures bytes { IfOk result (λ v. AreBytes v.items) }
{
    let mut bytes = Vec::new(alloc);
    if word != b"%-".as_slice() {
        percent_decode(word).append_to(&mut bytes)?;
    }
    Ok(bytes)
}

/// The text that a word shows.
pub fn read_shown(alloc: Global, word: &[u8]) -> Result<Option<Vec<u8>>, AllocError>
    ensures { IfOk result (λ r. option_map (λ v. v.items) r ≡ shown_token.reads word.now) }
{
    let bytes = meant(alloc, word)?;
    let mut text = Vec::new(alloc);
    push_shown(alloc, &mut text, &bytes)?;
    if text.as_slice() == word {
        Ok(Some(bytes))
    } else {
        Ok(None)
    }
}
