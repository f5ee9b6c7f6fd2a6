//! Texts cut at a separator.

ghost use Rattle.std.specs.Prelude.{◌≡◌, ◌==◌, IfOk};
ghost use Rattle.std.specs.Option.{option_map};
ghost use Rattle.std.specs.List.{slice_split};
ghost use Rattle.pv_format.specs.Splits.{is_blank, is_feed, body_of, cut};
ghost use Rattle.pv_format.specs.Combinators.{lines};
ghost use Rattle.pv_format.specs.Seen.{texts};

use std::alloc::{AllocError, Global};

/// The words of a line, which blanks separate.
pub fn words_of(alloc: Global, line: &[u8]) -> Result<Vec<&[u8]>, AllocError>
    ensures { IfOk result (λ v. texts v.items ≡ slice_split is_blank line.now) }
{
    line.split(|b| *b == b' ').collect(alloc)
}

// What stands before the last byte, if that is a line feed.
fn body_of(text: &[u8]) -> Option<&[u8]>
    ensures { option_map (λ body. body.now) result ≡ body_of text.now }
{
    text.strip_suffix(b"\n".as_slice())
}

// What stands between the line feeds of a text without its last one.
fn cut_at_feeds(alloc: Global, body: &[u8]) -> Result<Vec<&[u8]>, AllocError>
    ensures { IfOk result (λ v. texts v.items ≡ slice_split is_feed body.now) }
{
    body.split(|b| *b == b'\n').collect(alloc)
}

/// The lines of a text, if its last byte is a line feed.
pub fn lines_of(alloc: Global, text: &[u8]) -> Result<Option<Vec<&[u8]>>, AllocError>
    ensures { IfOk result (λ r. option_map (λ v. texts v.items) r ≡ lines.reads text.now) }
{
    let Some(body) = body_of(text) else {
        return Ok(None);
    };
    Ok(Some(cut_at_feeds(alloc, body)?))
}

/// What stands before the first such byte of a text, and after it.
pub fn cut_at(byte: u8, text: &[u8]) -> Option<(&[u8], &[u8])>
    ensures { option_map (λ p. (p.0.now, p.1.now)) result ≡ cut (λ b. b == byte) text.now }
{
    for (i, b) in text.iter().enumerate() {
        if *b == byte {
            return Some((&text[..i], &text[i + 1..]));
        }
    }
    None
}
