//! Lines at the front of a text.

ghost use Rattle.std.specs.Prelude.{◌≡◌, ◌↔◌, IsTrue};
ghost use Rattle.std.specs.Option.{option_map};
ghost use Rattle.pv_format.specs.Splits.{body_of};
ghost use Rattle.pv_chain.specs.FedReading.{IsEnded, line_texts, take_lines};

use pv_format::cut_at;

// What stands before the last byte, if that is a line feed.
fn body_of(text: &[u8]) -> Option<&[u8]>
    ensures { option_map (λ body. body.now) result ≡ body_of text.now }
{
    text.strip_suffix(b"\n".as_slice())
}

/// Whether the last byte is a line feed.
pub(crate) fn is_ended(text: &[u8]) -> bool
    ensures { IsTrue result ↔ IsEnded text.now }
{
    body_of(text).is_some()
}

/// The text of so many lines, and the text after them.
pub(crate) fn cut_lines(text: &[u8], count: u32) -> Option<(&[u8], &[u8])>
    ensures { option_map (λ p. (p.0.now, p.1.now)) result ≡ option_map line_texts (take_lines count text.now) }
{
    let mut rest = text;
    for _k in 0..count {
        let (_, after) = cut_at(b'\n', rest)?;
        rest = after;
    }
    Some(text.split_at(text.len() - rest.len()))
}
