//! Numbers as words.

ghost use Rattle.std.specs.Prelude.{◌≡◌, ◌<◌, ◌^◌, ℕ, Some, decimal};
ghost use Rattle.pv_words.specs.Numbers.{ReadsNumber};

use itoa::Buffer;
use pv_token::{Number, Token};

/// The number that a text spells in decimal, where it lies between two bounds.
pub fn number_in(text: &str, least: u32, greatest: u32) -> Option<u32>
    ensures { ReadsNumber least greatest text.now result }
{
    let n = Number::read(text.as_bytes())?;
    if least <= n && n <= greatest {
        Some(n)
    } else {
        None
    }
}

// The number that the digits of a text write, if that is a u64.
fn parsed(text: &str) -> Option<u64>
    ensures { (n : ℕ) → n < 2 ^ 64 → text.now ≡ decimal n → result ≡ Some n }
{
    text.parse::<u64>().ok()
}

/// The u64 that a text spells in decimal.
pub fn u64_in(text: &str) -> Option<u64>
    ensures { ReadsNumber 0 u64.MAX text.now result }
{
    let n = parsed(text)?;
    if Buffer::new().format(n).as_bytes() == text.as_bytes() {
        Some(n)
    } else {
        None
    }
}
