//! Numbers as words: decimal, without leading zeros, and with `-` before a negative number alone.

ghost use Rattle.std.specs.Prelude.{◌≡◌, ◌++◌, ℕ, ◌<◌, ◌^◌, ℤ, decimal, Some, IfSome, OnOk, FitsSigned};
ghost use Rattle.std.specs.Fmt.{signed_decimal};
ghost use Rattle.std.specs.Int.{w32, w64};

use crate::token::Token;
use itoa::Buffer;
use std::alloc::AllocError;
use std::str;

// The number that the digits of a word write, if that is a u32.
fn u32_in(word: &[u8]) -> Option<u32>
    ensures fits { IfSome result (λ n. n < 2 ^ 32) }
    ensures parsed { (n : ℕ) → n < 2 ^ 32 → word.now ≡ decimal n → result ≡ Some n }
{
    match str::from_utf8(word) {
        Err(_) => None,
        Ok(text) => text.parse::<u32>().ok(),
    }
}

// The number that a word writes, if that is an int.
fn int_in(word: &[u8]) -> Option<i32>
    ensures fits { IfSome result (FitsSigned w32) }
    ensures parsed { (z : ℤ) → FitsSigned w32 z → word.now ≡ signed_decimal z → result ≡ Some z }
{
    match str::from_utf8(word) {
        Err(_) => None,
        Ok(text) => text.parse::<i32>().ok(),
    }
}

// The number that a word writes, if that is a long.
fn long_in(word: &[u8]) -> Option<i64>
    ensures fits { IfSome result (FitsSigned w64) }
    ensures parsed { (z : ℤ) → FitsSigned w64 z → word.now ≡ signed_decimal z → result ≡ Some z }
{
    match str::from_utf8(word) {
        Err(_) => None,
        Ok(text) => text.parse::<i64>().ok(),
    }
}

/// Adds a number at the end, in decimal.
pub fn push_decimal(out: &mut Vec<u8>, n: usize) -> Result<(), AllocError>
    ensures { OnOk result (out.new.items ≡ out.old.items ++ decimal n) }
{
    out.extend_from_slice(Buffer::new().format(n).as_bytes())
}

/// A number from 0 to 4294967295.
pub struct Number;

impl Token for Number {
    type Value = u32;

    ghost use Rattle.pv_token.specs.Tokens.{u32_token};

    ghost token = { u32_token };

    fn read(word: &[u8]) -> Option<u32> {
        let n = u32_in(word)?;
        if Buffer::new().format(n).as_bytes() == word {
            Some(n)
        } else {
            None
        }
    }

    fn push(out: &mut Vec<u8>, value: u32) -> Result<(), AllocError> {
        push_decimal(out, value as usize)
    }
}

/// An int.
pub struct Int;

impl Token for Int {
    type Value = i32;

    ghost use Rattle.pv_token.specs.Tokens.{int_token};

    ghost token = { int_token };

    fn read(word: &[u8]) -> Option<i32> {
        let n = int_in(word)?;
        if Buffer::new().format(n).as_bytes() == word {
            Some(n)
        } else {
            None
        }
    }

    fn push(out: &mut Vec<u8>, value: i32) -> Result<(), AllocError> {
        out.extend_from_slice(Buffer::new().format(value).as_bytes())
    }
}

/// A long.
pub struct Long;

impl Token for Long {
    type Value = i64;

    ghost use Rattle.pv_token.specs.Tokens.{long_token};

    ghost token = { long_token };

    fn read(word: &[u8]) -> Option<i64> {
        let n = long_in(word)?;
        if Buffer::new().format(n).as_bytes() == word {
            Some(n)
        } else {
            None
        }
    }

    fn push(out: &mut Vec<u8>, value: i64) -> Result<(), AllocError> {
        out.extend_from_slice(Buffer::new().format(value).as_bytes())
    }
}
