//! Reading single items at the front of bytes.
//!
//! Each function gives the bytes after the item too, and `None` where the bytes end within it.

ghost use Rattle.std.specs.Int.{w8, w16, w32, w64};
ghost use Rattle.pv_format.specs.ByteReading.{Found, number, run};

use byteorder::{BigEndian, ByteOrder};

/// A number of one byte.
#[tactic(auto, unfolding(crate::specs::GrammarReading::read))]
pub fn u8_at(bytes: &[u8]) -> Option<(u8, &[u8])>
    ensures { Found (λ x. (x.0, x.1.now)) result (number w8) bytes.now }
{
    match bytes {
        [number, rest @ ..] => Some((*number, rest)),
        [] => None,
    }
}

/// A number of two bytes, the high one first.
#[tactic(auto, unfolding(crate::specs::GrammarReading::read))]
pub fn u16_at(bytes: &[u8]) -> Option<(u16, &[u8])>
    ensures { Found (λ x. (x.0, x.1.now)) result (number w16) bytes.now }
{
    if bytes.len() < 2 {
        return None;
    }
    Some((BigEndian::read_u16(bytes), &bytes[2..]))
}

/// A number of four bytes, the highest first.
#[tactic(auto, unfolding(crate::specs::GrammarReading::read))]
pub fn u32_at(bytes: &[u8]) -> Option<(u32, &[u8])>
    ensures { Found (λ x. (x.0, x.1.now)) result (number w32) bytes.now }
{
    if bytes.len() < 4 {
        return None;
    }
    Some((BigEndian::read_u32(bytes), &bytes[4..]))
}

/// A number of eight bytes, the highest first.
#[tactic(auto, unfolding(crate::specs::GrammarReading::read))]
pub fn u64_at(bytes: &[u8]) -> Option<(u64, &[u8])>
    ensures { Found (λ x. (x.0, x.1.now)) result (number w64) bytes.now }
{
    if bytes.len() < 8 {
        return None;
    }
    Some((BigEndian::read_u64(bytes), &bytes[8..]))
}

/// A run of `size` bytes.
#[tactic(auto, unfolding(crate::specs::GrammarReading::read))]
pub fn run_at(size: usize, bytes: &[u8]) -> Option<(&[u8], &[u8])>
    ensures { Found (λ x. (x.0.now, x.1.now)) result (run size) bytes.now }
{
    if bytes.len() < size {
        return None;
    }
    Some(bytes.split_at(size))
}
