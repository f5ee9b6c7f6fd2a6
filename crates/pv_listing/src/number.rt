//! Numbers of a range as words.

use pv_token::{Int, Number, Token};
use std::alloc::AllocError;

/// A number from 0 to 255.
pub struct Small;

impl Token for Small {
    type Value = u8;

    ghost use Rattle.pv_listing.specs.Words.{u8_token};

    ghost token = { u8_token };

    fn read(word: &[u8]) -> Option<u8> {
        u8::try_from(Number::read(word)?).ok()
    }

    fn push(out: &mut Vec<u8>, value: u8) -> Result<(), AllocError> {
        Number::push(out, u32::from(value))
    }
}

/// A number from 0 to 65535.
pub struct Size;

impl Token for Size {
    type Value = u16;

    ghost use Rattle.pv_listing.specs.Words.{u16_token};

    ghost token = { u16_token };

    fn read(word: &[u8]) -> Option<u16> {
        u16::try_from(Number::read(word)?).ok()
    }

    fn push(out: &mut Vec<u8>, value: u16) -> Result<(), AllocError> {
        Number::push(out, u32::from(value))
    }
}

/// A number from -128 to 127.
pub struct Byte;

impl Token for Byte {
    type Value = i8;

    ghost use Rattle.pv_listing.specs.Words.{byte_token};

    ghost token = { byte_token };

    fn read(word: &[u8]) -> Option<i8> {
        i8::try_from(Int::read(word)?).ok()
    }

    fn push(out: &mut Vec<u8>, value: i8) -> Result<(), AllocError> {
        Int::push(out, i32::from(value))
    }
}

/// A number from -32768 to 32767.
pub struct Short;

impl Token for Short {
    type Value = i16;

    ghost use Rattle.pv_listing.specs.Words.{short_token};

    ghost token = { short_token };

    fn read(word: &[u8]) -> Option<i16> {
        i16::try_from(Int::read(word)?).ok()
    }

    fn push(out: &mut Vec<u8>, value: i16) -> Result<(), AllocError> {
        Int::push(out, i32::from(value))
    }
}
