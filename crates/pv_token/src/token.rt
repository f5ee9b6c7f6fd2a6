//! What can be written as a word.

ghost use Rattle.std.specs.Prelude.{◌≡◌, ◌++◌, OnOk};
ghost use Rattle.pv_format.specs.Formats.{Format};
ghost use Rattle.pv_token.specs.Words.{IsWord};

use std::alloc::AllocError;

/// A way to write values as words.
pub trait Token {
    /// What a word stands for.
    type Value: Copy;

    /// How it is spelled.
    ghost token: { Format IsWord Self.Value };

    /// The value that a word spells.
    fn read(word: &[u8]) -> Option<Self::Value>
        ensures { result ≡ token.reads word.now };

    /// Adds the word at the end.
    fn push(out: &mut Vec<u8>, value: Self::Value) -> Result<(), AllocError>
        ensures { OnOk result (out.new.items ≡ out.old.items ++ token.spells value) };
}
