//! Digests as words.

ghost use Rattle.std.specs.Prelude.{◌≡◌, Ok, IfSome, IfNone};
ghost use Rattle.hex.specs.Hex.{encode_lower, decode_sized};

use crate::token::Token;
use std::alloc::AllocError;

// The 32 bytes of which a word has the digits, in either case.
fn digest_in(word: &[u8]) -> Option<[u8; 32]>
    ensures some { IfSome result (λ digest. decode_sized word.now 32 ≡ Ok digest) }
    ensures none { IfNone result ((digest : _) → decode_sized word.now 32 ≡ Ok digest → ⊥) }
{
    let mut digest = [0; 32];
    match hex::decode_to_slice(word, &mut digest) {
        Err(_) => None,
        Ok(()) => Some(digest),
    }
}

// The lower-case digits of a digest.
fn digits_of(digest: [u8; 32]) -> [u8; 64]
    ensures { result ≡ encode_lower digest }
{
    let mut text = [0; 64];
    let _ = hex::encode_to_slice(digest.as_slice(), &mut text);
    text
}

/// 32 bytes.
pub struct Digest;

impl Token for Digest {
    type Value = [u8; 32];

    ghost use Rattle.pv_token.specs.Tokens.{digest_token};

    ghost token = { digest_token };

    fn read(word: &[u8]) -> Option<[u8; 32]> {
        let digest = digest_in(word)?;
        if digits_of(digest).as_slice() == word {
            Some(digest)
        } else {
            None
        }
    }

    fn push(out: &mut Vec<u8>, value: [u8; 32]) -> Result<(), AllocError> {
        out.extend_from_slice(digits_of(value).as_slice())
    }
}
