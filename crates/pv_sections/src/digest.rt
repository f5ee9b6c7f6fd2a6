//! The digest of a file.

ghost use Rattle.std.specs.Prelude.{◌≡◌};
ghost use Rattle.sha2.specs.Sha256.{sha256};
ghost use Rattle.pv_sections.specs.Reading.{IsDigestOf};

use pv_report::Fetched;
use sha2::{Digest, Sha256};

// The digest of the bytes that were fetched (FIPS 180-4, SHA-256).
pub(crate) fn digest_of(fetched: &Fetched) -> [u8; 32]
    ensures { IsDigestOf fetched.now result }
{
    match fetched {
        Fetched::Bytes(bytes) => Sha256::digest(bytes.as_slice()),
        Fetched::TooLong => [0; 32],
    }
}
