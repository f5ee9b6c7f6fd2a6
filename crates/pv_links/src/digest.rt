//! The bytes that were fetched, and the files that a certificate names.

ghost use Rattle.std.specs.Prelude.{◌↔◌, IsTrue};
ghost use Rattle.pv_links.specs.Flaws.{Names};
ghost use Rattle.pv_links.specs.Made.{HoldsBytes};

use pv_cert::Cert;
use pv_report::Fetched;
use sha2::{Digest, Sha256};

/// The bytes that were fetched; none where there were too many.
pub(crate) fn bytes_of(fetched: &Fetched) -> &[u8]
    ensures { HoldsBytes fetched.now result.now }
{
    match fetched {
        Fetched::Bytes(bytes) => bytes.as_slice(),
        Fetched::TooLong => &[],
    }
}

/// Whether a certificate names the files with these bytes, by their digests (FIPS 180-4, SHA-256).
pub(crate) fn names(cert: &Cert, first: &[u8], second: &[u8]) -> bool
    ensures { IsTrue result ↔ Names cert.now first.now second.now }
{
    cert.first == Sha256::digest(first) && cert.second == Sha256::digest(second)
}
