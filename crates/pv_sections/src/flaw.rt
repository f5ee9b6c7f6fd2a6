//! Why a certificate is not one for two files.

use pv_cert::CertFault;
use pv_report::Side;

/// Why a certificate can't be used for two files.
#[derive(Clone, Copy, Debug, PartialEq, Eq)]
pub enum Flaw {
    /// It has more bytes than `LONGEST_CERT`.
    TooLong,
    /// It has no reading.
    Unread(CertFault),
    /// It names another file on this side: by the digest that it has, where the file has the other.
    OtherFile(Side, [u8; 32], [u8; 32]),
}
