//! Why certificates are no links between classes, and why a chain is none for two files.

use pv_cert::CertFault;
use pv_chain::ChainFault;
use pv_report::Side;

/// Why a text is no certificate that is read.
#[derive(Clone, Copy, Debug, PartialEq, Eq)]
pub enum TextFlaw {
    /// It has more bytes than `LONGEST_CERT`.
    TooLong,
    /// It has no reading.
    Unread(CertFault),
}

/// Why two certificates are no links: one from a first file to a second, and one from there to a third.
#[derive(Clone, Copy, Debug, PartialEq, Eq)]
pub enum BadLink {
    /// The first or the second is no certificate.
    Text(Side, TextFlaw),
    /// The first or the second names other files than the two between which it stands.
    Digest(Side),
}

/// Why a chain can't be used for two files.
#[derive(Clone, Copy, Debug, PartialEq, Eq)]
pub enum ChainFlaw {
    /// It has more bytes than `LONGEST_CHAIN`.
    TooLong,
    /// It has no reading.
    Unread(ChainFault),
    /// One of its certificates names other files than the two between which it stands.
    Digest,
}
