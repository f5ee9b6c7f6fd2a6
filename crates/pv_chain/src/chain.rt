//! Chains, and why a text is not one.

use pv_cert::Cert;
use pv_list::Listed;
use thiserror::Error;

/// Two certificates with the class between them, of which the first is for that class and one before it, and the second for
/// that class and one after it.
#[derive(Debug, Drop)]
pub struct Chain {
    /// The bytes of the class between the two.
    pub middle: Listed<u8>,
    pub first: Cert,
    pub second: Cert,
}

/// Why a text is no chain.
#[derive(Clone, Copy, Debug, PartialEq, Eq, Error)]
pub enum ChainFault {
    /// There is no byte, or the last one is no line feed.
    #[error("truncated")]
    Truncated,
    /// One of the first three lines isn't so spelled, the middle is no class, or fewer lines follow than are said.
    #[error("bad header")]
    Header,
    /// The first certificate has no reading.
    #[error("bad first certificate")]
    First,
    /// The second certificate has no reading.
    #[error("bad second certificate")]
    Second,
    /// There is no memory; this says nothing of the text.
    #[error("out of memory")]
    Memory,
}
