//! The certificate that was fetched, and whether it names two files.

ghost use Rattle.std.specs.Prelude.{◌≡◌, ◌≢◌, IfOk, MatchOption};
ghost use Rattle.sha2.specs.Sha256.{sha256};
ghost use Rattle.pv_sections.specs.Reading.{CertFetched, IsOther};

use crate::flaw::Flaw;
use pv_cert::{Cert, CertFault, read_cert};
use pv_report::{Fetched, Side};
use pv_value::Memory;
use std::alloc::Global;

/// The longest text of a certificate that is read, in bytes: 64 MiB.
pub const LONGEST_CERT: usize = 67108864;

/// The certificate that was fetched, or why it is none.
pub(crate) fn cert_of(alloc: Global, fetched: &Fetched) -> Result<Result<Cert, Flaw>, Memory>
    ensures { IfOk result (λ read. CertFetched fetched.now read) }
{
    let Fetched::Bytes(text) = fetched else {
        return Ok(Err(Flaw::TooLong));
    };
    if text.len() > LONGEST_CERT {
        return Ok(Err(Flaw::TooLong));
    }
    match read_cert(alloc, text) {
        Ok(cert) => Ok(Ok(cert)),
        Err(fault) => match fault {
            CertFault::Memory => Err(Memory),
            fault => Ok(Err(Flaw::Unread(fault))),
        },
    }
}

/// Why a certificate isn't one for the files with these digests.
pub(crate) fn other_file(cert: &Cert, first: [u8; 32], second: [u8; 32]) -> Option<Flaw>
    ensures { IsOther cert.now first second result }
{
    if cert.first != first {
        return Some(Flaw::OtherFile(Side::First, cert.first, first));
    }
    if cert.second != second {
        return Some(Flaw::OtherFile(Side::Second, cert.second, second));
    }
    None
}
