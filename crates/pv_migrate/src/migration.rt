//! A certificate of version 1 is made one of version 2.

ghost use Rattle.std.specs.Prelude.{◌≡◌, ◌↔◌, IfOk, IsSome};
ghost use Rattle.pv_migrate.specs.Migrated.{migrated_line};
ghost use Rattle.pv_migrate.specs.Reading.{CertFetched, RewritesFetched, SaysFetched};

use pv_cert::{Cert, CertFault, read_cert_1, write_cert};
use pv_report::{Answer, Fetched, Status};
use pv_sections::{Flaw, LONGEST_CERT, bad_certificate};
use pv_token::push_decimal;
use pv_value::Memory;
use std::alloc::{AllocError, Global};

/// What is said of a text, and the text in version 2 of the certificate that it is in version 1, if it is one.
#[derive(Drop)]
pub struct Migration {
    pub answer: Answer,
    pub certificate: Option<Vec<u8>>,
}

/// The text in version 2 of the certificate of version 1 that was fetched, with the same digests and sections and no lemmas, and how many
/// sections it has; or why it is none. The limit of the fetch is `LONGEST_CERT`. Out of memory is the one error.
pub fn migrate(alloc: Global, cert: &Fetched) -> Result<Migration, Memory>
    ensures answer { IfOk result (λ made. SaysFetched cert.now made.answer.text.items made.answer.status) }
    ensures certificate { IfOk result (λ made. RewritesFetched cert.now made.certificate) }
    ensures some { IfOk result (λ made. IsSome made.certificate ↔ (made.answer.status ≡ Status.AllEquivalent)) }
{
    match cert_of(alloc, cert)? {
        Ok(cert) => Ok(Migration {
            answer: migrated(alloc, cert.sections.as_slice().len())?,
            certificate: Some(write_cert(alloc, &cert)?),
        }),
        Err(flaw) => Ok(Migration {
            answer: bad_certificate(alloc, flaw)?,
            certificate: None,
        }),
    }
}

// The certificate of version 1 that was fetched, or why it is none.
fn cert_of(alloc: Global, fetched: &Fetched) -> Result<Result<Cert, Flaw>, Memory>
    ensures { IfOk result (λ read. CertFetched fetched.now read) }
{
    let Fetched::Bytes(text) = fetched else {
        return Ok(Err(Flaw::TooLong));
    };
    if text.len() > LONGEST_CERT {
        return Ok(Err(Flaw::TooLong));
    }
    match read_cert_1(alloc, text) {
        Ok(cert) => Ok(Ok(cert)),
        Err(fault) => match fault {
            CertFault::Memory => Err(Memory),
            fault => Ok(Err(Flaw::Unread(fault))),
        },
    }
}

// What is said where a certificate with so many sections is placed. Out of memory is the one error.
fn migrated(alloc: Global, count: usize) -> Result<Answer, AllocError>
    ensures text { IfOk result (λ answer. answer.text.items ≡ migrated_line count) }
    ensures status { IfOk result (λ answer. answer.status ≡ Status.AllEquivalent) }
{
    let mut text = Vec::from_slice(alloc, b"migrated ")?;
    push_decimal(&mut text, count)?;
    text.extend_from_slice(b" sections\n")?;
    Ok(Answer {
        text,
        status: Status::AllEquivalent,
    })
}
