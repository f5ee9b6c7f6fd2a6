//! Two certificates are made a chain.

ghost use Rattle.std.specs.Prelude.{◌≡◌, ◌↔◌, IfOk, IsSome};
ghost use Rattle.pv_token.specs.Spellings.{AreBytes};
ghost use Rattle.pv_links.specs.Made.{CertFetched, CertsFetched, IsJoined, MadeFetched};
ghost use Rattle.pv_links.specs.Reading.{ChainsFetched, ComposesFetched};

use crate::classes::{BadStage, first_bad};
use crate::digest::{bytes_of, names};
use crate::flaw::{BadLink, TextFlaw};
use crate::line::{bad_link, bad_stage, composed};
use pv_cert::{Cert, CertFault, read_cert};
use pv_chain::{Chain, write_chain};
use pv_list::Listed;
use pv_report::{Answer, Fetched, Side, Status};
use pv_sections::LONGEST_CERT;
use pv_value::Memory;
use std::alloc::Global;

/// What is said of three files and of two certificates between them, and the text of the chain that they make, if they do.
#[derive(Drop)]
pub struct Composition {
    pub answer: Answer,
    pub chain: Option<Vec<u8>>,
}

/// Why there is no chain.
#[derive(Clone, Copy)]
enum Refusal {
    /// One of the files is no class.
    Class(BadStage),
    /// The certificates are no links between the files.
    Link(BadLink),
}

// The certificate that was fetched, or why it is none.
fn cert_in(alloc: Global, fetched: &Fetched) -> Result<Result<Cert, TextFlaw>, Memory>
    ensures { IfOk result (λ read. CertFetched fetched.now read) }
{
    let Fetched::Bytes(text) = fetched else {
        return Ok(Err(TextFlaw::TooLong));
    };
    if text.len() > LONGEST_CERT {
        return Ok(Err(TextFlaw::TooLong));
    }
    match read_cert(alloc, text) {
        Ok(cert) => Ok(Ok(cert)),
        Err(fault) => match fault {
            CertFault::Memory => Err(Memory),
            fault => Ok(Err(TextFlaw::Unread(fault))),
        },
    }
}

// The two certificates that were fetched, or why the first of them that is none is none.
fn certs_in(
    alloc: Global,
    one: &Fetched,
    two: &Fetched,
) -> Result<Result<(Cert, Cert), BadLink>, Memory>
    ensures { IfOk result (λ read. CertsFetched one.now two.now read) }
{
    let first = match cert_in(alloc, one)? {
        Ok(cert) => cert,
        Err(flaw) => return Ok(Err(BadLink::Text(Side::First, flaw))),
    };
    let second = match cert_in(alloc, two)? {
        Ok(cert) => cert,
        Err(flaw) => return Ok(Err(BadLink::Text(Side::Second, flaw))),
    };
    Ok(Ok((first, second)))
}

// The chain of a middle class and two certificates for it.
fn joined(alloc: Global, middle: &[u8], first: Cert, second: Cert) -> Result<Vec<u8>, Memory>
    ensures { IfOk result (λ text. IsJoined middle.now first second text.items) }
{
    law_bytes(middle);
    let chain = Chain {
        middle: Listed::from(Vec::from_slice(alloc, middle)?),
        first,
        second,
    };
    write_chain(alloc, &chain)
}

// What a slice of bytes holds are bytes: a law, for its caller's proof.
fn law_bytes(bytes: &[u8])
    ensures { AreBytes bytes.now }
{}

// The chain of what was fetched, or why there is none.
fn chain_for(
    alloc: Global,
    first: &Fetched,
    second: &Fetched,
    third: &Fetched,
    one: &Fetched,
    two: &Fetched,
) -> Result<Result<Vec<u8>, Refusal>, Memory>
    ensures { IfOk result (λ made. MadeFetched first.now second.now third.now one.now two.now made) }
{
    if let Some(bad) = first_bad(alloc, first, second, third)? {
        return Ok(Err(Refusal::Class(bad)));
    }
    let (one, two) = match certs_in(alloc, one, two)? {
        Ok(certs) => certs,
        Err(bad) => return Ok(Err(Refusal::Link(bad))),
    };
    let (a, b, c) = (bytes_of(first), bytes_of(second), bytes_of(third));
    if !names(&one, a, b) {
        return Ok(Err(Refusal::Link(BadLink::Digest(Side::First))));
    }
    if !names(&two, b, c) {
        return Ok(Err(Refusal::Link(BadLink::Digest(Side::Second))));
    }
    Ok(Ok(joined(alloc, b, one, two)?))
}

/// What is said of three files and of two certificates, of which the first is for the first and the second file, and the second for the
/// second and the third; and the text of the chain that they make, if they do. No section is looked at. The limit of the first three
/// fetches is `LONGEST_FILE`, that of the other two `LONGEST_CERT`. Out of memory is the one error.
pub fn compose(
    alloc: Global,
    first: &Fetched,
    second: &Fetched,
    third: &Fetched,
    one: &Fetched,
    two: &Fetched,
) -> Result<Composition, Memory>
    ensures answer { IfOk result (λ made. ComposesFetched first.now second.now third.now one.now two.now made.answer.text.items made.answer.status) }
    ensures chain { IfOk result (λ made. ChainsFetched first.now second.now third.now one.now two.now made.chain) }
    ensures some { IfOk result (λ made. IsSome made.chain ↔ (made.answer.status ≡ Status.AllEquivalent)) }
{
    match chain_for(alloc, first, second, third, one, two)? {
        Ok(text) => Ok(Composition {
            answer: composed(alloc)?,
            chain: Some(text),
        }),
        Err(Refusal::Class(bad)) => Ok(Composition {
            answer: bad_stage(alloc, bad)?,
            chain: None,
        }),
        Err(Refusal::Link(bad)) => Ok(Composition {
            answer: bad_link(alloc, bad)?,
            chain: None,
        }),
    }
}
