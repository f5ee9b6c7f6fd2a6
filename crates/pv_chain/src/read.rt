//! A chain is read from its text.

ghost use Rattle.std.specs.Prelude.{IfOk};
ghost use Rattle.pv_chain.specs.Answers.{Answers, IsAnswer, Tells};
ghost use Rattle.pv_chain.specs.Reading.{IsCertOr};

use crate::chain::{Chain, ChainFault};
use crate::lines::is_ended;
use crate::parts::parts_in;
use pv_cert::{Cert, CertFault, read_cert};
use pv_list::Listed;
use pv_value::Memory;
use std::alloc::Global;

// The certificate that a text is, if it is one.
fn cert_in(alloc: Global, text: &[u8]) -> Result<Option<Cert>, Memory>
    ensures { IfOk result (λ read. IsCertOr text.now read) }
{
    match read_cert(alloc, text) {
        Ok(cert) => Ok(Some(cert)),
        Err(fault) => match fault {
            CertFault::Memory => Err(Memory),
            _ => Ok(None),
        },
    }
}

// The chain that a text is, or its fault.
fn chain_in(alloc: Global, text: &[u8]) -> Result<Result<Chain, ChainFault>, Memory>
    ensures { IfOk result (λ answer. IsAnswer text.now answer) }
{
    if !is_ended(text) {
        return Ok(Err(ChainFault::Truncated));
    }
    let Some(parts) = parts_in(alloc, text)? else {
        return Ok(Err(ChainFault::Header));
    };
    let Some(first) = cert_in(alloc, parts.first)? else {
        return Ok(Err(ChainFault::First));
    };
    let Some(second) = cert_in(alloc, parts.second)? else {
        return Ok(Err(ChainFault::Second));
    };
    Ok(Ok(Chain {
        middle: Listed::from(parts.middle),
        first,
        second,
    }))
}

/// Reads the text of a chain, front to back.
///
/// The fault is the first of these that holds: the text doesn't end with a line feed; its first three lines aren't those of a
/// chain, the middle is no class, or fewer lines follow than they say; so many lines are no certificate; the rest is none.
pub fn read_chain(alloc: Global, bytes: &[u8]) -> Result<Chain, ChainFault>
    ensures exact { Answers bytes.now result }
    ensures only { Tells bytes.now result }
{
    match chain_in(alloc, bytes) {
        Ok(answer) => answer,
        Err(Memory) => Err(ChainFault::Memory),
    }
}
