//! The chain that was fetched, and its middle class.

ghost use Rattle.std.specs.Prelude.{◌↔◌, IfOk, IsTrue};
ghost use Rattle.pv_chain.specs.Chains.{Fits};
ghost use Rattle.pv_class.specs.ClassFiles.{IsClass};
ghost use Rattle.pv_links.specs.Flaws.{IsBetween};
ghost use Rattle.pv_links.specs.Made.{ChainFetched};

use crate::digest::names;
use crate::flaw::ChainFlaw;
use pv_chain::{Chain, ChainFault, read_chain};
use pv_class::{ClassFault, ClassFile, read_class};
use pv_report::Fetched;
use pv_value::Memory;
use std::alloc::Global;

/// The longest text of a chain that is read, in bytes: 192 MiB.
pub const LONGEST_CHAIN: usize = 201326592;

/// The chain that was fetched, or why it is none.
pub(crate) fn chain_in(alloc: Global, fetched: &Fetched) -> Result<Result<Chain, ChainFlaw>, Memory>
    ensures reads { IfOk result (λ read. ChainFetched fetched.now read) }
    ensures fits { IfOk result (λ read. IfOk read (λ chain. Fits chain)) }
{
    let Fetched::Bytes(text) = fetched else {
        return Ok(Err(ChainFlaw::TooLong));
    };
    if text.len() > LONGEST_CHAIN {
        return Ok(Err(ChainFlaw::TooLong));
    }
    match read_chain(alloc, text) {
        Ok(chain) => Ok(Ok(chain)),
        Err(fault) => match fault {
            ChainFault::Memory => Err(Memory),
            fault => Ok(Err(ChainFlaw::Unread(fault))),
        },
    }
}

/// Whether each certificate of a chain names the files between which it stands.
pub(crate) fn is_between(chain: &Chain, first: &[u8], last: &[u8]) -> bool
    ensures { IsTrue result ↔ IsBetween chain.now first.now last.now }
{
    let middle = chain.middle.as_slice();
    names(&chain.first, first, middle) && names(&chain.second, middle, last)
}

/// The middle class of a chain.
pub(crate) fn middle_of(alloc: Global, chain: &Chain) -> Result<ClassFile, Memory>
    requires { Fits chain.now }
    ensures { IfOk result (λ file. IsClass chain.now.middle file) }
{
    match read_class(alloc, chain.middle.as_slice()) {
        Ok(file) => Ok(file),
        Err(fault) => match fault {
            ClassFault::Memory => Err(Memory),
            _ => unreachable!(),
        },
    }
}
