//! A match, decoded.

ghost use Rattle.std.specs.Prelude.{◌≡◌, IfOk, map};
ghost use Rattle.pv_axioms.specs.Entries.{NumbersOnce};
ghost use Rattle.pv_instances.specs.Seen.{instance_seen};
ghost use Rattle.pv_match.specs.Reading.{AreReadable};
ghost use Rattle.pv_pattern.specs.Seen.{axiom_seen};
ghost use Rattle.pv_saturate.specs.Decoding.{IsDecoded, ShowsMatch, decoded_seen};
ghost use Rattle.pv_rounds.specs.Decoded.{IsReady};

use pv_instances::Instance;
use pv_match::Match;
use pv_pattern::Axiom;
use pv_saturate::{Decoded, decode};
use pv_value::Memory;
use std::alloc::Global;

// More nodes than a graph has.
const MOST_NODES: usize = 0xFFFF_FFFF;

/// The match as an instance over its classes.
pub(crate) fn instance_of<'a>(m: &'a Decoded) -> Instance<'a>
    ensures { instance_seen result ≡ decoded_seen m.now }
{
    Instance {
        entry: m.entry,
        params: &m.params,
        kids: m.kids,
        vars: m.vars,
    }
}

/// A match, decoded. One with more kids or variables than a graph has nodes is refused as out of memory.
pub(crate) fn decode_one<'a>(
    alloc: Global,
    table: &'a [Axiom],
    found: &'a Match,
) -> Result<Decoded<'a>, Memory>
    requires readable { AreReadable (map axiom_seen table.now) }
    requires once { NumbersOnce (map axiom_seen table.now) }
    requires shown { ShowsMatch (map axiom_seen table.now) found.now }
    ensures ready { IfOk result (λ d. IsReady d) }
    ensures same { IfOk result (λ d. IsDecoded (map axiom_seen table.now) found.now (decoded_seen d)) }
{
    let decoded = decode(alloc, table, found)?;
    if decoded.kids.len() > MOST_NODES || decoded.vars.len() > MOST_NODES {
        return Err(Memory);
    }
    Ok(decoded)
}
