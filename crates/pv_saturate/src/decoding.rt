//! A match as matching gives it, decoded.

ghost use Rattle.std.specs.Prelude.{◌≡◌, IfOk, MatchOption, map};
ghost use Rattle.pv_graph.specs.Walks.{In};
ghost use Rattle.pv_axioms.specs.Entries.{NumbersOnce};
ghost use Rattle.pv_pattern.specs.Patterns as patterns;
ghost use Rattle.pv_pattern.specs.Seen.{axiom_seen};
ghost use Rattle.pv_match.specs.Reading.{AreReadable};
ghost use Rattle.pv_saturate.specs.Choice.{AreNames};
ghost use Rattle.pv_saturate.specs.Decoding.{IsDecoded, ShowsMatch, decoded_seen};

use crate::left::{family, names_of, variables};
use crate::telling::tell_all;
use pv_graph::NodeId;
use pv_instances::Params;
use pv_match::Match;
use pv_pattern::{Axiom, NameId};
use pv_value::Memory;
use std::alloc::Global;

/// A match, decoded: its axiom, what the names of the left side stand for, these names, each once, and for each kid of its family
/// and for each variable the number of a class, which is a node of it.
#[derive(Drop)]
pub struct Decoded<'a> {
    pub entry: &'a Axiom,
    pub params: Params,
    pub names: Vec<NameId>,
    pub kids: &'a [NodeId],
    pub vars: &'a [NodeId],
}

// The axiom with a number, if there is one.
fn axiom_with(table: &[Axiom], number: u32) -> Option<&Axiom>
    ensures { MatchOption result ((a : patterns.Axiom) → In (map axiom_seen table.now) a → a.number ≡ number → ⊥) (λ a. In (map axiom_seen table.now) (axiom_seen a.now) × (a.now.number ≡ number)) }
{
    for rule in table {
        if rule.number == number {
            return Some(rule);
        }
    }
    None
}

/// Decodes a match of a table: it is the match that was found but for what its left side doesn't name. Only memory can run
/// out.
pub fn decode<'a>(
    alloc: Global,
    table: &'a [Axiom],
    found: &'a Match,
) -> Result<Decoded<'a>, Memory>
    requires readable { AreReadable (map axiom_seen table.now) }
    requires once { NumbersOnce (map axiom_seen table.now) }
    requires shown { ShowsMatch (map axiom_seen table.now) found.now }
    ensures names { IfOk result (λ d. AreNames d.names.items (decoded_seen d)) }
    ensures same { IfOk result (λ d. IsDecoded (map axiom_seen table.now) found.now (decoded_seen d)) }
{
    let Some(entry) = axiom_with(table, found.axiom) else {
        unreachable!()
    };
    let names = names_of(alloc, &entry.left)?;
    let params = tell_all(alloc, family(&entry.left, 0), &names, &found.params)?;
    let count = variables(&entry.left);
    let (kids, vars) = found.classes.split_at(found.classes.len() - count);
    Ok(Decoded {
        entry,
        params,
        names,
        kids,
        vars,
    })
}
