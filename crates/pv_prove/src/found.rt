//! What two searches find of the roots of a least graph.

ghost use Rattle.std.specs.Prelude.{◌≡◌, ◌<◌, zero, IfOk, length, map};
ghost use Rattle.pv_heights.specs.Verdicts.{IsVerdict, Verdict};
ghost use Rattle.pv_pattern.specs.Seen.{axiom_seen};
ghost use Rattle.pv_prove.specs.Finding.{HaveMade, IsShown, MetAreSame, axioms_in, question, verdict_of};
ghost use Rattle.pv_prove.specs.Looking.{Ends, IsLeastGraph};

use crate::outcome::{Limits, Outcome};
use crate::searches::{Searches, Seen};
use pv_alike::Least;
use pv_base::Gate;
use pv_pattern::Axiom;
use pv_pieces::Workers;
use pv_value::Memory;
use std::alloc::Global;
use std::thread::Threads;

/// What two searches ended with, and the searches as they were then.
#[derive(Drop)]
pub struct Found<'a> {
    pub outcome: Outcome,
    pub searches: Searches<'a>,
}

// Looks at both searches and takes them on, until they decide or the rounds are at an end. The last look needs no round.
fn hunt<R: Threads + Sync, G: Gate>(
    workers: &Workers<R, G>,
    alloc: Global,
    least: &Least,
    limits: Limits,
    searches: &mut Searches,
) -> Result<Outcome, Memory>
    requires { HaveMade least.now limits zero searches.old }
    ensures { IfOk result (λ outcome. Ends least.now limits searches.new outcome) }
{
    for k in 0..limits.rounds {
        match searches.look(workers, alloc, least, k)? {
            Seen::Decided(outcome) => return Ok(outcome),
            Seen::Open { plain, other } => searches.go_on(alloc, &plain, &other)?,
        }
    }
    if let Seen::Decided(outcome) = searches.look(workers, alloc, least, limits.rounds)? {
        return Ok(outcome);
    }
    Ok(Outcome::Rounds(limits.rounds))
}

/// What a search finds of the roots of a least graph, by the axioms that the limits name. The outcome is the verdict on them, and there is no other;
/// where the roots met, they have the same values, and the two searches show how they met. It passes the gate as `Search::look` does. Out of memory is the one error.
pub fn find<'a, R: Threads + Sync, G: Gate>(
    workers: &Workers<R, G>,
    alloc: Global,
    least: &Least,
    table: &'a [Axiom],
    limits: Limits,
) -> Result<Found<'a>, Memory>
    requires least { IsLeastGraph least.now.graph }
    requires first { least.now.first < length least.now.graph.nodes }
    requires second { least.now.second < length least.now.graph.nodes }
    requires table { map axiom_seen table.now ≡ axioms_in limits.axioms }
    ensures verdict { IfOk result (λ found. IsVerdict (question least.now limits) (verdict_of found.outcome)) }
    ensures only { IfOk result (λ found. (v : Verdict) → IsVerdict (question least.now limits) v → v ≡ verdict_of found.outcome) }
    ensures same { IfOk result (λ found. MetAreSame least.now found.outcome) }
    ensures shown { IfOk result (λ found. IsShown least.now limits found.searches found.outcome) }
{
    let mut searches = Searches::new(alloc, least, table, limits)?;
    let outcome = hunt(workers, alloc, least, limits, &mut searches)?;
    Ok(Found { outcome, searches })
}
