//! The axioms by which a search goes, in one list.

ghost use Rattle.std.specs.Prelude.{◌≡◌, IfOk, map};
ghost use Rattle.pv_axioms.specs.Entries.{core_axioms};
ghost use Rattle.pv_pattern.specs.Seen.{axiom_seen};
ghost use Rattle.pv_prove.specs.Finding.{axioms_in};

use pv_choiceax::choice_axioms;
use pv_heapax::heap_axioms;
use pv_loopax::loop_axioms;
use pv_pattern::Axiom;
use pv_scalar::scalar_axioms;
use pv_value::Memory;
use std::alloc::Global;

/// A set of axioms by which a search may go.
#[derive(Clone, Copy, Debug, PartialEq, Eq)]
pub enum AxiomSet {
    /// Those on numbers, choices and tokens, on loops and on the heap.
    Core,
    /// Those of the core, and those on operations over choices, on choices under choices, on truths and on conversions.
    All,
}

// The axioms of the core: those on numbers, choices and tokens, then those on loops, then those on the heap.
fn core_axioms(alloc: Global) -> Result<Vec<Axiom>, Memory>
    ensures { IfOk result (λ table. map axiom_seen table.items ≡ core_axioms) }
{
    let mut core = scalar_axioms(alloc)?;
    let mut loops = loop_axioms(alloc)?;
    let mut heap = heap_axioms(alloc)?;
    core.append(&mut loops)?;
    core.append(&mut heap)?;
    Ok(core)
}

/// The axioms of a set. Out of memory is the one error.
pub fn axioms_in(alloc: Global, set: AxiomSet) -> Result<Vec<Axiom>, Memory>
    ensures { IfOk result (λ table. map axiom_seen table.items ≡ axioms_in set) }
{
    let mut core = core_axioms(alloc)?;
    match set {
        AxiomSet::Core => Ok(core),
        AxiomSet::All => {
            let mut choices = choice_axioms(alloc)?;
            core.append(&mut choices)?;
            Ok(core)
        }
    }
}
