//! The axioms of the core in one list.

ghost use Rattle.std.specs.Prelude.{◌≡◌, IfOk, map};
ghost use Rattle.pv_axioms.specs.Entries.{core_axioms};
ghost use Rattle.pv_pattern.specs.Seen.{axiom_seen};

use pv_heapax::heap_axioms;
use pv_loopax::loop_axioms;
use pv_pattern::Axiom;
use pv_scalar::scalar_axioms;
use pv_value::Memory;
use std::alloc::Global;

/// The axioms on numbers, choices and tokens, then those on loops, then those on the heap.
pub(crate) fn core_axioms(alloc: Global) -> Result<Vec<Axiom>, Memory>
    ensures { IfOk result (λ table. map axiom_seen table.items ≡ core_axioms) }
{
    let mut core = scalar_axioms(alloc)?;
    let mut loops = loop_axioms(alloc)?;
    let mut heap = heap_axioms(alloc)?;
    core.append(&mut loops)?;
    core.append(&mut heap)?;
    Ok(core)
}
