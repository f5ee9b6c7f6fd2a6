//! The laws of the axioms and of sections that use them, each as the contract of a function that does
//! nothing.

ghost use Rattle.std.specs.Prelude.{◌≡◌, flat_map};
ghost use Rattle.pv_steps.specs.Laws.{AcceptedLeast, AcceptedNotRejected, AcceptedSame, AreSound, RejectedOnce};
ghost use Rattle.pv_axioms.specs.Entries.{AreAxioms, ByAxioms, NumbersOnce, axioms, core_axioms, tables};

/// Each number stands once in the tables.
pub fn law_numbers()
    ensures { NumbersOnce axioms }
{}

/// The tables, one after the other, are the axioms.
pub fn law_tables()
    ensures { flat_map (λ table. table) tables ≡ axioms }
{}

/// The core and all axioms are tables by which a search may go.
pub fn law_core()
    ensures core { AreAxioms core_axioms }
    ensures all { AreAxioms axioms }
{}

/// The axioms are sound.
pub fn law_sound()
    ensures { AreSound ByAxioms }
{}

/// An accepted section makes its two roots the same; and where the graph is the least one of two nodes, it
/// makes these the same.
pub fn law_accepted()
    ensures same { AcceptedSame ByAxioms }
    ensures least { AcceptedLeast ByAxioms }
{}

/// What is accepted isn't rejected, and what is rejected is so with one number.
pub fn law_rejected()
    ensures not_both { AcceptedNotRejected ByAxioms }
    ensures once { RejectedOnce ByAxioms }
{}
