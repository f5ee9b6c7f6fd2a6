//! The law of the conditions of axioms, as the contract of a function that does nothing.

ghost use Rattle.pv_axioms.specs.Entries.{axioms};
ghost use Rattle.pv_witness.specs.Asked.{AskOnce};

/// An axiom asks of each variable one condition on its class at most, and none of one that stands for constants. So an
/// instance has one witness at most to take for a variable.
pub fn law_asked()
    ensures { AskOnce axioms }
{}
