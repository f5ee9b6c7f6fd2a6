//! That the conditions of axioms are needed, as the contract of a function that does nothing.

ghost use Rattle.pv_pattern.specs.Conditions.{NoLaws};

/// Without its condition none of these axioms has its law.
pub fn law_conditions()
    ensures { NoLaws }
{}
