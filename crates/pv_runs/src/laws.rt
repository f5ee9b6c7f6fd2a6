//! The law of a method's flow, as the contract of a function that does nothing.

ghost use Rattle.pv_runs.specs.Laws.{MethodRanks};

/// The flow of a method's blocks and loops is ranked, and has finitely many blocks and slots: so the laws
/// of the equations hold for it.
pub fn law_flow()
    ensures { MethodRanks }
{}
