//! The law of a method's outcomes, as the contract of a function that does nothing.

ghost use Rattle.pv_outcomes.specs.Laws.{MethodConverts};

/// A node that unfolds as the root of a method's equations has the outcomes with which the method ends,
/// and no others. Then the graph may stand for the method.
pub fn law_method()
    ensures { MethodConverts }
{}
