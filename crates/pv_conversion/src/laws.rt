//! The law of the conversion, as the contract of a function that does nothing.

ghost use Rattle.pv_conversion.specs.Laws.{Conversion};

/// A node that unfolds as the root of a flow's equations has, at every index, the values with which runs
/// of the flow end, and no others. Then the graph may stand for the method.
pub fn law_conversion()
    ensures { Conversion }
{}
