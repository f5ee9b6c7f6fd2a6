//! Laws of chains that are made and checked, each as the contract of a function that does nothing.

ghost use Rattle.pv_links.specs.Laws.{ComposedEquivalent, EquivalentMeans, ReportedComposed};

/// Where a report on a chain says `equivalent`, the methods of the first and of the last class have the same meaning.
pub fn law_equivalent()
    ensures { EquivalentMeans }
{}

/// Where two certificates have reports, there is a chain of the two; and where these reports say `equivalent` of a method, in the first
/// section that each certificate has for it, so does the report on the chain.
pub fn law_composed()
    ensures composed { ReportedComposed }
    ensures equivalent { ComposedEquivalent }
{}
