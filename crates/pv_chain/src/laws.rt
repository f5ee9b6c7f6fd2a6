//! Laws of the text of chains, each as the contract of a function that does nothing.

ghost use Rattle.pv_chain.specs.Laws.{FaultsOnce, SpelledOnce};

/// No text is the spelling of two chains.
pub fn law_once()
    ensures { SpelledOnce }
{}

/// A text has one fault at most, and the spelling of a chain has none.
pub fn law_faults()
    ensures { FaultsOnce }
{}
