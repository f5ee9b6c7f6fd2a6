//! Laws of the text of certificates, each as the contract of a function that does nothing.

ghost use Rattle.pv_cert.specs.Laws.{SpelledOnce, FaultsOnce, SpelledOrBad};

/// No text is the spelling of two certificates in a version.
pub fn law_once()
    ensures { SpelledOnce }
{}

/// In a version a text has one fault at most, and the spelling of a certificate has none.
pub fn law_faults()
    ensures { FaultsOnce }
{}

/// In a version a text is the spelling of a certificate, or it has a fault.
pub fn law_either()
    ensures { SpelledOrBad }
{}
