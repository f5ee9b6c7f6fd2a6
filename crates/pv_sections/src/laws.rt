//! The law of the certificates that `show` makes, as the contract of a function that does nothing.

ghost use Rattle.pv_sections.specs.Laws.{CertifiedAccepted};

/// Of the certificate that shows a report on two files, each line on its sections says `equivalent`, if it isn't longer than
/// `LONGEST_CERT`.
pub fn law_certified()
    ensures { CertifiedAccepted }
{}
