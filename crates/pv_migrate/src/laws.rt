//! Laws of what is migrated, each as the contract of a function that does nothing.

ghost use Rattle.pv_migrate.specs.Laws.{IsKept, SaidOnce};

/// The text that is placed is read in version 2 as the certificate that the old text is in version 1: nothing of it is lost or changed.
pub fn law_kept()
    ensures { IsKept }
{}

/// Of a text one thing is said, with one status.
pub fn law_once()
    ensures { SaidOnce }
{}
