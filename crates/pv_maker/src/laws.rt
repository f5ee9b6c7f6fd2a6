//! A law of the classes that are made, as the contract of a function that does nothing.

ghost use Rattle.pv_maker.specs.Classes.{EachIsMade};

/// Each line that is made has a reading where it stands, so there is a class for each seed, each number of methods up to
/// `MOST_MADE` and each choice of twins.
pub fn law_made()
    ensures { EachIsMade }
{}
