//! Laws of the report on differences, each as the contract of a function that does nothing.

ghost use Rattle.pv_differences.specs.Laws.{DifferencesShow, NeverBoth, RefutedOnce};

use pv_refute::laws::{law_differences, law_tries};

/// Where `differs` is said of a method, it and its partner end with different outcomes in the world of the tries, on the
/// input that is given; so they don't have the same meaning, and no report says `equivalent` of them.
pub fn law_differs()
    ensures show { DifferencesShow }
    ensures never { NeverBoth }
{
    law_tries();
    law_differences();
}

/// The bytes of two files, with the limits, determine what is said of them, and the status.
pub fn law_refuted()
    ensures { RefutedOnce }
{}
