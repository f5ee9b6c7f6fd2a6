//! Laws of tries, each as the contract of a function that does nothing.

ghost use Rattle.pv_value.specs.Worlds.{IsWorld};
ghost use Rattle.pv_refute.specs.Tries.{try_world};
ghost use Rattle.pv_refute.specs.Laws.{ApartInMeaning, TriesFit, TriesShow};

use pv_machine::laws::law_ends_once;
use pv_value::laws::{law_narrowing, law_worlds};

/// The world of the tries is one, and the input of each try fits its descriptor.
pub fn law_tries()
    ensures world { IsWorld try_world }
    ensures inputs { TriesFit }
{
    law_worlds();
    law_narrowing();
}

/// Methods whose programs differ on a try end with different outcomes in that world and on that input, and so they don't
/// have the same meaning.
pub fn law_differences()
    ensures show { TriesShow }
    ensures apart { ApartInMeaning }
{
    law_ends_once();
}
