//! Laws of runs.

ghost use Rattle.pv_machine.specs.Runs.{NeverStuck, EndsOnce, MethodEndsOnce};
ghost use Rattle.pv_machine.specs.Callees.{OverItsOwn, MoreReplies, FinitelyManyReplies, SameOverCallees};

use pv_value::laws::law_calls;

/// A method with typed frames is never stuck but at a call that isn't in the table of its world.
pub fn law_never_stuck()
    ensures { NeverStuck }
{}

/// A run ends in one way, and so does a method of a class.
pub fn law_ends_once()
    ensures run { EndsOnce }
    ensures method { MethodEndsOnce }
{}

/// What holds in worlds, each with finitely many replies, holds of callees that are any partial function.
/// Over a world's own callees runs are those in the world; with more replies a run that ends in a world
/// ends so; over any callees a run ends exactly where it ends so in a world with replies of theirs alone;
/// and methods with the same meaning end in the same way over any callees.
pub fn law_callees()
    ensures own { OverItsOwn }
    ensures more { MoreReplies }
    ensures finite { FinitelyManyReplies }
    ensures same { SameOverCallees }
{
    law_calls();
}
