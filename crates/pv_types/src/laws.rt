//! What telling a fact changes, as the contract of a function that does nothing.

ghost use Rattle.pv_types.specs.Laws.{FitsHolds, IsHolds, OthersStay};

use pv_value::laws::law_calls;

/// After a fact is told it holds, and every other call has the reply that it had: so every other fact is as it was.
pub fn law_told()
    ensures is { IsHolds }
    ensures fits { FitsHolds }
    ensures others { OthersStay }
{
    law_calls();
}
