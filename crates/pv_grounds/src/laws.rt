//! The laws of what joins rest on where a graph grows, and of what they say, each as the contract of a function that does nothing.

ghost use Rattle.pv_grounds.specs.Grounds.{BlockStays, GivenStays, GroundsStay};
ghost use Rattle.pv_grounds.specs.Rounds.{InductKeepsGrounds, NewAreGrounded, OwedHaveGrounds, RoundKeepsGrounds};
ghost use Rattle.pv_grounds.specs.Same.{ClassesSame};

/// What is given in a graph is given in each that grew from it, and joins and blocks that rest on it in the one do so in the other.
pub fn law_grounds_stay()
    ensures given { GivenStays }
    ensures joins { GroundsStay }
    ensures block { BlockStays }
{}

/// All joins of new classes have their grounds, and after `induct` and after a round all have theirs if those before it had; the
/// joins that the round owes have theirs in its new graph.
pub fn law_round()
    ensures new { NewAreGrounded }
    ensures owed { OwedHaveGrounds }
    ensures induct { InductKeepsGrounds }
    ensures round { RoundKeepsGrounds }
{}

/// Nodes of a least graph that a search put into one class have the same values, in each world and for each input in which the nodes
/// that count as ending have values. So no certificate is needed for this.
pub fn law_same()
    ensures { ClassesSame }
{}
