//! The laws of what `induct` leaves, each as the contract of a function that does nothing.

ghost use Rattle.pv_closings.specs.Closings.{FirstJoins, InductCongruence, InductJoins};

/// What `induct` leaves is what is joined over the classes that were; over new classes it is what is joined where nothing is given.
pub fn law_induct()
    ensures joins { InductJoins }
    ensures first { FirstJoins }
{}

/// What `induct` leaves is a congruence on the nodes.
pub fn law_congruence()
    ensures { InductCongruence }
{}
