//! The laws of nodes that stand for expressions, each as the contract of a function that does nothing.

ghost use Rattle.pv_terms.specs.Laws.{ReadOnce, StandingReads, GrowthStands, TyingUnfolds, FreeReads};

/// A node stands for one expression, and an expression is read by one node.
pub fn law_once()
    ensures { ReadOnce }
{}

/// A graph in which nodes are added and thetas tied keeps what its nodes stand for, and its names.
pub fn law_stand()
    ensures reads { StandingReads }
    ensures grows { GrowthStands }
{}

/// Once the theta of each name has its kids, a node unfolds as the expression that it stands for.
pub fn law_tying()
    ensures { TyingUnfolds }
{}

/// While a loop is made whose inner loops are tied, its depth is free in a node exactly where it is free in
/// the expression that the node stands for.
pub fn law_free()
    ensures { FreeReads }
{}
