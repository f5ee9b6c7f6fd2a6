//! The laws of what nodes mean, each as the contract of a function that does nothing.

ghost use Rattle.pv_denote.specs.Laws.{MoreFuel, ValueOnce, ValueMeans, UnfoldsMeans, GrowthKeeps, TieKeeps, NotFree, ClosedValue, SpineValue, ValueSort, SettledValue, CountLow, TreesMean};

/// More fuel keeps a value, and a node has at most one.
pub fn law_value()
    ensures more { MoreFuel }
    ensures once { ValueOnce }
{}

/// The values of a node are exactly those that its operation means over the values of its kids.
pub fn law_means()
    ensures { ValueMeans }
{}

/// Nodes that unfold equally, also in two graphs, have the same values.
pub fn law_unfolds()
    ensures { UnfoldsMeans }
{}

/// A node that has a finite tree has the values of the tree. What a tree's values are, from those of the
/// trees under its operation; it has at most one at an index.
pub fn law_trees()
    ensures { TreesMean }
{}

/// A graph that keeps its nodes keeps their values, and one whose theta is tied keeps the unfoldings
/// and the values of the nodes that don't reach the theta.
pub fn law_growth()
    ensures grows { GrowthKeeps }
    ensures ties { TieKeeps }
{}

/// Where a depth isn't free, the iteration at that depth doesn't matter; a closed node's value is the
/// same at every index; what is on the spine of a token with a value has one.
pub fn law_free()
    ensures free { NotFree }
    ensures closed { ClosedValue }
    ensures spine { SpineValue }
{}

/// A value of a node is one of its sort, in range; and a settled node of a well-made graph has a value
/// at every index.
pub fn law_settled()
    ensures sorts { ValueSort }
    ensures settled { SettledValue }
{}

/// A count is less than the fuel that gives it.
pub fn law_count()
    ensures { CountLow }
{}
