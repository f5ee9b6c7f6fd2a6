//! The laws of the equations, each as the contract of a function that does nothing.

ghost use Rattle.pv_equations.specs.Laws.{Solvable, Unique, TreesOnce, FreeFound};

/// The equations of a flow with finitely many blocks and slots have a solution, and a node that unfolds as
/// the root of one solution unfolds as the root of each other one.
pub fn law_equations()
    ensures solvable { Solvable }
    ensures unique { Unique }
{}

/// For given values the tree from a block to a target is one, so a tree that is computed from the values
/// by the rules of trees is the tree of the equations.
pub fn law_trees()
    ensures { TreesOnce }
{}

/// The rule on names finds every free depth: a depth that is free in a node of a graph is free in the
/// expression as which the node unfolds, where names are followed only into deeper loops.
pub fn law_free()
    ensures { FreeFound }
{}
