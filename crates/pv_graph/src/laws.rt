//! The laws of graphs, each as the contract of a function that does nothing.

ghost use Rattle.pv_graph.specs.Laws.{BasesAreMade, GrowthUnfolds, TieKeeps, CallsKeep, SortsOnce, TieKeepsRule};

/// A graph that keeps its nodes keeps their unfoldings, and one in which a theta is tied keeps those of
/// the nodes from which the theta isn't reached.
pub fn law_growth()
    ensures grows { GrowthUnfolds }
    ensures ties { TieKeeps }
{}

/// A graph without nodes is well made, and adding, beginning a theta and sealing keep a graph well made;
/// the nodes of a base have their sorts in one way.
pub fn law_calls()
    ensures keep { CallsKeep }
    ensures sorts { SortsOnce }
{}

/// A graph stays well made where a theta is tied that its first kid doesn't reach, and the walks from its
/// second kid back to it stay in its depth.
pub fn law_ties()
    ensures { TieKeepsRule }
{}

/// What least graphs need of `of_base`: nodes of which no two unfold equally and whose cycles keep the
/// rule may be a base, and its graph is well made; the sorts of a sealed graph fit its nodes.
pub fn law_bases()
    ensures { BasesAreMade }
{}
