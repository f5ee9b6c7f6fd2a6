//! The laws of least graphs, each as the contract of a function that does nothing.

ghost use Rattle.pv_alike.specs.Laws.{LeastOnce, LeastFewest, RootsOne, LeastKeepsRule, LeastMade, OneSort, SameLeastNodes, SameLeast, NumbersUnfold, SearchFinds, PassesEnd};

/// Two nodes have one least graph; its roots are one number exactly where the nodes unfold equally, and
/// have their values; no graph with nodes that unfold as the roots has fewer nodes; it keeps the rule on
/// cycles, where the graph does; and where the graph is well made, so is the least graph with the sorts
/// of its nodes.
pub fn law_least()
    ensures once { LeastOnce }
    ensures roots { RootsOne }
    ensures fewest { LeastFewest }
    ensures rule { LeastKeepsRule }
    ensures sort { OneSort }
    ensures made { LeastMade }
{}

/// Two nodes of one graph and two of another have one least graph, with one list of sorts, exactly where they
/// are the same two roots: the first two unfold as each other, and so do the second. So what is said of the
/// least graph of two roots doesn't depend on the graph in which they were made.
pub fn law_same_least()
    ensures nodes { SameLeastNodes }
    ensures whole { SameLeast }
{}

/// Nodes have one number in the last pass exactly where they unfold equally, and the search finds the
/// least graph. A pass that doesn't make more classes is the last.
pub fn law_search()
    ensures numbers { NumbersUnfold }
    ensures finds { SearchFinds }
    ensures passes { PassesEnd }
{}
