//! Laws of matches, as the contracts of functions that do nothing.

ghost use Rattle.pv_match.specs.All.{Pieces, Starts};
ghost use Rattle.pv_match.specs.AllMatches.{TableIsReadable};
ghost use Rattle.pv_match.specs.Orders.{AreOrdered};
ghost use Rattle.pv_match.specs.Rematching.{AllKnown};

/// A match of an axiom is one that starts at some node.
pub fn law_starts()
    ensures { Starts }
{}

/// The lists of two pieces of the nodes, one after the other, are the list of both.
pub fn law_pieces()
    ensures { Pieces }
{}

/// Matches are in a total order, by axiom, parameters and classes, in which those alone are equal that are one.
pub fn law_order()
    ensures { AreOrdered }
{}

/// The left side of each axiom of all tables is one that is read.
pub fn law_table()
    ensures { TableIsReadable }
{}

/// A list of all matches can be taken over while nothing is touched.
pub fn law_known()
    ensures { AllKnown }
{}
