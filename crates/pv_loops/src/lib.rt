//! Interval reduction of control flow, and the forest of loops.
//!
//! This layer stands on nothing but the standard library. A shape (`specs/Shapes`) has for each node
//! the nodes that its edges go to; node 0 is the entry. `specs/Steps` has the steps T1 and T2 of Hecht
//! and Ullman as what they make of a set of nodes and a set of edges: a shape is reducible where no
//! steps are stuck with two or more nodes. `specs/Loops` has loops by reachability (Allen and Cocke):
//! the largest sets in which each node is reached from each, their headers, and the loops of such a set
//! without the edges to its header.
//!
//! The layer above uses `reduce`. It gives the forest of the loops of a shape (`specs/Forests`): each
//! loop of the definition, once, by ascending header, with its depth, the next loop around it and its
//! nodes, and for each node the innermost loop that has it. `Forest::around` gives the places of all loops
//! around a node, whose headers are `around` of `specs/Ranks`. It hands out an order of the nodes
//! (`specs/Ranks`): each edge leads to a later node, but for edges back to the header of a loop around
//! the node that they leave (`IsOrdered`), and the nodes of a loop stand together, its header first
//! (`IsArranged`). Its clause `ranked` says besides that loops nest along the edges, and that
//! the nodes can be ranked so that edges go on to higher ranks, and on out of a loop to higher ranks
//! than all nodes of the loop have. Where the shape isn't reducible, it gives steps that are stuck, and
//! where loops nest deeper than 16, the depth 17. Out of memory is its one other answer. And the layer
//! above uses these laws:
//!
//! - `law_confluence`: where some steps reduce a shape to one node, no steps are stuck, and the other
//!   way round.
//! - `law_bodies`: in an order that a reduction gives (`specs/Bodies`), the nodes from which an edge
//!   back to a header is reached without passing the header are its loop, and it is an inner loop of
//!   the latest other header around it.
//! - `law_forest`: two forests of one shape have the same loops in the same places, and the same homes.
//! - `law_ranking`: the nodes of a reducible shape can be ranked, whatever made its forest.
//!
//! `reduction` merges groups of nodes, each into the only group with edges into it (`specs/Reductions`),
//! in sweeps over the leaders that are left, in the order that `walk` gives; `groups` has for each node
//! its leader and its place in the list of its group (`specs/Groups`). A group that is merged goes after
//! the one that it is merged into, which keeps the nodes of a group in order. In this order `headers`
//! has the nodes with an edge back to them, and `nest` goes over them (`specs/Nests`): `body` finds
//! the nodes of each backwards from these edges, and the home that the header has by then is the next
//! loop around it. No node is in more than 17 bodies, so they take time in proportion to the edges, but
//! for the sorting of their nodes. `outwards` goes from each node's home outwards (`specs/Outwards`), and
//! `together` sorts the nodes by the places of the headers around them, the outermost first, and then
//! their own (`specs/Keys`). Nothing here recurses.
#![tactic(auto)]

ghost use Rattle.pv_loops.specs.Laws.{Confluence, InnerBodies, OneForest, OutermostBodies, Ranking, ReducesToOne};

mod body;
mod fault;
mod finding;
mod forest;
mod groups;
mod headers;
mod lists;
mod nest;
mod order;
mod outwards;
mod reduction;
mod shape;
mod together;
mod walk;

pub use fault::{LoopFault, TStep};
pub use finding::reduce;
pub use forest::{Forest, Loop, MAX_DEPTH};
pub use shape::Shape;

/// The law of confluence: a shape that some steps reduce to one node has no stuck steps. And where no
/// steps are stuck, some reduce the shape to one node.
pub fn law_confluence()
    ensures confluent { Confluence }
    ensures reduced { ReducesToOne }
{}

/// The laws of bodies: in the order of a reduction, the nodes from which an edge back to a header is
/// reached without passing it are the loop of that header.
pub fn law_bodies()
    ensures outermost { OutermostBodies }
    ensures inner { InnerBodies }
{}

/// The law of forests: the definition has one forest at most for a shape.
pub fn law_forest()
    ensures { OneForest }
{}

/// The law of ranks: the nodes of a reducible shape whose loops nest at most 16 deep can be ranked along
/// its edges, whatever made its forest.
pub fn law_ranking()
    ensures { Ranking }
{}
