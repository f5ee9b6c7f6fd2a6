//! The fold of a decision tree into a graph.

ghost use Rattle.std.specs.Prelude.{◌≡◌, ◌<◌, length, IfOk};
ghost use Rattle.pv_graph.specs.Graphs.{IsGraph};
ghost use Rattle.pv_terms.specs.Terms.{Grows, IsOfSort};
ghost use Rattle.pv_fold.specs.Fold.{IsOrdered, IsMaybeOf, AreAlike, HaveOneSort, HaveOneSortWith, ReadsJoin, ReadsOne, ReadsFold, FoldKeepsSort, JoinKeepsSort, OneKeepsSort};

use pv_decide::TreeNode;
use pv_graph::{Graph, NodeId, Op, OpSort};
use pv_terms::over;
use pv_value::Memory;
use std::alloc::Global;

// What a test gives with these sides: the one side that gives something, the one node of both, or a phi.
fn join(
    alloc: Global,
    g: &mut Graph,
    test: NodeId,
    yes: Option<NodeId>,
    no: Option<NodeId>,
) -> Result<Option<NodeId>, Memory>
    requires graph { IsGraph g.old }
    requires test { IsOfSort g.old test OpSort.I }
    requires sides { AreAlike g.old yes no }
    ensures reads { IfOk result (λ r. ReadsJoin g.old test yes no g.new r) }
    ensures sort { IfOk result (λ r. JoinKeepsSort g.old yes no g.new r) }
    ensures grows { Grows g.old g.new }
{
    let Some(u) = yes else {
        return Ok(no);
    };
    let Some(v) = no else {
        return Ok(yes);
    };
    if u == v {
        return Ok(yes);
    }
    let phi = over(alloc, g, Op::Phi, &[test, u, v])?;
    Ok(Some(phi))
}

// What the node i of a tree gives, where those before it are made.
fn one(
    alloc: Global,
    g: &mut Graph,
    tree: &[TreeNode],
    given: &[NodeId],
    dead: Option<NodeId>,
    made: &[Option<NodeId>],
    i: usize,
) -> Result<Option<NodeId>, Memory>
    requires graph { IsGraph g.old }
    requires ordered { IsOrdered tree.now }
    requires given { length given.now ≡ length tree.now }
    requires sorts { HaveOneSortWith g.old tree.now given.now dead made.now }
    requires count { length made.now ≡ i }
    requires more { i < length tree.now }
    ensures reads { IfOk result (λ r. ReadsOne g.old tree.now given.now dead made.now i g.new r) }
    ensures sort { IfOk result (λ r. OneKeepsSort g.old tree.now given.now dead made.now g.new r) }
    ensures grows { Grows g.old g.new }
{
    match tree[i] {
        TreeNode::Leaf { .. } => Ok(Some(given[i])),
        TreeNode::Test { yes, no, .. } => {
            join(alloc, g, given[i], made[yes as usize], made[no as usize])
        }
        TreeNode::Nothing => Ok(None),
        TreeNode::Dead => Ok(dead),
    }
}

/// What each node of a tree gives, as nodes of a graph, where `given` has what leaves give and the
/// tests, and `dead` is what dead nodes give. All that leaves and dead nodes give is of one sort.
pub fn fold(
    alloc: Global,
    g: &mut Graph,
    tree: &[TreeNode],
    given: &[NodeId],
    dead: Option<NodeId>,
) -> Result<Vec<Option<NodeId>>, Memory>
    requires graph { IsGraph g.old }
    requires ordered { IsOrdered tree.now }
    requires given { length given.now ≡ length tree.now }
    requires sorts { HaveOneSort g.old tree.now given.now dead }
    ensures count { IfOk result (λ made. length made.items ≡ length tree.now) }
    ensures reads { IfOk result (λ made. ReadsFold g.old tree.now given.now dead g.new made.items) }
    ensures sort { IfOk result (λ made. FoldKeepsSort g.old tree.now given.now dead g.new made.items) }
    ensures grows { Grows g.old g.new }
{
    let mut made = Vec::with_capacity(alloc, tree.len())?;
    for i in 0..tree.len() {
        let next = one(alloc, g, tree, given, dead, &made, i)?;
        made.push(next)?;
    }
    Ok(made)
}
