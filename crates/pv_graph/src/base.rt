//! The sorts of the nodes of a base, in which a node may name later ones.

ghost use Rattle.std.specs.Prelude.{◌≡◌, ◌≢◌, ◌↔◌, ◌<◌, ◌^◌, List, Some, length, slice_get, IfOk, IsTrue, MatchOption, vec_len};
ghost use Rattle.pv_graph.specs.Base.{AreAllUses, AreOfSort, AreRanged, AreTaken, AreTakers, Gives, HaveNoSorts, own_sorts, value_sorts};
ghost use Rattle.pv_graph.specs.Calls.{AreSorts, LeavesNoSortOpen};
ghost use Rattle.pv_graph.specs.Graphs.{IsRanged};
ghost use Rattle.pv_graph.specs.Ops.{HasSort};
ghost use Rattle.pv_graph.specs.Reach.{AllKidsWithin, KidsWithin};

use crate::node::{Node, NodeId, Op, OpSort};
use crate::reach::{Look, Use, left_out, reaching, uses_of};
use crate::sort::{own_sort, sort_of, sorts_of};
use pv_value::Memory;
use std::alloc::{AllocError, Global};

// Whether all kids are less than len.
fn are_within(kids: &[NodeId], len: usize) -> bool
    ensures { IsTrue result ↔ KidsWithin kids.now len }
{
    for kid in kids {
        if *kid as usize >= len {
            return false;
        }
    }
    true
}

// Whether the kids of all nodes are nodes.
fn are_all_within(nodes: &[Node]) -> bool
    ensures { IsTrue result ↔ AllKidsWithin nodes.now (length nodes.now) }
{
    for node in nodes {
        if !are_within(node.kids.as_slice(), nodes.len()) {
            return false;
        }
    }
    true
}

// The sorts that the operations of nodes give whatever their kids are.
fn own_sorts(alloc: Global, nodes: &[Node]) -> Result<Vec<Option<OpSort>>, Memory>
    ensures { IfOk result (λ owns. owns.items ≡ own_sorts nodes.now) }
{
    let mut owns = Vec::new(alloc);
    for node in nodes {
        owns.push(own_sort(alloc, &node.op)?)?;
    }
    Ok(owns)
}

// The places of a sort.
fn places_of(alloc: Global, owns: &[Option<OpSort>], sort: OpSort) -> Result<Vec<bool>, AllocError>
    ensures { IfOk result (λ starts. AreOfSort owns.now sort starts.items) }
{
    let mut starts = Vec::new(alloc);
    for own in owns {
        starts.push(*own == Some(sort))?;
    }
    Ok(starts)
}

// The nodes that take a sort, from these uses of nodes.
fn takers(
    alloc: Global,
    nodes: &[Node],
    uses: &[Vec<Use>],
    owns: &[Option<OpSort>],
    sort: OpSort,
) -> Result<Vec<bool>, AllocError>
    requires few { length nodes.now < 2 ^ 32 }
    requires uses { AreAllUses nodes.now uses.now }
    requires owns { owns.now ≡ own_sorts nodes.now }
    ensures { IfOk result (λ marks. AreTakers nodes.now sort marks.items) }
{
    let starts = places_of(alloc, owns, sort)?;
    let marks = reaching(alloc, nodes, uses, Look::Sort, &starts)?;
    Ok(marks)
}

// Gives the marked places this sort.
fn give(sorts: &mut Vec<OpSort>, marks: &[bool], sort: OpSort)
    requires { length marks.now ≡ vec_len sorts.old }
    ensures { Gives sort marks.now sorts.old.items sorts.new.items }
{
    for (n, mark) in marks.iter().enumerate() {
        if *mark {
            sorts[n] = sort;
        }
    }
}

// The sort that each node takes; a root's, where it takes none.
fn taken_sorts(
    alloc: Global,
    nodes: &[Node],
    uses: &[Vec<Use>],
    owns: &[Option<OpSort>],
) -> Result<Vec<OpSort>, AllocError>
    requires few { length nodes.now < 2 ^ 32 }
    requires uses { AreAllUses nodes.now uses.now }
    requires owns { owns.now ≡ own_sorts nodes.now }
    ensures { IfOk result (λ sorts. AreTaken nodes.now value_sorts sorts.items) }
{
    use OpSort::{A, F, H, I, L, N, R, T};
    let mut sorts = vec![in alloc; R; nodes.len()]?;
    for sort in [I, L, A, N, F, T, H] {
        let marks = takers(alloc, nodes, uses, owns, sort)?;
        give(&mut sorts, &marks, sort);
    }
    Ok(sorts)
}

// Whether a node's operation gives this sort over the sorts of its kids.
fn fits(alloc: Global, node: &Node, sort: OpSort, sorts: &Vec<OpSort>) -> Result<bool, Memory>
    requires { KidsWithin node.now.kids (vec_len sorts.now) }
    ensures { IfOk result (λ yes. IsTrue yes ↔ HasSort sorts.now.items node.now.op node.now.kids sort) }
{
    let kids = sorts_of(alloc, sorts, node.kids.as_slice())?;
    let found = sort_of(alloc, &node.op, &kids)?;
    Ok(found == Some(sort))
}

// Whether these sorts fit the nodes.
fn all_fit(alloc: Global, nodes: &[Node], sorts: &Vec<OpSort>) -> Result<bool, Memory>
    requires long { vec_len sorts.now ≡ length nodes.now }
    requires within { AllKidsWithin nodes.now (length nodes.now) }
    ensures { IfOk result (λ yes. IsTrue yes ↔ AreSorts nodes.now sorts.now.items) }
{
    for (n, node) in nodes.iter().enumerate() {
        if !fits(alloc, node, sorts[n], sorts)? {
            return Ok(false);
        }
    }
    Ok(true)
}

// For each node the places at which it is a kid.
fn all_uses(alloc: Global, nodes: &[Node]) -> Result<Vec<Vec<Use>>, AllocError>
    requires few { length nodes.now < 2 ^ 32 }
    requires within { AllKidsWithin nodes.now (length nodes.now) }
    ensures { IfOk result (λ uses. AreAllUses nodes.now uses.items) }
{
    let out = left_out(alloc, nodes.len(), &[])?;
    let uses = uses_of(alloc, 0, nodes, &out)?;
    Ok(uses)
}

/// The sorts of nodes of which each cycle takes the second kid of some theta; `None` where no sorts
/// fit them. Its time is linear in the number of nodes and kids.
pub(crate) fn base_sorts(alloc: Global, nodes: &[Node]) -> Result<Option<Vec<OpSort>>, Memory>
    requires few { length nodes.now < 2 ^ 32 }
    requires cycles { LeavesNoSortOpen nodes.now }
    ensures { IfOk result (λ found. MatchOption found (HaveNoSorts nodes.now) (λ sorts. AreSorts nodes.now sorts.items)) }
{
    if !are_all_within(nodes) {
        return Ok(None);
    }
    let uses = all_uses(alloc, nodes)?;
    let owns = own_sorts(alloc, nodes)?;
    let sorts = taken_sorts(alloc, nodes, &uses, &owns)?;
    if all_fit(alloc, nodes, &sorts)? {
        Ok(Some(sorts))
    } else {
        Ok(None)
    }
}

// A constant is in the range of its sort.
fn see_range(op: &Op)
    ensures { IsRanged op.now }
{
    match op {
        Op::Int(value) => {
            let _value = *value;
        }
        Op::Long(value) => {
            let _value = *value;
        }
        _ => {}
    }
}

/// The constants of nodes are in the ranges of their sorts. It does nothing: their types say so.
pub(crate) fn see_ranges(nodes: &[Node])
    ensures { AreRanged nodes.now }
{
    for node in nodes {
        see_range(&node.op);
    }
}
