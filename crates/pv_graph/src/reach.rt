//! Which nodes reach some nodes along kids, found from the reached ones back to those that name them.

ghost use Rattle.std.specs.Prelude.{◌≡◌, ◌↔◌, ◌<◌, ◌≤◌, ◌+◌, IsTrue, ℕ, Some, true, not, map, length, slice_get, IfOk, OnOk, vec_len, ◌^◌};
ghost use Rattle.pv_graph.specs.Walks.{In};
ghost use Rattle.pv_graph.specs.Reach.{AllKidsWithin, AreBegun, AreBegunAfter, AreFreeAfter, AreMarked, AreOut, AreReached, AreStarts, AreUses, AreUsesFrom, BeginsOrMeets, Gains, Grows, IsMarked, IsMet, IsUse, KidsWithin, Spreads, begins, follows};

use crate::node::{Node, NodeId, Op};
use std::alloc::{AllocError, Global};

// The place of a kid: in which node, and which of its kids it is.
#[derive(Clone, Copy)]
pub(crate) struct Use {
    pub(crate) node: NodeId,
    pub(crate) place: usize,
}

// What is looked for: the thetas of a depth, or variables, through the kids through which the depth is free; what
// may not end, through all kids; or what gives a sort, through the kids whose sorts are taken.
#[derive(Clone, Copy)]
pub(crate) enum Look {
    Free(u32),
    Variable(u32),
    All,
    Sort,
}

impl Look {
    // Whether a node with this operation is one to be reached.
    fn begins(self, op: &Op) -> bool
        ensures { result ≡ begins self op.now }
    {
        match (self, op) {
            (Look::Free(d), Op::Theta(e)) => *e == d,
            (Look::Variable(_), Op::Var(..)) => true,
            (Look::All, Op::Never | Op::Pass(_) | Op::CallEnd(_) | Op::Var(..)) => true,
            _ => false,
        }
    }

    // Whether the kid at this place counts.
    fn follows(self, op: &Op, place: usize) -> bool
        ensures { result ≡ follows self op.now place }
    {
        match (self, op) {
            (Look::Free(d) | Look::Variable(d), Op::Eval(e)) => *e != d || place != 0,
            (Look::Free(d) | Look::Variable(d), Op::Pass(e)) => *e != d,
            (Look::Sort, Op::Phi) => place == 1,
            (Look::Sort, Op::Theta(_) | Op::Eval(_) | Op::Shift(_)) => place == 0,
            (Look::Sort, _) => false,
            _ => true,
        }
    }
}

// Adds a place of a kid, if the kid is one from `first` on.
fn add_use(uses: &mut Vec<Vec<Use>>, first: usize, kid: NodeId, u: Use) -> Result<(), AllocError>
    requires { kid < first + vec_len uses.old }
    ensures len { vec_len uses.new ≡ vec_len uses.old }
    ensures gains { OnOk result (Gains first uses.old.items uses.new.items kid u) }
{
    let kid = kid as usize;
    if kid < first {
        return Ok(());
    }
    uses[kid - first].push(u)?;
    Ok(())
}

// Adds the places of a node's kids, of those from `first` on.
fn add_uses(
    uses: &mut Vec<Vec<Use>>,
    first: usize,
    node: NodeId,
    kids: &[NodeId],
) -> Result<(), AllocError>
    requires { KidsWithin kids.now (first + vec_len uses.old) }
    ensures len { vec_len uses.new ≡ vec_len uses.old }
    ensures grows { OnOk result (Grows first uses.old.items uses.new.items node kids.now) }
{
    for (place, kid) in kids.iter().enumerate() {
        add_use(uses, first, *kid, Use { node, place })?;
    }
    Ok(())
}

// For each of the nodes from `first` on the places at which it is a kid, in those of these nodes that aren't
// left out.
pub(crate) fn uses_of(
    alloc: Global,
    first: usize,
    nodes: &[Node],
    out: &[bool],
) -> Result<Vec<Vec<Use>>, AllocError>
    requires few { length nodes.now < 2 ^ 32 }
    requires out { length out.now ≡ length nodes.now }
    requires within { AllKidsWithin nodes.now (first + length nodes.now) }
    ensures len { IfOk result (λ uses. vec_len uses ≡ length nodes.now) }
    ensures uses { IfOk result (λ uses. AreUsesFrom first nodes.now out.now uses.items) }
{
    let mut uses = no_uses(alloc, nodes.len())?;
    for (n, node) in nodes.iter().enumerate() {
        if !out[n] {
            add_uses(&mut uses, first, n as NodeId, node.kids.as_slice())?;
        }
    }
    Ok(uses)
}

// No places, for each of `len` nodes.
fn no_uses(alloc: Global, len: usize) -> Result<Vec<Vec<Use>>, AllocError>
    ensures len { IfOk result (λ uses. vec_len uses ≡ len) }
    ensures none { IfOk result (λ uses. (k : ℕ) (u : Use) → IsUse uses.items k u → ⊥) }
{
    let mut uses = Vec::new(alloc);
    for _ in 0..len {
        uses.push(Vec::new(alloc))?;
    }
    Ok(uses)
}

// The numbers of the marked nodes.
fn started(alloc: Global, starts: &[bool]) -> Result<Vec<NodeId>, AllocError>
    requires { length starts.now < 2 ^ 32 }
    ensures { IfOk result (λ work. AreStarts starts.now work.items) }
{
    let mut work = Vec::new(alloc);
    for (n, start) in starts.iter().enumerate() {
        if *start {
            work.push(n as NodeId)?;
        }
    }
    Ok(work)
}

// Marks the nodes that these places are in, and notes those that weren't marked yet.
fn spread(
    nodes: &[Node],
    uses: &[Use],
    look: Look,
    marks: &mut Vec<bool>,
    work: &mut Vec<NodeId>,
) -> Result<(), AllocError>
    requires long { vec_len marks.old ≡ length nodes.now }
    requires within { (u : Use) → In uses.now u → u.node < length nodes.now }
    ensures { OnOk result (Spreads nodes.now look uses.now marks.old.items marks.new.items work.old.items work.new.items) }
{
    for u in uses {
        let n = u.node as usize;
        if !marks[n] && look.follows(&nodes[n].op, u.place) {
            work.push(u.node)?;
            marks[n] = true;
        }
    }
    Ok(())
}

// The nodes that reach a marked one.
pub(crate) fn reaching(
    alloc: Global,
    nodes: &[Node],
    uses: &[Vec<Use>],
    look: Look,
    starts: &[bool],
) -> Result<Vec<bool>, AllocError>
    requires few { length nodes.now < 2 ^ 32 }
    requires starts { length starts.now ≡ length nodes.now }
    requires uses { length uses.now ≡ length nodes.now }
    requires within { (k : ℕ) (u : Use) → IsUse uses.now k u → u.node < length nodes.now }
    ensures { IfOk result (λ marks. AreReached nodes.now uses.now look starts.now marks.items) }
{
    let mut marks = Vec::from_slice(alloc, starts)?;
    let mut work = started(alloc, starts)?;
    while let Some(k) = work.pop() {
        spread(nodes, &uses[k as usize], look, &mut marks, &mut work)?;
    }
    Ok(marks)
}

// The nodes to be reached, but those that are left out.
fn starts_of(
    alloc: Global,
    nodes: &[Node],
    out: &[bool],
    look: Look,
) -> Result<Vec<bool>, AllocError>
    requires { length out.now ≡ length nodes.now }
    ensures { IfOk result (λ starts. AreBegun nodes.now out.now look starts.items) }
{
    let mut starts = Vec::new(alloc);
    for (n, node) in nodes.iter().enumerate() {
        starts.push(!out[n] && look.begins(&node.op))?;
    }
    Ok(starts)
}

// Marks for `len` nodes, of which these are left out.
pub(crate) fn left_out(
    alloc: Global,
    len: usize,
    assumed: &[NodeId],
) -> Result<Vec<bool>, AllocError>
    ensures { IfOk result (λ out. AreOut len assumed.now out.items) }
{
    let mut out = vec![in alloc; false; len]?;
    for n in assumed {
        let n = *n as usize;
        if n < len {
            out[n] = true;
        }
    }
    Ok(out)
}

// The nodes that reach one to be reached, but not through those that are left out.
pub(crate) fn marks_of(
    alloc: Global,
    nodes: &[Node],
    out: &[bool],
    uses: &[Vec<Use>],
    look: Look,
) -> Result<Vec<bool>, AllocError>
    requires few { length nodes.now < 2 ^ 32 }
    requires out { length out.now ≡ length nodes.now }
    requires long { length uses.now ≡ length nodes.now }
    requires uses { AreUses nodes.now out.now uses.now }
    ensures { IfOk result (λ marks. AreMarked nodes.now out.now look marks.items) }
{
    let starts = starts_of(alloc, nodes, out, look)?;
    let marks = reaching(alloc, nodes, uses, look, &starts)?;
    Ok(marks)
}

// The other marks.
pub(crate) fn negated(alloc: Global, marks: &[bool]) -> Result<Vec<bool>, AllocError>
    ensures { IfOk result (λ others. others.items ≡ map not marks.now) }
{
    marks.iter().map(|mark| !*mark).collect(alloc)
}

// Whether a node is one of the first ones, and marked.
fn is_marked(known: &[bool], n: NodeId) -> bool
    ensures { IsTrue result ↔ IsMarked known.now n }
{
    let n = n as usize;
    n < known.len() && known[n]
}

// Whether the kid at this place counts, and is one of the first nodes and marked.
fn is_met_at(known: &[bool], look: Look, op: &Op, place: usize, kid: NodeId) -> bool
    ensures { IsTrue result ↔ (IsMarked known.now kid × (follows look op.now place ≡ true)) }
{
    is_marked(known, kid) && look.follows(op, place)
}

// Whether a kid counts that is one of the first nodes and marked.
fn is_met(known: &[bool], look: Look, op: &Op, kids: &[NodeId]) -> bool
    ensures { IsTrue result ↔ IsMet known.now look op.now kids.now }
{
    for (place, kid) in kids.iter().enumerate() {
        if is_met_at(known, look, op, place, *kid) {
            return true;
        }
    }
    false
}

// Whether a node is to be reached, or has a kid among the first nodes that counts and is marked.
fn is_start(known: &[bool], look: Look, node: &Node) -> bool
    ensures { IsTrue result ↔ BeginsOrMeets known.now look node.now }
{
    look.begins(&node.op) || is_met(known, look, &node.op, node.kids.as_slice())
}

// The nodes to be reached among those after the first ones, and those with a kid among the first ones that counts and
// is marked.
fn starts_after(
    alloc: Global,
    known: &[bool],
    nodes: &[Node],
    look: Look,
) -> Result<Vec<bool>, AllocError>
    ensures { IfOk result (λ starts. AreBegunAfter known.now nodes.now look starts.items) }
{
    let mut starts = Vec::new(alloc);
    for node in nodes {
        starts.push(is_start(known, look, node))?;
    }
    Ok(starts)
}

/// The nodes after the first ones in which a depth is free, where it is known of the first ones. Its time is linear in
/// the number of the nodes after the first ones, and of their kids.
pub(crate) fn free_after(
    alloc: Global,
    nodes: &[Node],
    known: &[bool],
    d: u32,
) -> Result<Vec<bool>, AllocError>
    requires few { length nodes.now < 2 ^ 32 }
    requires within { AllKidsWithin nodes.now (length nodes.now) }
    requires known { length known.now ≤ length nodes.now }
    ensures { IfOk result (λ found. AreFreeAfter nodes.now known.now d found.items) }
{
    let first = known.len();
    let rest = &nodes[first..];
    let out = left_out(alloc, rest.len(), &[])?;
    let uses = uses_of(alloc, first, rest, &out)?;
    let starts = starts_after(alloc, known, rest, Look::Free(d))?;
    let found = reaching(alloc, rest, &uses, Look::Free(d), &starts)?;
    Ok(found)
}
