//! Thetas at iteration 0, and one iteration later.

ghost use Rattle.std.specs.Prelude.{◌≡◌, ℕ, ◌∷◌, [], IfOk};
ghost use Rattle.pv_graph.specs.Calls.{AreNodes, FitsOver};
ghost use Rattle.pv_steps.specs.Steps.{assumed_in};
ghost use Rattle.pv_steps.specs.Right.{Gives};
ghost use Rattle.pv_axioms.specs.Entries.{Instance};
ghost use Rattle.pv_writer.specs.Written.{GoesOn, HasNode, IsFact, States, inside};
ghost use Rattle.pv_explain.specs.Copies.{HasCopy};
ghost use Rattle.pv_explain.specs.Lines.{IsSource};
ghost use Rattle.pv_explain.specs.Iterations.{AreKids, IsNext, IsStart, IsTheta, IsThetaAt, IsUnrolled, IsZero};

use crate::copy::copy_of;
use crate::follow::Equal;
use crate::source::Source;
use pv_graph::{Graph, NodeId, Op};
use pv_steps::{Fact, Reason};
use pv_value::Memory;
use pv_writer::Writer;
use std::alloc::Global;

// The axioms of a theta: at iteration 0 it is its first kid, and one iteration later its second.
const AT_ZERO: u32 = 301;

const ONE_LATER: u32 = 303;

// A theta of a search with its kids, its copy, and what is stated of the copy: it is the copy of the first kid at
// iteration 0, and that of the second one iteration later.
#[derive(Clone, Copy)]
pub(crate) struct Unrolled {
    pub(crate) theta: NodeId,
    pub(crate) first: NodeId,
    pub(crate) second: NodeId,
    pub(crate) copy: NodeId,
    pub(crate) start: Equal,
    pub(crate) next: Equal,
}

// The number 0 of an iteration.
pub(crate) fn zero_node(alloc: Global, writer: &mut Writer) -> Result<NodeId, Memory>
    ensures zero { IfOk result (λ z. IsZero writer.new z) }
    ensures goes { IfOk result (λ z. GoesOn writer.old writer.new) }
{
    let zero = writer.node(alloc, &Op::Zero, &[])?;
    Ok(zero)
}

// A node at iteration 0 of a depth.
fn eval_node(
    alloc: Global,
    writer: &mut Writer,
    depth: u32,
    a: NodeId,
    zero: NodeId,
) -> Result<NodeId, Memory>
    requires kids { AreNodes writer.old.graph (a ∷ zero ∷ []) }
    requires fits { FitsOver writer.old.graph (Op.Eval depth) (a ∷ zero ∷ []) }
    ensures { IfOk result (λ n. HasNode writer.old writer.new (Op.Eval depth) (a ∷ zero ∷ []) n) }
{
    let eval = writer.node(alloc, &Op::Eval(depth), &[a, zero])?;
    Ok(eval)
}

// A node one iteration of a depth later.
fn shift_node(alloc: Global, writer: &mut Writer, depth: u32, a: NodeId) -> Result<NodeId, Memory>
    requires kids { AreNodes writer.old.graph (a ∷ []) }
    requires fits { FitsOver writer.old.graph (Op.Shift depth) (a ∷ []) }
    ensures { IfOk result (λ n. HasNode writer.old writer.new (Op.Shift depth) (a ∷ []) n) }
{
    let shift = writer.node(alloc, &Op::Shift(depth), &[a])?;
    Ok(shift)
}

// States that the sides of an instance over two nodes are equal.
fn axiom_over(
    alloc: Global,
    writer: &mut Writer,
    number: u32,
    left: NodeId,
    right: NodeId,
    a: NodeId,
    b: NodeId,
) -> Result<Fact, Memory>
    requires { Instance writer.old.graph (assumed_in (inside writer.old)) number (a ∷ b ∷ []) left right }
    ensures { IfOk result (λ fact. States writer.old writer.new left right fact) }
{
    let fact = writer.axiom(alloc, number, left, right, &[a, b])?;
    Ok(fact)
}

// States that a theta at iteration 0 is its first kid.
fn start_of(
    alloc: Global,
    writer: &mut Writer,
    depth: u32,
    zero: NodeId,
    x: NodeId,
    a: NodeId,
    b: NodeId,
) -> Result<Equal, Memory>
    requires theta { IsThetaAt writer.old depth x a b }
    requires zero { IsZero writer.old zero }
    ensures start { IfOk result (λ e. IsStart writer.new depth zero x a e) }
    ensures goes { IfOk result (λ e. GoesOn writer.old writer.new) }
{
    let left = eval_node(alloc, writer, depth, x, zero)?;
    let right = eval_node(alloc, writer, depth, a, zero)?;
    let fact = axiom_over(alloc, writer, AT_ZERO, left, right, a, b)?;
    Ok(Equal { left, right, fact })
}

// States that a theta one iteration later is its second kid.
fn next_of(
    alloc: Global,
    writer: &mut Writer,
    depth: u32,
    x: NodeId,
    a: NodeId,
    b: NodeId,
) -> Result<Equal, Memory>
    requires { IsThetaAt writer.old depth x a b }
    ensures next { IfOk result (λ e. IsNext writer.new depth x b e) }
    ensures goes { IfOk result (λ e. GoesOn writer.old writer.new) }
{
    let left = shift_node(alloc, writer, depth, x)?;
    let fact = axiom_over(alloc, writer, ONE_LATER, left, b, a, b)?;
    Ok(Equal {
        left,
        right: b,
        fact,
    })
}

// The two kids of a theta.
fn theta_kids(graph: &Graph, n: NodeId) -> (NodeId, NodeId)
    requires { (d : ℕ) × IsTheta graph.now.nodes d n }
    ensures { AreKids graph.now.nodes n result.0 result.1 }
{
    let kids = graph.node(n).kids.as_slice();
    (kids[0], kids[1])
}

// States what the copy of a theta is at iteration 0, and one iteration later.
pub(crate) fn unroll(
    alloc: Global,
    writer: &mut Writer,
    source: &Source,
    depth: u32,
    zero: NodeId,
    theta: NodeId,
) -> Result<Unrolled, Memory>
    requires source { IsSource writer.old source.now }
    requires theta { IsTheta source.now.graph.now.nodes depth theta }
    requires copy { HasCopy source.now.map.now theta }
    requires zero { IsZero writer.old zero }
    ensures unrolled { IfOk result (λ u. IsUnrolled writer.new source.now depth zero theta u) }
    ensures goes { IfOk result (λ u. GoesOn writer.old writer.new) }
{
    let (first, second) = theta_kids(source.graph, theta);
    let copy = copy_of(source.map, theta);
    let (a, b) = (copy_of(source.map, first), copy_of(source.map, second));
    let start = start_of(alloc, writer, depth, zero, copy, a, b)?;
    let next = next_of(alloc, writer, depth, copy, a, b)?;
    Ok(Unrolled {
        theta,
        first,
        second,
        copy,
        start,
        next,
    })
}

// Goes on from an equality by a reason: its left node is equal to c, too.
fn gone_to(writer: &mut Writer, so_far: Equal, c: NodeId, why: Reason) -> Result<Fact, Memory>
    requires so_far { IsFact writer.old so_far.fact so_far.left so_far.right }
    requires why { Gives writer.old.before (inside writer.old) [] why so_far.right c }
    ensures fact { IfOk result (λ fact. IsFact writer.new fact so_far.left c) }
    ensures goes { IfOk result (λ fact. GoesOn writer.old writer.new) }
{
    match why {
        Reason::By(fact) => {
            let gone = writer.chain(so_far.left, c, so_far.fact, fact)?;
            Ok(gone)
        }
        _ => Ok(so_far.fact),
    }
}

// States that the left nodes of two equalities are equal, since their right ones are.
pub(crate) fn meet(
    writer: &mut Writer,
    left: Equal,
    right: Equal,
    why: Reason,
) -> Result<Fact, Memory>
    requires left { IsFact writer.old left.fact left.left left.right }
    requires right { IsFact writer.old right.fact right.left right.right }
    requires why { Gives writer.old.before (inside writer.old) [] why left.right right.right }
    ensures fact { IfOk result (λ fact. IsFact writer.new fact left.left right.left) }
    ensures goes { IfOk result (λ fact. GoesOn writer.old writer.new) }
{
    let there = gone_to(writer, left, right.right, why)?;
    let back = writer.flip(right.right, right.left, right.fact)?;
    let fact = writer.chain(left.left, right.left, there, back)?;
    Ok(fact)
}
