//! A loop is closed when all of its blocks are done: whether it is left is made, and its thetas are tied.

ghost use Rattle.std.specs.Prelude.{◌≡◌, ℕ, ◌<◌, length, IfOk, OnOk, OnErr, slice_get, Some};
ghost use Rattle.std.specs.List.{Contains};
ghost use Rattle.pv_loops.specs.declared.forest.Loop.{Loop};
ghost use Rattle.pv_graph.specs.declared.node.OpSort.TheVariants.{I};
ghost use Rattle.pv_graph.specs.Graphs.{IsGraph};
ghost use Rattle.pv_terms.specs.Terms.{IsOfSort};
ghost use Rattle.pv_build.specs.Slots.{number};
ghost use Rattle.pv_build.specs.Sources.{IsTree, FoldsToOne};
ghost use Rattle.pv_build.specs.Stages.{loops_at, loops_around, IsMethod, IsStage, HasRun, KeepsFirst, StandsAs, GrowsIn};
ghost use Rattle.pv_build.specs.Closings.{dead_at, MayTie, TiesOne, Closing, MayTieAll, AreTied, AllHaveRun, IsOpenAt, TiesLoop};
ghost use Rattle.pv_build.specs.declared.method.Opened.{Opened};

use crate::entering::node_of;
use crate::giving::tree_for;
use crate::method::{Closed, Made, Method, Opened, Stage, Theta};
use crate::slot::Slot;
use crate::source::Given;
use pv_decide::Target;
use pv_graph::{Graph, GraphFault, NodeId, Op};
use pv_terms::over;
use pv_value::Memory;
use std::alloc::Global;

// What a tree gives for a slot from where no end is ahead.
fn dead_for(slot: Slot, never: NodeId) -> Option<NodeId>
    ensures { result ≡ dead_at slot never }
{
    match slot {
        Slot::Token => Some(never),
        Slot::Fault | Slot::Result | Slot::Heap | Slot::Local(_) | Slot::Place(_) => None,
    }
}

// Ties the theta of a slot to its first kid, and to what the slot is where the loop begins again.
fn tie(alloc: Global, g: &mut Graph, again: &Given, never: NodeId, x: Theta) -> Result<(), Memory>
    requires graph { IsGraph g.old }
    requires tree { IsTree again.now.nodes.items }
    requires theta { MayTie g.old again.now never x }
    requires some { FoldsToOne g.old.nodes again.now (number x.slot) (dead_at x.slot never) }
    ensures tied { OnOk result (TiesOne g.old again.now never x g.new) }
    ensures keeps { OnErr result ((start : ℕ) → KeepsFirst start g.old g.new) }
{
    let second = node_of(alloc, g, again, x.slot, dead_for(x.slot, never))?;
    match g.tie(alloc, x.node, x.first, second) {
        Ok(()) => Ok(()),
        Err(GraphFault::Memory) => Err(Memory),
        Err(GraphFault::Sort) => unreachable!(),
    }
}

// Ties all thetas of a loop.
fn tie_all(
    alloc: Global,
    g: &mut Graph,
    again: &Given,
    never: NodeId,
    thetas: &[Theta],
) -> Result<(), Memory>
    requires loop_ { (c : Closing) × MayTieAll c g.old again.now never thetas.now }
    ensures tied { OnOk result ((c : Closing) → MayTieAll c g.old again.now never thetas.now → AreTied c g.old thetas.now (length thetas.now) g.new) }
    ensures keeps { OnErr result ((c : Closing) → MayTieAll c g.old again.now never thetas.now → KeepsFirst c.base g.old g.new) }
{
    for x in thetas {
        tie(alloc, g, again, never, *x)?;
    }
    Ok(())
}

// What was opened where a loop was begun that is open.
fn opened_at(made: &Made, i: u32) -> &Opened
    requires { (o : Opened) × IsOpenAt made.now i o }
    ensures { IsOpenAt made.now i result.now }
{
    match &made.loops[i as usize] {
        Stage::Open(opened) => opened,
        Stage::Ahead | Stage::Closed(_) => unreachable!(),
    }
}

// Ties all thetas of an open loop; gives the token with which it is entered.
fn tie_loop(
    alloc: Global,
    g: &mut Graph,
    method: &Method,
    made: &Made,
    i: u32,
) -> Result<NodeId, Memory>
    requires method { IsMethod method.now }
    requires loop_ { i < length method.now.forest.now.loops.items }
    requires stage { IsStage method.now g.old made.now (loops_at method.now (Some i)) }
    requires done { AllHaveRun method.now made.now i }
    ensures ties { IfOk result (λ token. TiesLoop method.now g.old made.now i g.new token) }
    ensures keeps { KeepsFirst made.now.start g.old g.new }
{
    let again = tree_for(alloc, g, method, made, Some(i), Target::Back)?;
    let never = over(alloc, g, Op::Never, &[])?;
    let opened = opened_at(made, i);
    tie_all(alloc, g, &again, never, &opened.thetas)?;
    Ok(opened.token)
}

// Whether the loop is left in an iteration.
fn ending(
    alloc: Global,
    g: &mut Graph,
    method: &Method,
    made: &Made,
    i: u32,
) -> Result<NodeId, Memory>
    requires method { IsMethod method.now }
    requires loop_ { i < length method.now.forest.now.loops.items }
    requires stage { IsStage method.now g.old made.now (loops_at method.now (Some i)) }
    requires done { AllHaveRun method.now made.now i }
    ensures reads { IfOk result (λ n. (l : Loop) → slice_get method.now.forest.now.loops.items i ≡ Some l → StandsAs method.now g.new made.now.names n (λ v. v.ending l.header)) }
    ensures sort { IfOk result (λ n. IsOfSort g.new n I) }
    ensures grows { GrowsIn (length (loops_at method.now (Some i))) g.old g.new }
{
    let left = tree_for(alloc, g, method, made, Some(i), Target::Leave)?;
    node_of(alloc, g, &left, Slot::Token, None)
}

/// Closes the loop at this place of the forest, whose blocks are all done.
pub(crate) fn close(
    alloc: Global,
    g: &mut Graph,
    method: &Method,
    made: &mut Made,
    i: u32,
) -> Result<(), Memory>
    requires method { IsMethod method.now }
    requires loop_ { i < length method.now.forest.now.loops.items }
    requires stage { IsStage method.now g.old made.old (loops_at method.now (Some i)) }
    requires done { (l : Loop) (b : ℕ) → slice_get method.now.forest.now.loops.items i ≡ Some l → b < length method.now.flow.now.blocks → Contains (loops_around method.now b) l.header → HasRun made.old b }
    ensures stage { OnOk result ((l : Loop) → slice_get method.now.forest.now.loops.items i ≡ Some l → IsStage method.now g.new made.new (loops_at method.now l.parent)) }
    ensures blocks { made.new.blocks ≡ made.old.blocks }
    ensures start { made.new.start ≡ made.old.start }
    ensures keeps { KeepsFirst made.old.start g.old g.new }
{
    let ending = ending(alloc, g, method, made, i)?;
    let token = tie_loop(alloc, g, method, made, i)?;
    let depth = method.forest.loops[i as usize].depth;
    made.loops[i as usize] = Stage::Closed(Closed {
        depth,
        token,
        ending,
    });
    Ok(())
}
