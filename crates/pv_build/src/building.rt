//! The graph of a method.

ghost use Rattle.std.specs.Prelude.{◌≡◌, ◌+◌, ◌<◌, ◌↔◌, true, ℕ, [], drop, length, None, Some, replicate, slice_get, IfOk, OnOk, IsTrue};
ghost use Rattle.pv_graph.specs.Graphs.{IsWellMade};
ghost use Rattle.pv_graph.specs.declared.node.OpSort.TheVariants.{R};
ghost use Rattle.pv_frame.specs.Frames.{IsFrameAt};
ghost use Rattle.pv_terms.specs.Terms.{Enlarges, Keeps, IsOfSort};
ghost use Rattle.pv_build.specs.declared.method.Stage.TheVariants as stage;
ghost use Rattle.pv_layout.specs.Routine.{IsRoutine};
ghost use Rattle.pv_build.specs.Unfolded.{IsBuilt};
ghost use Rattle.pv_build.specs.Stages.{loops_at, loops_around, IsLoopAt, IsMethod, IsStage, AreDone, HasFrameAt, KeepsFirst, GrowsIn};
ghost use Rattle.pv_build.specs.Opening.{BeginsBlock, IsEnteredBy, IsOuter};
ghost use Rattle.pv_build.specs.Building.{IsOwnLoop, HasBlock, IsNext, IsLast, Begun, IsStageBefore, IsStageFor, IsNothing, IsBuiltOf};

use crate::closing::close;
use crate::ending::root;
use crate::entering::enter;
use crate::giving::tree_for;
use crate::method::{Made, Method, Stage};
use crate::opening::open;
use crate::starting::start;
use pv_block::{Ran, State, run};
use pv_decide::{Target, Trees};
use pv_flow::{Block, Flow};
use pv_frame::{Frame, Typed};
use pv_graph::{Graph, NodeId, Op};
use pv_layout::slots_carried;
use pv_loops::Forest;
use pv_terms::{Names, over};
use pv_value::Memory;
use std::alloc::Global;

// The frame with which a block begins.
fn first_frame<'a>(typed: &'a Typed, block: &Block) -> &'a Frame
    requires { HasFrameAt typed.now.frames block.now.first }
    ensures { IsFrameAt typed.now.frames block.now.first result.now }
{
    match &typed.frames.as_slice()[block.first as usize] {
        Some(frame) => frame,
        None => unreachable!(),
    }
}

// The loop around a block with k of the others inside it, if there is one.
fn loop_around(method: &Method, b: u32, k: usize) -> Option<u32>
    requires method { IsMethod method.now }
    requires block { b < length method.now.flow.now.blocks }
    ensures loops { loops_at method.now result ≡ drop k (loops_around method.now b) }
    ensures region { IsLoopAt method.now result }
{
    number_at(method.forest.around(b), k)
}

// The loop of which a block is the header, if it is one.
fn own_loop(method: &Method, b: u32) -> Option<u32>
    requires method { IsMethod method.now }
    requires block { b < length method.now.flow.now.blocks }
    ensures { IsOwnLoop method.now b result }
{
    let Some(i) = loop_around(method, b, 0) else {
        return None;
    };
    if method.forest.loops[i as usize].header == b {
        Some(i)
    } else {
        None
    }
}

// The innermost loop that is open where a block is entered.
fn outer_loop(method: &Method, b: u32) -> Option<u32>
    requires method { IsMethod method.now }
    requires block { b < length method.now.flow.now.blocks }
    ensures outer { IsOuter method.now b result }
    ensures region { IsLoopAt method.now result }
{
    match own_loop(method, b) {
        Some(_) => loop_around(method, b, 1),
        None => loop_around(method, b, 0),
    }
}

// What is held where a block is entered, in the region of the loops that are open.
fn state_at(
    alloc: Global,
    g: &mut Graph,
    method: &Method,
    made: &Made,
    at: Option<u32>,
    b: u32,
) -> Result<State, Memory>
    requires method { IsMethod method.now }
    requires next { IsNext method.now made.now b }
    requires outer { IsOuter method.now b at }
    requires region { IsLoopAt method.now at }
    requires stage { IsStage method.now g.old made.now (loops_at method.now at) }
    ensures reads { IfOk result (λ c. IsEnteredBy method.now g.new made.now.names b c) }
    ensures sorts { IfOk result (λ c. BeginsBlock method.now g.new b c) }
    ensures grows { GrowsIn (length (loops_at method.now at)) g.old g.new }
{
    let block = &method.flow.blocks.as_slice()[b as usize];
    let frame = first_frame(method.typed, block);
    if b == 0 {
        return start(alloc, g, &method.typed.program, frame);
    }
    let given = tree_for(alloc, g, method, made, at, Target::Node(b))?;
    let never = over(alloc, g, Op::Never, &[])?;
    enter(alloc, g, &given, never, frame)
}

// What is held where a block begins; its loop is opened where it is a header.
fn begin(
    alloc: Global,
    g: &mut Graph,
    method: &Method,
    made: &mut Made,
    b: u32,
) -> Result<State, Memory>
    requires method { IsMethod method.now }
    requires next { IsNext method.now made.old b }
    requires stage { IsStageBefore method.now g.old made.old b }
    ensures begun { IfOk result (λ c. Begun method.now g.new made.new b c) }
    ensures blocks { made.new.blocks ≡ made.old.blocks }
    ensures start { made.new.start ≡ made.old.start }
    ensures keeps { KeepsFirst made.old.start g.old g.new }
{
    let at = outer_loop(method, b);
    let state = state_at(alloc, g, method, made, at, b)?;
    match own_loop(method, b) {
        Some(i) => open(alloc, g, method, made, i, state),
        None => Ok(state),
    }
}

// Runs a block, when those before it in the order are done.
fn leave(
    alloc: Global,
    g: &mut Graph,
    method: &Method,
    made: &mut Made,
    b: u32,
) -> Result<(), Memory>
    requires method { IsMethod method.now }
    requires next { IsNext method.now made.old b }
    requires stage { IsStageBefore method.now g.old made.old b }
    ensures stage { OnOk result (IsStage method.now g.new made.new (loops_around method.now b)) }
    ensures done { OnOk result ((k : ℕ) → AreDone method.now made.old k → slice_get method.now.forest.now.order.items k ≡ Some b → AreDone method.now made.new (k + 1)) }
    ensures start { made.new.start ≡ made.old.start }
    ensures keeps { KeepsFirst made.old.start g.old g.new }
{
    let state = begin(alloc, g, method, made, b)?;
    let block = &method.flow.blocks.as_slice()[b as usize];
    let ran = run(alloc, g, method.typed, block, state)?;
    made.blocks[b as usize] = Some(ran);
    Ok(())
}

// Whether a loop has a block.
fn has_block(method: &Method, i: u32, b: u32) -> bool
    requires method { IsMethod method.now }
    requires loop_ { i < length method.now.forest.now.loops.items }
    requires block { b < length method.now.flow.now.blocks }
    ensures { IsTrue result ↔ HasBlock method.now i (Some b) }
{
    method.forest.around(b).contains(&i)
}

// .. if there is one.
fn has_next(method: &Method, i: u32, next: Option<u32>) -> bool
    requires method { IsMethod method.now }
    requires loop_ { i < length method.now.forest.now.loops.items }
    requires next { (b : ℕ) → next ≡ Some b → b < length method.now.flow.now.blocks }
    ensures { IsTrue result ↔ HasBlock method.now i next }
{
    match next {
        Some(b) => has_block(method, i, b),
        None => false,
    }
}

// Closes the loops around a block that the next block isn't in.
fn close_all(
    alloc: Global,
    g: &mut Graph,
    method: &Method,
    made: &mut Made,
    b: u32,
    next: Option<u32>,
) -> Result<(), Memory>
    requires method { IsMethod method.now }
    requires last { IsLast method.now made.old b next }
    requires stage { IsStage method.now g.old made.old (loops_around method.now b) }
    ensures stage { OnOk result (IsStageFor method.now g.new made.new next) }
    ensures blocks { made.new.blocks ≡ made.old.blocks }
    ensures start { made.new.start ≡ made.old.start }
    ensures keeps { KeepsFirst made.old.start g.old g.new }
{
    let row = method.forest.around(b);
    for i in row {
        if has_next(method, *i, next) {
            return Ok(());
        }
        close(alloc, g, method, made, *i)?;
    }
    Ok(())
}

// The number at this place, if there is one.
fn number_at(numbers: &[u32], k: usize) -> Option<u32>
    ensures { result ≡ slice_get numbers.now k }
{
    numbers.get(k).copied()
}

// Makes all blocks and closes all loops.
fn blocks(alloc: Global, g: &mut Graph, method: &Method, made: &mut Made) -> Result<(), Memory>
    requires method { IsMethod method.now }
    requires stage { IsStage method.now g.old made.old [] }
    requires none { AreDone method.now made.old 0 }
    ensures stage { OnOk result (IsStage method.now g.new made.new []) }
    ensures done { OnOk result (AreDone method.now made.new (length method.now.forest.now.order.items)) }
    ensures start { made.new.start ≡ made.old.start }
    ensures keeps { KeepsFirst made.old.start g.old g.new }
{
    for k in 0..method.forest.order.len() {
        let b = method.forest.order[k];
        leave(alloc, g, method, made, b)?;
        let next = number_at(&method.forest.order, k + 1);
        close_all(alloc, g, method, made, b, next)?;
    }
    Ok(())
}

// The root, when all blocks are done and all loops are closed.
fn finish(alloc: Global, g: &mut Graph, method: &Method, made: &Made) -> Result<NodeId, Memory>
    requires method { IsMethod method.now }
    requires stage { IsStage method.now g.old made.now [] }
    requires done { AreDone method.now made.now (length method.now.forest.now.order.items) }
    ensures root { IfOk result (λ r. IsBuiltOf method.now g.new r) }
    ensures sort { IfOk result (λ r. IsOfSort g.new r R) }
    ensures grows { GrowsIn 0 g.old g.new }
{
    let ends = tree_for(alloc, g, method, made, None, Target::Exit)?;
    let returns = tree_for(alloc, g, method, made, None, Target::Return)?;
    let never = over(alloc, g, Op::Never, &[])?;
    let of = method.typed.program.desc.result;
    root(alloc, g, &ends, &returns, never, of)
}

// n blocks, of which none is done.
fn no_blocks(alloc: Global, n: usize) -> Result<Vec<Option<Ran>>, Memory>
    ensures { IfOk result (λ blocks. blocks.items ≡ replicate n None) }
{
    let mut blocks = Vec::with_capacity(alloc, n)?;
    for _ in 0..n {
        blocks.push(None)?;
    }
    Ok(blocks)
}

// n loops, of which none is opened.
fn no_loops(alloc: Global, n: usize) -> Result<Vec<Stage>, Memory>
    ensures { IfOk result (λ loops. loops.items ≡ replicate n stage.Ahead) }
{
    let mut loops = Vec::with_capacity(alloc, n)?;
    for _ in 0..n {
        loops.push(Stage::Ahead)?;
    }
    Ok(loops)
}

// Nothing of a method with these numbers of blocks and loops.
fn nothing(alloc: Global, start: NodeId, blocks: usize, loops: usize) -> Result<Made, Memory>
    ensures { IfOk result (λ made. IsNothing made start blocks loops) }
{
    Ok(Made {
        start,
        names: Names::new(alloc),
        blocks: no_blocks(alloc, blocks)?,
        loops: no_loops(alloc, loops)?,
    })
}

/// Adds the root of a method to an open graph.
pub(crate) fn build(
    alloc: Global,
    g: &mut Graph,
    typed: &Typed,
    flow: &Flow,
    forest: &Forest,
) -> Result<NodeId, Memory>
    requires made { IsWellMade g.old }
    requires open { g.old.is_open ≡ true }
    requires routine { IsRoutine typed.now.program typed.now.frames flow.now.blocks forest.now }
    ensures root { IfOk result (λ r. IsBuilt g.new typed.now.program typed.now.frames flow.now.blocks forest.now r) }
    ensures sort { IfOk result (λ r. IsOfSort g.new r R) }
    ensures enlarges { IfOk result (λ r. Enlarges g.old g.new) }
    ensures keeps { Keeps g.old g.new }
{
    let method = Method {
        typed,
        flow,
        forest,
        trees: Trees::new(alloc, flow, forest)?,
        carried: slots_carried(alloc, typed, flow, forest)?,
    };
    let count = flow.blocks.as_slice().len();
    let mut made = nothing(alloc, g.len(), count, forest.loops.len())?;
    blocks(alloc, g, &method, &mut made)?;
    finish(alloc, g, &method, &made)
}
