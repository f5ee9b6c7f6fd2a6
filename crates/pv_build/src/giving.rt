//! The tree of a region for a target, with what is given for its nodes.

ghost use Rattle.std.specs.Prelude.{◌≡◌, ◌≢◌, ◌<◌, ℕ, [], length, slice_get, Some, IfOk};
ghost use Rattle.pv_graph.specs.declared.node.OpSort.TheVariants.{I};
ghost use Rattle.pv_graph.specs.Ops.{sort_over};
ghost use Rattle.pv_equations.specs.Exp.{Over, NoExp};
ghost use Rattle.pv_decide.specs.Sites.{dest_of, Inside};
ghost use Rattle.pv_decide.specs.Folds.{IsExitOf, IsTestOf, IsAimedAt, NodeFits, AreSound};
ghost use Rattle.pv_decide.specs.Walks.{leaving, tests_of};
ghost use Rattle.pv_terms.specs.Terms.{IsFlat, Grows};
ghost use Rattle.pv_build.specs.Stages.{flow_in, region_at, loops_at, IsLoopAt, IsMethod, IsStage, HasRun, GrowsIn};
ghost use Rattle.pv_build.specs.Giving.{scope_at, IsWalk, AreReadyFor, IsTargetIn, AreClosedFrom, IsIntFor, IsLeafFor, IsSourceFor, IsGivenFor};
ghost use Rattle.pv_build.specs.Leaves.{header_at, header_list, HasExitAt, IsExitAt, IsLeaveFor, HasLeft, Left, HasTested, Tested, AreSourcesFor};

use crate::method::{Closed, Made, Method, Stage};
use crate::source::{Given, Source};
use crate::taking::{exit_outs, value_outs};
use pv_block::{Leaving, Ran};
use pv_decide::{Region, Target, TreeNode};
use pv_flow::{Exit, Flow};
use pv_graph::{Graph, NodeId, Op};
use pv_terms::over;
use pv_value::Memory;
use std::alloc::Global;

/// A walk over the tree of the region of a loop, or of the whole method, for a target.
#[derive(Clone, Copy)]
struct RegionWalk<'a> {
    method: &'a Method<'a>,
    made: &'a Made,
    at: Option<u32>,
    target: Target,
}

// The region of a loop, or the whole method.
fn region(at: Option<u32>) -> Region
    ensures { result ≡ region_at at }
{
    match at {
        None => Region::Top,
        Some(i) => Region::Loop(i),
    }
}

// The closed loop at this place.
fn closed_at(made: &Made, i: u32) -> Closed
    requires { (c : Closed) × (slice_get made.now.loops.items i ≡ Some (Stage.Closed c)) }
    ensures { slice_get made.now.loops.items i ≡ Some (Stage.Closed result) }
{
    match &made.loops[i as usize] {
        Stage::Closed(closed) => *closed,
        Stage::Ahead | Stage::Open(_) => unreachable!(),
    }
}

// The loops between a block that is done and the region, the innermost first; they are closed.
fn closed_from(
    alloc: Global,
    method: &Method,
    made: &Made,
    at: Option<u32>,
    b: u32,
) -> Result<Vec<Closed>, Memory>
    requires method { IsMethod method.now }
    requires stage { (g : Graph) × IsStage method.now g made.now (loops_at method.now at) }
    requires region { IsLoopAt method.now at }
    requires done { HasRun made.now b }
    requires inside { Inside method.now.trees.sites.items (scope_at method.now at) b }
    ensures { IfOk result (λ left. (g : Graph) → IsStage method.now g made.now (loops_at method.now at) → AreClosedFrom method.now g made.now at b left.items) }
{
    let mut left = Vec::new(alloc);
    let row = method.forest.around(b);
    for i in row {
        if at == Some(*i) {
            return Ok(left);
        }
        left.push(closed_at(made, *i))?;
    }
    Ok(left)
}

// What the block left when it was done.
fn ran_of(made: &Made, b: u32) -> &Ran
    requires { HasRun made.now b }
    ensures { slice_get made.now.blocks.items b ≡ Some (Some result.now) }
{
    match &made.blocks[b as usize] {
        Some(ran) => ran,
        None => unreachable!(),
    }
}

// What holds at an exit of a block that is done.
fn left_at(made: &Made, b: u32, e: u32) -> &Leaving
    requires { HasLeft made.now b e }
    ensures { Left made.now b e result.now }
{
    &ran_of(made, b).exits[e as usize]
}

// The node of a test of a block that is done.
fn tested_at(made: &Made, b: u32, t: u32) -> NodeId
    requires { HasTested made.now b t }
    ensures { Tested made.now b t result }
{
    ran_of(made, b).tests[t as usize]
}

// The header of the loop of the region.
fn header_of(method: &Method, at: Option<u32>) -> Option<u32>
    requires { IsLoopAt method.now at }
    ensures { result ≡ header_at method.now.forest.now.loops.items at }
{
    let i = at?;
    Some(method.forest.loops[i as usize].header)
}

// The exit of a block.
fn exit_of(flow: &Flow, b: u32, e: u32) -> Exit
    requires { HasExitAt flow.now.blocks b e }
    ensures { IsExitAt flow.now.blocks b e result }
{
    flow.blocks.as_slice()[b as usize].exits.as_slice()[e as usize]
}

// Whether an exit of a block leaves the loop with this header: 1 if it does, and 0 where the loop begins again.
fn left_op(header: Option<u32>, exit: Exit) -> Op
    ensures reads { Over result NoExp ≡ leaving (dest_of exit) (header_list header) }
    ensures flat { IsFlat result }
    ensures int { sort_over result [] ≡ Some I }
{
    match exit {
        Exit::To(m) => match header {
            Some(h) => Op::Int(if m == h { 0 } else { 1 }),
            None => Op::Int(1),
        },
        Exit::Return | Exit::Throw => Op::Int(1),
    }
}

// Whether the loop is left by an exit of a block of the region.
fn leave_leaf(
    alloc: Global,
    g: &mut Graph,
    walk: &RegionWalk,
    b: u32,
    e: u32,
) -> Result<Source, Memory>
    requires walk { IsWalk walk.now.method.now g.old walk.now.made.now walk.now.at }
    requires exit { IsExitOf walk.now.method.now.trees.sites.items (scope_at walk.now.method.now walk.now.at) b e }
    ensures leaf { IfOk result (λ k. IsLeaveFor walk.now.method.now g.new walk.now.at b e k) }
    ensures grows { Grows g.old g.new }
{
    let op = left_op(
        header_of(walk.method, walk.at),
        exit_of(walk.method.flow, b, e),
    );
    let n = over(alloc, g, op, &[])?;
    Ok(Source::Value(n))
}

// What holds at an exit of a block of the region, as it is outside the loops inside the region.
fn exit_leaf(
    alloc: Global,
    g: &mut Graph,
    walk: &RegionWalk,
    b: u32,
    e: u32,
) -> Result<Source, Memory>
    requires walk { IsWalk walk.now.method.now g.old walk.now.made.now walk.now.at }
    requires done { HasRun walk.now.made.now b }
    requires exit { IsExitOf walk.now.method.now.trees.sites.items (scope_at walk.now.method.now walk.now.at) b e }
    requires aimed { IsAimedAt walk.now.method.now.trees.sites.items (scope_at walk.now.method.now walk.now.at) walk.now.target b e }
    requires other { walk.now.target ≢ Target.Leave }
    ensures leaf { IfOk result (λ k. IsLeafFor walk.now.method.now g.new walk.now.made.now.names walk.now.at walk.now.target b e k) }
    ensures grows { GrowsIn (length (loops_at walk.now.method.now walk.now.at)) g.old g.new }
{
    let left = closed_from(alloc, walk.method, walk.made, walk.at, b)?;
    let out = exit_outs(alloc, g, walk.method.typed, &left, left_at(walk.made, b, e))?;
    Ok(Source::Exit(out))
}

// What is given for a leaf.
fn leaf(alloc: Global, g: &mut Graph, walk: &RegionWalk, b: u32, e: u32) -> Result<Source, Memory>
    requires walk { IsWalk walk.now.method.now g.old walk.now.made.now walk.now.at }
    requires done { HasRun walk.now.made.now b }
    requires exit { IsExitOf walk.now.method.now.trees.sites.items (scope_at walk.now.method.now walk.now.at) b e }
    requires aimed { IsAimedAt walk.now.method.now.trees.sites.items (scope_at walk.now.method.now walk.now.at) walk.now.target b e }
    ensures leaf { IfOk result (λ k. IsLeafFor walk.now.method.now g.new walk.now.made.now.names walk.now.at walk.now.target b e k) }
    ensures grows { GrowsIn (length (loops_at walk.now.method.now walk.now.at)) g.old g.new }
{
    match walk.target {
        Target::Leave => leave_leaf(alloc, g, walk, b, e),
        _ => exit_leaf(alloc, g, walk, b, e),
    }
}

// What is given for a test.
fn test(alloc: Global, g: &mut Graph, walk: &RegionWalk, b: u32, t: u32) -> Result<Source, Memory>
    requires walk { IsWalk walk.now.method.now g.old walk.now.made.now walk.now.at }
    requires done { HasRun walk.now.made.now b }
    requires test { IsTestOf walk.now.method.now.trees.sites.items (scope_at walk.now.method.now walk.now.at) b t }
    ensures test { IfOk result (λ k. IsIntFor walk.now.method.now g.new walk.now.made.now.names k (λ v. tests_of (flow_in walk.now.method.now) v (loops_at walk.now.method.now walk.now.at) b t)) }
    ensures grows { GrowsIn (length (loops_at walk.now.method.now walk.now.at)) g.old g.new }
{
    let left = closed_from(alloc, walk.method, walk.made, walk.at, b)?;
    let out = value_outs(alloc, g, &left, tested_at(walk.made, b, t))?;
    Ok(Source::Value(out))
}

// What is given for a node of a tree of the region.
fn source(alloc: Global, g: &mut Graph, walk: &RegionWalk, node: TreeNode) -> Result<Source, Memory>
    requires walk { IsWalk walk.now.method.now g.old walk.now.made.now walk.now.at }
    requires ready { AreReadyFor walk.now.method.now walk.now.made.now walk.now.at walk.now.target }
    requires fits { (n : ℕ) × NodeFits walk.now.method.now.trees.sites.items (scope_at walk.now.method.now walk.now.at) walk.now.target n node }
    ensures source { IfOk result (λ k. IsSourceFor walk.now.method.now g.new walk.now.made.now.names walk.now.at walk.now.target node k) }
    ensures grows { GrowsIn (length (loops_at walk.now.method.now walk.now.at)) g.old g.new }
{
    match node {
        TreeNode::Leaf { block, exit } => leaf(alloc, g, walk, block, exit),
        TreeNode::Test { block, test: t, .. } => test(alloc, g, walk, block, t),
        TreeNode::Nothing | TreeNode::Dead => Ok(Source::Nothing),
    }
}

// What is given for each node.
fn sources(
    alloc: Global,
    g: &mut Graph,
    walk: &RegionWalk,
    nodes: &[TreeNode],
) -> Result<Vec<Source>, Memory>
    requires walk { IsWalk walk.now.method.now g.old walk.now.made.now walk.now.at }
    requires ready { AreReadyFor walk.now.method.now walk.now.made.now walk.now.at walk.now.target }
    requires fits { AreSound walk.now.method.now.trees.sites.items (scope_at walk.now.method.now walk.now.at) walk.now.target nodes.now }
    ensures sources { IfOk result (λ ks. AreSourcesFor walk.now.method.now g.new walk.now.made.now.names walk.now.at walk.now.target nodes.now ks.items) }
    ensures grows { GrowsIn (length (loops_at walk.now.method.now walk.now.at)) g.old g.new }
{
    let mut sources = Vec::with_capacity(alloc, nodes.len())?;
    for node in nodes {
        let next = source(alloc, g, walk, *node)?;
        sources.push(next)?;
    }
    Ok(sources)
}

/// The tree of the region of a loop, or of the whole method, for a target, with what is given for its nodes.
pub(crate) fn tree_for(
    alloc: Global,
    g: &mut Graph,
    method: &Method,
    made: &Made,
    at: Option<u32>,
    target: Target,
) -> Result<Given, Memory>
    requires method { IsMethod method.now }
    requires stage { IsStage method.now g.old made.now (loops_at method.now at) }
    requires region { IsLoopAt method.now at }
    requires target { IsTargetIn method.now at target }
    requires ready { AreReadyFor method.now made.now at target }
    ensures given { IfOk result (λ x. IsGivenFor method.now g.new made.now.names at target x) }
    ensures grows { GrowsIn (length (loops_at method.now at)) g.old g.new }
{
    let tree = method.trees.walk(alloc, region(at), target)?;
    let walk = RegionWalk {
        method,
        made,
        at,
        target,
    };
    let sources = sources(alloc, g, &walk, &tree.nodes)?;
    Ok(Given {
        nodes: tree.nodes,
        sources,
    })
}
