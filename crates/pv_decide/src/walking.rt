//! The walk through a region, from its last block to its first.

ghost use Rattle.std.specs.Prelude.{◌≡◌, ◌<◌, length, IfOk};
ghost use Rattle.pv_decide.specs.Sites.{AreInRange, AreOrdered, IsInRange, IsScope, Inside};
ghost use Rattle.pv_decide.specs.Folds.{IsExitOf, AreSound};
ghost use Rattle.pv_decide.specs.Placing.{Pushed, HasNothing, HasDead, Joined, TestMade, PlaceFits, ArePlaces, FitsAt, Follows, FollowsTo, IsPlace, IsWalk};

use crate::aim::Aim;
use crate::landing::{Verdict, answer, is_inside, lands};
use crate::site::Site;
use crate::tree::{Target, TreeNode};
use pv_flow::Exit;
use pv_value::Memory;
use std::alloc::Global;

// The places of a node that gives nothing, and of one from which nothing is ahead.
const NOTHING: u32 = 0;

const DEAD: u32 = 1;

// Puts a node after the others.
fn push(nodes: &mut Vec<TreeNode>, node: TreeNode) -> Result<u32, Memory>
    ensures { IfOk result (λ n. Pushed nodes.old.items nodes.new.items node n) }
{
    let n = nodes.len();
    if n >= 0xFFFF_FFFF {
        return Err(Memory);
    }
    nodes.push(node)?;
    Ok(n as u32)
}

// A test with these two sides.
fn test(nodes: &mut Vec<TreeNode>, b: u32, t: u32, yes: u32, no: u32) -> Result<u32, Memory>
    requires { HasNothing nodes.old.items }
    ensures gives { IfOk result (λ n. Joined nodes.old.items nodes.new.items b t yes no n) }
    ensures made { IfOk result (λ n. TestMade nodes.old.items nodes.new.items b t yes no n) }
{
    if yes == no || yes == NOTHING {
        return Ok(no);
    }
    if no == NOTHING {
        return Ok(yes);
    }
    push(
        nodes,
        TreeNode::Test {
            block: b,
            test: t,
            yes,
            no,
        },
    )
}

// The place for an exit of the block b, where later blocks have their places.
fn exit_place(
    sites: &[Site],
    aim: Aim,
    places: &[u32],
    nodes: &mut Vec<TreeNode>,
    b: u32,
    e: u32,
) -> Result<u32, Memory>
    requires nothing { HasNothing nodes.old.items }
    requires range { AreInRange sites.now }
    requires places { length places.now ≡ length sites.now }
    requires exit { IsExitOf sites.now aim.scope b e }
    requires sound { AreSound sites.now aim.scope aim.target nodes.old.items }
    requires fit { ArePlaces sites.now aim.target nodes.old.items places.now }
    ensures gives { IfOk result (λ n. FollowsTo sites.now aim.scope aim.target places.now nodes.old.items nodes.new.items b e n) }
    ensures sound { IfOk result (λ n. FitsAt sites.now aim.scope aim.target nodes.new.items b n) }
{
    let exit = sites[b as usize].exits[e as usize];
    match answer(aim, lands(sites, aim.scope, b, exit)) {
        Verdict::Leaf => push(nodes, TreeNode::Leaf { block: b, exit: e }),
        Verdict::Goes(m) => Ok(places[m as usize]),
        Verdict::Nothing => Ok(NOTHING),
    }
}

// The place of the block b, where later blocks have theirs.
fn block_place(
    sites: &[Site],
    aim: Aim,
    places: &[u32],
    nodes: &mut Vec<TreeNode>,
    b: u32,
) -> Result<u32, Memory>
    requires nothing { HasNothing nodes.old.items }
    requires block { b < length sites.now }
    requires range { AreInRange sites.now }
    requires places { length places.now ≡ length sites.now }
    requires inside { Inside sites.now aim.scope b }
    requires sound { AreSound sites.now aim.scope aim.target nodes.old.items }
    requires fit { ArePlaces sites.now aim.target nodes.old.items places.now }
    ensures gives { IfOk result (λ n. Follows sites.now aim.scope aim.target places.now nodes.old.items nodes.new.items b n) }
    ensures sound { IfOk result (λ n. FitsAt sites.now aim.scope aim.target nodes.new.items b n) }
{
    let mut e = sites[b as usize].exits.len() as u32 - 1;
    let mut place = exit_place(sites, aim, places, nodes, b, e)?;
    while e > 0 {
        e -= 1;
        let yes = exit_place(sites, aim, places, nodes, b, e)?;
        place = test(nodes, b, e, yes, place)?;
    }
    Ok(place)
}

// The place of the block b, where later blocks have theirs, and some are known to be dead.
fn place_in(
    sites: &[Site],
    aim: Aim,
    ahead: &[bool],
    places: &[u32],
    nodes: &mut Vec<TreeNode>,
    b: u32,
) -> Result<u32, Memory>
    requires nothing { HasNothing nodes.old.items }
    requires dead { HasDead nodes.old.items }
    requires block { b < length sites.now }
    requires range { AreInRange sites.now }
    requires ahead { length ahead.now ≡ length sites.now }
    requires places { length places.now ≡ length sites.now }
    requires inside { Inside sites.now aim.scope b }
    requires sound { AreSound sites.now aim.scope aim.target nodes.old.items }
    requires fit { ArePlaces sites.now aim.target nodes.old.items places.now }
    ensures gives { IfOk result (λ n. IsPlace sites.now aim.scope aim.target ahead.now places.now nodes.old.items nodes.new.items b n) }
    ensures sound { IfOk result (λ n. FitsAt sites.now aim.scope aim.target nodes.new.items b n) }
{
    if aim.target == Target::Leave || ahead[b as usize] {
        return block_place(sites, aim, places, nodes, b);
    }
    Ok(DEAD)
}

/// The tree of a region for a target, where `ahead` says from which blocks the target or an end of the
/// method is ahead. It goes over the blocks in this order, from the last to the first.
pub(crate) fn walk(
    alloc: Global,
    sites: &[Site],
    order: &[u32],
    aim: Aim,
    ahead: &[bool],
) -> Result<Vec<TreeNode>, Memory>
    requires range { AreInRange sites.now }
    requires order { AreOrdered sites.now order.now }
    requires ahead { length ahead.now ≡ length sites.now }
    requires scope { IsScope sites.now aim.scope }
    ensures gives { IfOk result (λ nodes. IsWalk sites.now aim.scope aim.target ahead.now nodes.items) }
    ensures sound { IfOk result (λ nodes. AreSound sites.now aim.scope aim.target nodes.items) }
    ensures root { IfOk result (λ nodes. 0 < length nodes.items) }
{
    let mut nodes = Vec::new(alloc);
    nodes.push(TreeNode::Nothing)?;
    nodes.push(TreeNode::Dead)?;
    let mut places = vec![in alloc; NOTHING; sites.len()]?;
    let mut k = order.len();
    while k > 0 {
        k -= 1;
        let b = order[k];
        if is_inside(sites, aim.scope, b) {
            places[b as usize] = place_in(sites, aim, ahead, &places, &mut nodes, b)?;
        }
    }
    nodes.truncate(places[aim.scope.first() as usize] as usize + 1);
    Ok(nodes)
}
