//! Calls of `pv_decide`.
//!
//! | Line | Answer |
//! |---|---|
//! | `tree REGION TARGET EXITS ..` | the tree of a region for a target, in the method whose blocks have these exits |
//!
//! REGION is `top` or the place of a loop. TARGET is `back`, `exit`, `return`, `leave` or the number of a block. EXITS are
//! numbers of blocks, `return` or `throw`, with commas between them. A leaf is written as its block and exit, `2.0`, and a test
//! as its block and number with the trees for yes and no, `(1.0 ? 2.0 : nothing)`.

ghost use Rattle.std.specs.Prelude.{◌<◌, length, IsTrue};
ghost use Rattle.std.specs.List.{All};

use crate::loops::is_shape;
use cases_words::answers::{Answer, NoAnswer, said};
use cases_words::bench::{Bench, number};
use pv_decide::{Region, Target, Tree, TreeNode, Trees};
use pv_flow::{Block, Exit, Flow};
use pv_list::Listed;
use pv_loops::{Shape, reduce};
use std::alloc::Global;

// More blocks than a line has.
const LIMIT: usize = 1_000_000;

/// `tree REGION TARGET EXITS ..`
pub fn tree(bench: &Bench, rest: &str) -> Answer {
    let alloc = bench.alloc();
    let mut words = rest.split_whitespace();
    let (Some(region), Some(target)) = (words.next(), words.next()) else {
        return Err(NoAnswer::Unreadable);
    };
    let region = read_region(region)?;
    let target = read_target(target)?;
    let mut blocks = Vec::new(alloc);
    for exits in words {
        blocks.push(Block {
            first: 0,
            last: 0,
            exits: Listed::from(read_exits(alloc, exits)?),
        })?;
    }
    let flow = Flow {
        blocks: Listed::from(blocks),
    };
    walked(alloc, &flow, region, target)
}

fn read_region(word: &str) -> Result<Region, NoAnswer> {
    if word == "top" {
        return Ok(Region::Top);
    }
    Ok(Region::Loop(number(word)?))
}

fn read_target(word: &str) -> Result<Target, NoAnswer> {
    match word {
        "back" => Ok(Target::Back),
        "exit" => Ok(Target::Exit),
        "return" => Ok(Target::Return),
        "leave" => Ok(Target::Leave),
        _ => Ok(Target::Node(number(word)?)),
    }
}

fn read_exits(alloc: Global, word: &str) -> Result<Vec<Exit>, NoAnswer> {
    let mut exits = Vec::new(alloc);
    for exit in word.split(',') {
        exits.push(match exit {
            "return" => Exit::Return,
            "throw" => Exit::Throw,
            _ => Exit::To(number(exit)?),
        })?;
    }
    Ok(exits)
}

// The tree of a region of a flow.
fn walked(alloc: Global, flow: &Flow, region: Region, target: Target) -> Answer {
    let edges = flow.edges(alloc)?;
    let blocks = flow.blocks.as_slice();
    if edges.len() >= LIMIT || blocks.len() >= LIMIT || !have_exits(blocks) {
        return Err(NoAnswer::Unreadable);
    }
    let shape = Shape::new(edges);
    if !is_shape(&shape) {
        return Err(NoAnswer::Unreadable);
    }
    let Ok(forest) = reduce(alloc, &shape) else {
        return Err(NoAnswer::Unreadable);
    };
    let trees = Trees::new(alloc, flow, &forest)?;
    if !trees.has(region) {
        return Err(NoAnswer::Unreadable);
    }
    let tree = trees.walk(alloc, region, target)?;
    tree_text(alloc, &tree)
}

// Whether each block has an exit.
fn have_exits(blocks: &[Block]) -> bool
    ensures { IsTrue result → All (λ b. 0 < length b.exits) blocks.now }
{
    blocks
        .iter()
        .all(|block| !block.exits.as_slice().is_empty())
}

// The text of the root, made from those of the nodes before it.
fn tree_text(alloc: Global, tree: &Tree) -> Answer {
    let mut texts = Vec::new(alloc);
    let mut text = String::new(alloc);
    for node in &tree.nodes {
        text = node_text(alloc, &texts, node)?;
        texts.push(text.clone()?)?;
    }
    Ok(text)
}

fn node_text(alloc: Global, texts: &[String], node: &TreeNode) -> Answer {
    match *node {
        TreeNode::Leaf { block, exit } => Ok(format!(in alloc; "{block}.{exit}")?),
        TreeNode::Test {
            block,
            test,
            yes,
            no,
        } => {
            let (Some(yes), Some(no)) = (texts.get(yes as usize), texts.get(no as usize)) else {
                return Err(NoAnswer::Unreadable);
            };
            let (yes, no) = (yes.as_str(), no.as_str());
            Ok(format!(in alloc; "({block}.{test} ? {yes} : {no})")?)
        }
        TreeNode::Nothing => said(alloc, "nothing"),
        TreeNode::Dead => said(alloc, "dead"),
    }
}
