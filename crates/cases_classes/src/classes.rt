//! Calls of `pv_classes` and `pv_induct`.
//!
//! A line `classes STEP; .. | STEP; ..` makes a graph by the steps before the bar, as those of a line `graph` that change
//! it, and does the others on the classes of its nodes, each of which has one of its own at first.
//!
//! | Step | Answer |
//! |---|---|
//! | `add OPERATION KID ..` | the number of the node, or the fault; a new node gets a class of its own |
//! | `join FIRST SECOND AXIOM NODE ..` | `-`: joins two nodes, as the sides of the axiom with this number under these nodes |
//! | `close DEPTH ..` | how many joins there are, after a closing with these depths fixed |
//! | `induct` | whether inductions, or the closing before them, joined anything |
//! | `copy FIRST SECOND DEPTH ..` | for each node the number of its class in a copy, in which the two nodes are joined, and which is closed |
//! | `inside FIRST SECOND DEPTH ..` | the same, and the joins, where the classes are saved before and restored after it |
//! | `numbers` | for each node the number of its class |
//! | `joined FIRST SECOND` | whether two nodes are in one class |
//! | `members NODE` | the nodes of a node's class, ascending |
//! | `class OPERATION KID ..` | the number of a class with a node of this operation over kids of the classes of these; `-` if there is none |
//! | `firsts` | the nodes that are the first of their form in their class |
//! | `with NUMBER` | the nodes whose operation has this number |
//! | `joins` | the joins, as `2=5 kids`, `2=5 axiom 1 [3, 4]`, `2=5 induction 0` (the number of a block) or `2=5 pair 0` |
//! | `blocks` | the blocks of inductions, each as `(DEPTH PAIRS: JOINS)`, with the blocks inside it before the colon |

ghost use Rattle.std.specs.Prelude.{◌≡◌, ◌<◌, length, IfOk, IsTrue};
ghost use Rattle.std.specs.List.{All};
ghost use Rattle.pv_graph.specs.Graphs.{IsGraph};
ghost use Rattle.pv_graph.specs.Calls.{AreNodes, MayAdd};
ghost use Rattle.pv_classes.specs.Calls.{IsClasses, Knows};

use crate::showing::{blocks_answer, joins_answer};
use cases_graphs::graphs::{change, fault_text, read_numbers, read_op};
use cases_graphs::leasts::become_least;
use cases_words::answers::{Answer, List, NoAnswer, said, shown};
use cases_words::bench::{Bench, number, words};
use pv_classes::{Classes, Reason};
use pv_graph::{Graph, Kids, NodeId, Op};
use pv_induct::induct;
use std::alloc::Global;

/// `classes STEP; .. | STEP; ..`
pub fn classes(bench: &Bench, rest: &str) -> Answer {
    let alloc = bench.alloc();
    let (making, asking) = rest.split_once('|').ok_or(NoAnswer::Unreadable)?;
    let mut graph = make_graph(alloc, making)?;
    let mut classes = Classes::new(alloc, &graph)?;
    let mut list = List::new(alloc);
    for step in asking.split(';') {
        let words = words(alloc, step)?;
        let answer = class_step(alloc, &mut graph, &mut classes, &words)?;
        list.add(answer.as_str())?;
    }
    list.into_text()
}

// The graph that the steps make.
fn make_graph(alloc: Global, steps: &str) -> Result<Graph, NoAnswer> {
    let mut graph = Graph::new(alloc);
    for step in steps.split(';') {
        let words = words(alloc, step)?;
        match *words {
            ["become", first, second] => become_least(alloc, &mut graph, first, second)?,
            _ => change(alloc, &mut graph, &words)?,
        };
    }
    Ok(graph)
}

fn class_step(alloc: Global, graph: &mut Graph, classes: &mut Classes, words: &[&str]) -> Answer
    requires { Knows graph.old.nodes classes.old }
    ensures { IfOk result (λ text. Knows graph.new.nodes classes.new) }
{
    let Some((word, rest)) = words.split_first() else {
        return Err(NoAnswer::Unreadable);
    };
    match *word {
        "add" => add(alloc, graph, classes, rest),
        "join" => join(alloc, graph, classes, rest),
        "close" => close(alloc, graph, classes, rest),
        "induct" => induct_text(alloc, graph, classes),
        "inside" => inside_text(alloc, graph, classes, rest),
        word => asked(alloc, graph, classes, word, rest),
    }
}

// What a step asks of classes.
fn asked(alloc: Global, graph: &Graph, classes: &Classes, word: &str, rest: &[&str]) -> Answer
    requires { Knows graph.now.nodes classes.now }
{
    match word {
        "copy" => copy_text(alloc, graph, classes, rest),
        "class" => class_text(alloc, graph, classes, rest),
        "firsts" => firsts_text(alloc, graph, classes),
        _ => read(alloc, classes, word, rest),
    }
}

// What a step reads of classes.
fn read(alloc: Global, classes: &Classes, word: &str, rest: &[&str]) -> Answer {
    match word {
        "numbers" => numbers_text(alloc, classes),
        "joined" => joined_text(alloc, classes, rest),
        "members" => members_text(alloc, classes, rest),
        "with" => with_text(alloc, classes, rest),
        "joins" => joins_answer(alloc, classes.joins()),
        "blocks" => blocks_answer(alloc, classes.blocks()),
        _ => Err(NoAnswer::Unreadable),
    }
}

// The number of a node that is in a class.
fn read_member(classes: &Classes, word: &str) -> Result<NodeId, NoAnswer>
    ensures { IfOk result (λ n. n < length classes.now.numbers) }
{
    let n = number(word)?;
    if n < classes.len() {
        Ok(n)
    } else {
        Err(NoAnswer::Unreadable)
    }
}

fn read_kids(alloc: Global, words: &[&str]) -> Result<Kids, NoAnswer> {
    Ok(Kids::new(alloc, &read_numbers(alloc, words)?)?)
}

// Whether a graph takes the operation: a theta is added to a sealed graph alone.
fn may_add(graph: &Graph, op: &Op) -> bool
    ensures { IsTrue result → MayAdd graph.now op.now }
{
    match op {
        Op::Theta(_) => !graph.is_open(),
        _ => true,
    }
}

// Whether the numbers are those of nodes.
fn are_nodes(graph: &Graph, kids: &[NodeId]) -> bool
    ensures { IsTrue result → AreNodes graph.now kids.now }
{
    let nodes = graph.len();
    kids.iter().all(|kid| *kid < nodes)
}

fn add(alloc: Global, graph: &mut Graph, classes: &mut Classes, words: &[&str]) -> Answer
    requires { Knows graph.old.nodes classes.old }
    ensures { IfOk result (λ text. Knows graph.new.nodes classes.new) }
{
    let (op, kids) = read_op(alloc, words)?;
    let kids = read_numbers(alloc, kids)?;
    if !may_add(graph, &op) || !are_nodes(graph, &kids) {
        return Err(NoAnswer::Unreadable);
    }
    match graph.add(alloc, op, &kids) {
        Ok(n) => {
            classes.grow(alloc, graph)?;
            shown(alloc, n)
        }
        Err(fault) => fault_text(alloc, fault),
    }
}

fn join(alloc: Global, graph: &Graph, classes: &mut Classes, words: &[&str]) -> Answer
    requires { Knows graph.now.nodes classes.old }
    ensures { IfOk result (λ text. Knows graph.now.nodes classes.new) }
{
    let [first, second, axiom, nodes @ ..] = words else {
        return Err(NoAnswer::Unreadable);
    };
    let (first, second) = (read_member(classes, first)?, read_member(classes, second)?);
    let why = Reason::Axiom(number(axiom)?, read_kids(alloc, nodes)?);
    classes.join(alloc, first, second, why)?;
    said(alloc, "-")
}

fn close(alloc: Global, graph: &Graph, classes: &mut Classes, fixed: &[&str]) -> Answer
    requires { Knows graph.now.nodes classes.old }
    ensures { IfOk result (λ text. Knows graph.now.nodes classes.new) }
{
    classes.close(alloc, graph, &read_numbers(alloc, fixed)?)?;
    shown(alloc, classes.joins().len())
}

fn induct_text(alloc: Global, graph: &Graph, classes: &mut Classes) -> Answer
    requires { Knows graph.now.nodes classes.old }
    ensures { IfOk result (λ text. Knows graph.now.nodes classes.new) }
{
    if !are_as_many(graph, classes) {
        return Err(NoAnswer::Unreadable);
    }
    shown(alloc, induct(alloc, graph, classes)?)
}

// Whether the graph has as many nodes as the classes.
fn are_as_many(graph: &Graph, classes: &Classes) -> bool
    ensures graph { IsGraph graph.now }
    ensures classes { IsClasses classes.now }
{
    graph.len() == classes.len()
}

fn copy_text(alloc: Global, graph: &Graph, classes: &Classes, words: &[&str]) -> Answer
    requires { Knows graph.now.nodes classes.now }
{
    let [first, second, fixed @ ..] = words else {
        return Err(NoAnswer::Unreadable);
    };
    let (first, second) = (read_member(classes, first)?, read_member(classes, second)?);
    let fixed = read_numbers(alloc, fixed)?;
    let mut copy = classes.copy(alloc)?;
    copy.join(alloc, first, second, Reason::Pair(0))?;
    copy.close(alloc, graph, &fixed)?;
    numbers_text(alloc, &copy)
}

fn inside_text(alloc: Global, graph: &Graph, classes: &mut Classes, words: &[&str]) -> Answer
    requires { Knows graph.now.nodes classes.old }
    ensures { IfOk result (λ text. Knows graph.now.nodes classes.new) }
{
    let [first, second, fixed @ ..] = words else {
        return Err(NoAnswer::Unreadable);
    };
    let (first, second) = (read_member(classes, first)?, read_member(classes, second)?);
    let fixed = read_numbers(alloc, fixed)?;
    let outside = classes.save(alloc)?;
    classes.join(alloc, first, second, Reason::Pair(0))?;
    classes.close(alloc, graph, &fixed)?;
    let numbers = numbers_text(alloc, classes)?;
    let (joins, _) = classes.restore(alloc, outside)?;
    let joins = joins_answer(alloc, &joins)?;
    let (numbers, joins) = (numbers.as_str(), joins.as_str());
    Ok(format!(in alloc; "{numbers} {joins}")?)
}

fn class_text(alloc: Global, graph: &Graph, classes: &Classes, words: &[&str]) -> Answer
    requires { Knows graph.now.nodes classes.now }
{
    let (op, kids) = read_op(alloc, words)?;
    let kids = read_numbers(alloc, kids)?;
    form_text(alloc, graph, classes, &op, &kids)
}

fn form_text(alloc: Global, graph: &Graph, classes: &Classes, op: &Op, kids: &[NodeId]) -> Answer
    requires { Knows graph.now.nodes classes.now }
{
    if !are_members(classes, kids) {
        return Err(NoAnswer::Unreadable);
    }
    match classes.class_with(alloc, graph, op, kids)? {
        Some(class) => shown(alloc, class),
        None => said(alloc, "-"),
    }
}

// Whether the numbers are those of nodes that are in classes.
fn are_members(classes: &Classes, nodes: &[NodeId]) -> bool
    ensures { IsTrue result → All (λ n. n < length classes.now.numbers) nodes.now }
{
    let len = classes.len();
    nodes.iter().all(|n| *n < len)
}

fn firsts_text(alloc: Global, graph: &Graph, classes: &Classes) -> Answer
    requires { Knows graph.now.nodes classes.now }
{
    let mut nodes = Vec::new(alloc);
    for (n, is_first) in classes.first_of_forms(alloc, graph)?.iter().enumerate() {
        if *is_first {
            nodes.push(n)?;
        }
    }
    Ok(format!(in alloc; "{nodes:?}")?)
}

fn numbers_text(alloc: Global, classes: &Classes) -> Answer {
    nodes_text(alloc, &classes.numbers(alloc)?)
}

fn joined_text(alloc: Global, classes: &Classes, words: &[&str]) -> Answer {
    let [first, second] = words else {
        return Err(NoAnswer::Unreadable);
    };
    let (first, second) = (read_member(classes, first)?, read_member(classes, second)?);
    shown(alloc, classes.joined(first, second))
}

fn members_text(alloc: Global, classes: &Classes, words: &[&str]) -> Answer {
    let [n] = words else {
        return Err(NoAnswer::Unreadable);
    };
    let (one, others) = classes.members(read_member(classes, n)?);
    let mut nodes = Vec::from_slice(alloc, others)?;
    nodes.push(one)?;
    nodes.sort_unstable();
    nodes_text(alloc, &nodes)
}

fn with_text(alloc: Global, classes: &Classes, words: &[&str]) -> Answer {
    let [n] = words else {
        return Err(NoAnswer::Unreadable);
    };
    nodes_text(alloc, classes.nodes_with(number(n)?))
}

fn nodes_text(alloc: Global, nodes: &[NodeId]) -> Answer {
    Ok(format!(in alloc; "{nodes:?}")?)
}
