//! Calls of `pv_graph`, and the steps of `pv_denote`, `pv_alike` and `pv_pattern`.
//!
//! A line `graph STEP; ..` does steps on one graph, empty and open at first, and answers what each answers.
//!
//! | Step | Answer |
//! |---|---|
//! | `OPERATION KID ..` | the number of the node, or the fault |
//! | `begin DEPTH SORT` | the number of a theta without kids |
//! | `tie THETA FIRST SECOND` | `tied`, or the fault |
//! | `seal` | whether the base is closed |
//! | `node NUMBER` | the operation and the kids of a node |
//! | `count` | how many nodes there are |
//! | `free NODE DEPTH` | whether the depth is free in the node, by a search and on a prepared copy |
//! | `settled NODE ASSUMED ..` | whether the node is settled with these nodes assumed to end, and, of none, on a prepared copy |
//! | `least ..`, `become ..` | the least graph of two nodes: see `leasts` |
//! | `den ..`, `at ..` | what a node means: see `meanings` |
//! | `instance ..` | whether two nodes are an instance of an axiom: see `axioms` |
//! | `say args NUMBER ..`, `say STEP` | `-`: sets the arguments, or says a step of `settings`, for `den` and `at` from there on |
//!
//! An OPERATION is its name with its parameters, as `int 5`, `param 0 I` (the first argument, of sort I), `theta 1`,
//! `load int`, `literal TEXT`, `getfield CLASS NAME DESCRIPTOR` or `iadd`. A sort is its letter. A kid or a number that
//! the graph doesn't have can't be read, nor what a graph that is open, or sealed, doesn't take.

ghost use Rattle.std.specs.Prelude.{◌≡◌, ◌<◌, ◌∷◌, [], true, length, IfOk, IsTrue};
ghost use Rattle.pv_graph.specs.Calls.{AreNodes, MayAdd};

use crate::axioms::instance_text;
use crate::leasts::{become_least, least_text};
use crate::meanings::Meanings;
use cases_words::answers::{Answer, List, NoAnswer, said, shown};
use cases_words::bench::{Bench, named, number, words};
use cases_words::values::{KINDS, OPERATIONS, read_name, read_sym};
use pv_graph::{Graph, GraphFault, Node, NodeId, Op, OpSort};
use pv_value::{Memory, Sym};
use std::alloc::Global;

const SORTS: [(&str, OpSort); 8] = [
    ("I", OpSort::I),
    ("L", OpSort::L),
    ("A", OpSort::A),
    ("N", OpSort::N),
    ("F", OpSort::F),
    ("T", OpSort::T),
    ("H", OpSort::H),
    ("R", OpSort::R),
];

/// `graph STEP; ..`
pub fn graph(bench: &Bench, rest: &str) -> Answer {
    let alloc = bench.alloc();
    let mut graph = Graph::new(alloc);
    let mut meanings = Meanings::new(alloc);
    let mut list = List::new(alloc);
    for step in rest.split(';') {
        let words = words(alloc, step)?;
        let answer = graph_step(alloc, &mut graph, &mut meanings, &words)?;
        list.add(answer.as_str())?;
    }
    list.into_text()
}

fn graph_step(alloc: Global, graph: &mut Graph, meanings: &mut Meanings, words: &[&str]) -> Answer {
    match *words {
        ["say", ref step @ ..] => meanings.take(alloc, step),
        ["den", ref question @ ..] => meanings.den(alloc, graph, question),
        ["at", place, ref question @ ..] => meanings.at(alloc, graph, place, question),
        ["least", first, second] => least_text(alloc, graph, first, second),
        ["become", first, second] => become_least(alloc, graph, first, second),
        ["instance", ref question @ ..] => instance_text(alloc, graph, question),
        ["count" | "node" | "free" | "settled", ..] => asked(alloc, graph, words),
        _ => change(alloc, graph, words),
    }
}

// What a step asks of a graph.
fn asked(alloc: Global, graph: &Graph, words: &[&str]) -> Answer {
    match *words {
        ["count"] => shown(alloc, graph.len()),
        ["node", n] => node_text(alloc, graph.node(read_node(graph, n)?)),
        ["free", n, d] => free(alloc, graph, read_node(graph, n)?, number(d)?),
        ["settled", n, ref assumed @ ..] => {
            let assumed = read_numbers(alloc, assumed)?;
            settled(alloc, graph, read_node(graph, n)?, &assumed)
        }
        _ => Err(NoAnswer::Unreadable),
    }
}

/// Does a step that may change a graph.
pub fn change(alloc: Global, graph: &mut Graph, words: &[&str]) -> Answer {
    match *words {
        ["begin", d, sort] => begin(alloc, graph, number(d)?, named(&SORTS, sort)?),
        ["tie", theta, first, second] => {
            let (first, second) = (read_node(graph, first)?, read_node(graph, second)?);
            tie(alloc, graph, read_node(graph, theta)?, first, second)
        }
        ["seal"] => seal(alloc, graph),
        _ => add(alloc, graph, words),
    }
}

/// The number of a node of the graph.
pub fn read_node(graph: &Graph, word: &str) -> Result<NodeId, NoAnswer>
    ensures { IfOk result (λ n. n < length graph.now.nodes) }
{
    let n = number(word)?;
    if n < graph.len() {
        Ok(n)
    } else {
        Err(NoAnswer::Unreadable)
    }
}

/// The numbers that words write.
pub fn read_numbers(alloc: Global, words: &[&str]) -> Result<Vec<NodeId>, NoAnswer> {
    let mut numbers = Vec::new(alloc);
    for word in words {
        numbers.push(number(word)?)?;
    }
    Ok(numbers)
}

fn add(alloc: Global, graph: &mut Graph, words: &[&str]) -> Answer {
    let (op, kids) = read_op(alloc, words)?;
    let kids = read_numbers(alloc, kids)?;
    if !may_add(graph, &op) || !are_nodes(graph, &kids) {
        return Err(NoAnswer::Unreadable);
    }
    match graph.add(alloc, op, &kids) {
        Ok(n) => shown(alloc, n),
        Err(fault) => fault_text(alloc, fault),
    }
}

// Whether a graph takes the operation: a theta is added to a sealed graph alone.
fn may_add(graph: &Graph, op: &Op) -> bool
    ensures { IsTrue result → MayAdd graph.now op.now }
{
    match op {
        Op::Theta(_) => !graph.is_open(),
        _ => true,
    }
}

// Whether the numbers are those of nodes.
fn are_nodes(graph: &Graph, kids: &[NodeId]) -> bool
    ensures { IsTrue result → AreNodes graph.now kids.now }
{
    let nodes = graph.len();
    kids.iter().all(|kid| *kid < nodes)
}

/// The fault of a call.
pub fn fault_text(alloc: Global, fault: GraphFault) -> Answer {
    match fault {
        GraphFault::Sort => said(alloc, "Sort"),
        GraphFault::Memory => Err(NoAnswer::Memory),
    }
}

fn begin(alloc: Global, graph: &mut Graph, d: u32, sort: OpSort) -> Answer {
    if !graph.is_open() || !(1..=16).contains(&d) || sort == OpSort::R {
        return Err(NoAnswer::Unreadable);
    }
    shown(alloc, graph.theta(alloc, d, sort)?)
}

fn tie(alloc: Global, graph: &mut Graph, theta: NodeId, first: NodeId, second: NodeId) -> Answer
    requires theta { theta < length graph.old.nodes }
    requires kids { AreNodes graph.old (first ∷ second ∷ []) }
{
    if !graph.node(theta).is_open() {
        return Err(NoAnswer::Unreadable);
    }
    match graph.tie(alloc, theta, first, second) {
        Ok(()) => said(alloc, "tied"),
        Err(fault) => fault_text(alloc, fault),
    }
}

fn seal(alloc: Global, graph: &mut Graph) -> Answer {
    if !graph.is_open() {
        return Err(NoAnswer::Unreadable);
    }
    shown(alloc, graph.seal())
}

fn free(alloc: Global, graph: &Graph, n: NodeId, d: u32) -> Answer
    requires { n < length graph.now.nodes }
{
    let searched = graph.free(alloc, n, d)?;
    let copy = prepared(alloc, graph)?;
    shown(alloc, (searched, copy.free_now(n, d)))
}

fn settled(alloc: Global, graph: &Graph, n: NodeId, assumed: &[NodeId]) -> Answer
    requires { n < length graph.now.nodes }
{
    let searched = graph.settled(alloc, n, assumed)?;
    if !assumed.is_empty() {
        return shown(alloc, searched);
    }
    let copy = prepared(alloc, graph)?;
    shown(alloc, (searched, copy.settled_now(n)))
}

/// A prepared copy.
pub fn prepared(alloc: Global, graph: &Graph) -> Result<Graph, Memory>
    ensures prepared { IfOk result (λ copy. copy.is_prepared ≡ true) }
    ensures len { IfOk result (λ copy. length copy.nodes ≡ length graph.now.nodes) }
{
    let mut copy = graph.copy(alloc)?;
    copy.prepare(alloc)?;
    Ok(copy)
}

/// An operation, and the words after it.
pub fn read_op<'a>(alloc: Global, words: &'a [&'a str]) -> Result<(Op, &'a [&'a str]), NoAnswer> {
    match words {
        ["int", n, kids @ ..] => Ok((Op::Int(number(n)?), kids)),
        ["long", n, kids @ ..] => Ok((Op::Long(number(n)?), kids)),
        ["literal", text, kids @ ..] => Ok((Op::Literal(read_name(alloc, text)?), kids)),
        ["param", n, sort, kids @ ..] => Ok((Op::Param(number(n)?, named(&SORTS, sort)?), kids)),
        ["theta", d, kids @ ..] => Ok((Op::Theta(number(d)?), kids)),
        ["eval", d, kids @ ..] => Ok((Op::Eval(number(d)?), kids)),
        ["pass", d, kids @ ..] => Ok((Op::Pass(number(d)?), kids)),
        ["shift", d, kids @ ..] => Ok((Op::Shift(number(d)?), kids)),
        ["load", kind, kids @ ..] => Ok((Op::Load(named(&KINDS, kind)?), kids)),
        ["store", kind, kids @ ..] => Ok((Op::Store(named(&KINDS, kind)?), kids)),
        [op, class, name, desc, kids @ ..] if takes_symbol(op) => {
            let sym = read_sym(alloc, class, name, desc)?;
            Ok((with_symbol(op, sym)?, kids))
        }
        [op, kids @ ..] => Ok((plain(op)?, kids)),
        [] => Err(NoAnswer::Unreadable),
    }
}

fn takes_symbol(op: &str) -> bool {
    match op {
        "getstatic" | "putstatic" | "getfield" | "putfield" => true,
        "callend" | "callres" | "callfault" | "callheap" => true,
        _ => false,
    }
}

fn with_symbol(op: &str, sym: Sym) -> Result<Op, NoAnswer> {
    match op {
        "getstatic" => Ok(Op::GetStatic(sym)),
        "putstatic" => Ok(Op::PutStatic(sym)),
        "getfield" => Ok(Op::GetField(sym)),
        "putfield" => Ok(Op::PutField(sym)),
        "callend" => Ok(Op::CallEnd(sym)),
        "callres" => Ok(Op::CallRes(sym)),
        "callfault" => Ok(Op::CallFault(sym)),
        "callheap" => Ok(Op::CallHeap(sym)),
        _ => Err(NoAnswer::Unreadable),
    }
}

// An operation that takes no word but its name.
fn plain(op: &str) -> Result<Op, NoAnswer> {
    Ok(match op {
        "null" => Op::Null,
        "this" => Op::This,
        "heap0" => Op::Heap0,
        "unit" => Op::Unit,
        "never" => Op::Never,
        "clear" => Op::Clear,
        "fnull" => Op::FNull,
        "farith" => Op::FArith,
        "findex" => Op::FIndex,
        "zero" => Op::Zero,
        "succ" => Op::Succ,
        "thrown" => Op::Thrown,
        "isclear" => Op::IsClear,
        "both" => Op::Both,
        "phi" => Op::Phi,
        "root" => Op::Root,
        "aeq" => Op::Aeq,
        "length" => Op::Length,
        _ => Op::Scalar(named(&OPERATIONS, op)?),
    })
}

/// The operation and the kids of a node.
pub fn node_text(alloc: Global, node: &Node) -> Answer {
    let (op, kids) = (&node.op, node.kids.as_slice());
    Ok(format!(in alloc; "{op:?} {kids:?}")?)
}
