//! Matches, and what a look shows, as texts; and the number of a node, as a word.

ghost use Rattle.std.specs.Prelude.{◌<◌, IfOk, length};

use cases_graphs::graphs::node_text;
use cases_words::answers::{Answer, NoAnswer, said};
use cases_words::bench::number;
use cases_words::values::escaped;
use pv_classes::Classes;
use pv_graph::{Graph, NodeId};
use pv_match::{Match, Matches, Param};
use pv_rounds::Looked;
use pv_value::{Kind, Sym};
use std::alloc::Global;

/// What matching answers: `more 3`, or the matches.
pub(crate) fn matches_answer(alloc: Global, answer: &Matches) -> Answer {
    match answer {
        Matches::All(list) => list_text(alloc, list),
        Matches::More(n) => Ok(format!(in alloc; "more {n}")?),
    }
}

/// What a look shows: `over 3`, `saturated`, or `open 3`, where there are so many matches and some joins more.
pub(crate) fn looked_text(alloc: Global, looked: &Looked) -> Answer {
    match looked {
        Looked::Over(n) => Ok(format!(in alloc; "over {n}")?),
        Looked::Saturated => said(alloc, "saturated"),
        Looked::Open(list) => {
            let count = list.len();
            Ok(format!(in alloc; "open {count}")?)
        }
    }
}

// The matches, with commas between them; `-` if there are none.
fn list_text(alloc: Global, list: &[Match]) -> Answer {
    let mut text = String::new(alloc);
    for (i, one) in list.iter().enumerate() {
        if i > 0 {
            text.push_str(", ")?;
        }
        text.push_str(match_text(alloc, one)?.as_str())?;
    }
    if text.is_empty() {
        text.push('-')?;
    }
    Ok(text)
}

fn match_text(alloc: Global, one: &Match) -> Answer {
    let axiom = one.axiom;
    let params = params_text(alloc, &one.params)?;
    let (params, classes) = (params.as_str(), one.classes.as_slice());
    Ok(format!(in alloc; "{axiom} ({params}) {classes:?}")?)
}

fn params_text(alloc: Global, params: &[Param]) -> Answer {
    let mut text = String::new(alloc);
    for (i, param) in params.iter().enumerate() {
        if i > 0 {
            text.push_str(", ")?;
        }
        text.push_str(param_text(alloc, param)?.as_str())?;
    }
    Ok(text)
}

fn param_text(alloc: Global, param: &Param) -> Answer {
    match param {
        Param::Depth(d) => Ok(format!(in alloc; "depth {d}")?),
        Param::Symbol(sym) => sym_text(alloc, sym),
        Param::Kind(kind) => said(alloc, kind_text(*kind)),
        Param::Int(n) => Ok(format!(in alloc; "int {n}")?),
        Param::Long(n) => Ok(format!(in alloc; "long {n}")?),
    }
}

fn sym_text(alloc: Global, sym: &Sym) -> Answer {
    let class = escaped(alloc, sym.class.bytes())?;
    let name = escaped(alloc, sym.name.bytes())?;
    let desc = escaped(alloc, sym.desc.bytes())?;
    let (class, name, desc) = (class.as_str(), name.as_str(), desc.as_str());
    Ok(format!(in alloc; "{class} {name} {desc}")?)
}

fn kind_text(kind: Kind) -> &'static str {
    match kind {
        Kind::Int => "int[]",
        Kind::Long => "long[]",
        Kind::Ref => "ref[]",
        Kind::Byte => "byte[]",
        Kind::Char => "char[]",
        Kind::Short => "short[]",
    }
}

/// The number of a node that is in a class.
pub(crate) fn read_member(classes: &Classes, word: &str) -> Result<NodeId, NoAnswer>
    ensures { IfOk result (λ n. n < length classes.now.numbers) }
{
    let n = number(word)?;
    if n < classes.len() {
        Ok(n)
    } else {
        Err(NoAnswer::Unreadable)
    }
}

/// The nodes of a graph, with commas between them.
pub(crate) fn all_nodes_text(alloc: Global, graph: &Graph) -> Answer {
    let mut text = String::new(alloc);
    for n in 0..graph.len() {
        if n > 0 {
            text.push_str(", ")?;
        }
        text.push_str(node_text(alloc, graph.node(n))?.as_str())?;
    }
    Ok(text)
}
