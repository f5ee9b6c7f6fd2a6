//! Calls of `pv_build`, and of `pv_counted` for the roots of methods.
//!
//! | Line | Answer |
//! |---|---|
//! | `root FUEL NUMBER ..; METHOD ..; STEP; ..` | the value of the root of the first of these methods, with this fuel, at these arguments: as `machine` says how the method ends, or `None` where it has no value; or the cause for which it has no root |
//! | `cleared-root FUEL NUMBER ..; METHOD ..; STEP; ..` | the same of the root of its cleared graph |
//!
//! A METHOD and a STEP are as those of `machine`.

ghost use Rattle.std.specs.Prelude.{◌≡◌, ◌<◌, false, IfOk, length};
ghost use Rattle.pv_frame.specs.Answers.{HasCode, HasReferences};
ghost use Rattle.pv_graph.specs.Graphs.{IsWellMade};

use crate::coded::with_code;
use crate::machine::{end_text, setting_of};
use cases_files::samples::class_of;
use cases_graphs::settings::Setting;
use cases_words::answers::{Answer, NoAnswer, said};
use cases_words::bench::{Bench, number, words};
use cases_words::values::read_nums;
use pv_alike::least;
use pv_build::convert;
use pv_class::ClassFile;
use pv_counted::clear;
use pv_denote::den;
use pv_frame::{Cause, Refused};
use pv_graph::{Graph, NodeId};
use pv_value::{Input, Val};
use std::alloc::Global;

// The greatest fuel of `den` is below this.
const LIMIT: u64 = 1 << 62;

/// `root FUEL NUMBER ..; METHOD ..; STEP; ..`
pub fn root(bench: &Bench, rest: &str) -> Answer {
    let alloc = bench.alloc();
    let asked = read_asked(rest)?;
    let class = with_code(alloc, &class_of(bench, &words(alloc, asked.methods)?)?)?;
    match sealed_root(alloc, &class)? {
        Ok(Rooted { graph, root }) => value_of(alloc, &graph, root, &asked),
        Err(cause) => cause_text(alloc, cause),
    }
}

/// `cleared-root FUEL NUMBER ..; METHOD ..; STEP; ..`
pub fn cleared_root(bench: &Bench, rest: &str) -> Answer {
    let alloc = bench.alloc();
    let asked = read_asked(rest)?;
    let class = with_code(alloc, &class_of(bench, &words(alloc, asked.methods)?)?)?;
    match sealed_root(alloc, &class)? {
        Ok(Rooted { graph, root }) => {
            let least = least(alloc, &graph, root, root)?;
            let cleared = clear(alloc, &least)?;
            value_of(alloc, cleared.graph(), cleared.first(), &asked)
        }
        Err(cause) => cause_text(alloc, cause),
    }
}

// What a line asks: with which fuel and at which arguments, of which methods, in which setting.
#[derive(Clone, Copy)]
struct Asked<'a> {
    how: &'a str,
    methods: &'a str,
    setting: &'a str,
}

fn read_asked(rest: &str) -> Result<Asked, NoAnswer> {
    let (how, rest) = rest.split_once(';').ok_or(NoAnswer::Unreadable)?;
    let (methods, setting) = rest.split_once(';').unwrap_or((rest, ""));
    Ok(Asked {
        how,
        methods,
        setting,
    })
}

// A sealed graph with the root of a method.
#[derive(Drop)]
struct Rooted {
    graph: Graph,
    root: NodeId,
}

// The root of the first method of a class file, or the cause for which it has none.
fn sealed_root(alloc: Global, class: &ClassFile) -> Result<Result<Rooted, Cause>, NoAnswer>
    requires code { HasCode class.now 0 }
    requires references { HasReferences class.now }
    ensures made { IfOk result (λ found. IfOk found (λ r. IsWellMade r.graph)) }
    ensures sealed { IfOk result (λ found. IfOk found (λ r. r.graph.is_open ≡ false)) }
    ensures there { IfOk result (λ found. IfOk found (λ r. r.root < length r.graph.nodes)) }
{
    let mut graph = Graph::new(alloc);
    match convert(alloc, class, 0, &mut graph) {
        Ok(root) => {
            if !graph.is_open() || !graph.seal() || root >= graph.len() {
                return Err(NoAnswer::Unreadable);
            }
            Ok(Ok(Rooted { graph, root }))
        }
        Err(Refused::Cause(cause)) => Ok(Err(cause)),
        Err(Refused::Memory) => Err(NoAnswer::Memory),
    }
}

fn cause_text(alloc: Global, cause: Cause) -> Answer {
    let (kind, at) = (cause.kind, cause.at);
    Ok(format!(in alloc; "{kind:?} at {at}")?)
}

// The value of a root.
fn value_of(alloc: Global, graph: &Graph, root: NodeId, asked: &Asked) -> Answer
    requires sealed { graph.now.is_open ≡ false }
    requires there { root < length graph.now.nodes }
{
    let how = words(alloc, asked.how)?;
    let [fuel, args @ ..] = how.as_slice() else {
        return Err(NoAnswer::Unreadable);
    };
    let fuel = number(fuel)?;
    if fuel >= LIMIT {
        return Err(NoAnswer::Unreadable);
    }
    let Setting { world, heap } = setting_of(alloc, asked.setting)?;
    let input = Input {
        this: 1,
        args: read_nums(alloc, args)?,
        heap,
    };
    match den(alloc, graph, &world, &input, root, &[], fuel)? {
        Some(Val::End(outcome)) => end_text(alloc, Some(outcome), asked.setting),
        Some(_) => Err(NoAnswer::Unreadable),
        None => said(alloc, "None"),
    }
}
