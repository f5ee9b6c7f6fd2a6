//! The least graph of the roots of two methods.

ghost use Rattle.std.specs.Prelude.{◌≡◌, ◌<◌, Some, true, IfOk, IsTrue, length, slice_get};
ghost use Rattle.pv_frame.specs.Answers.{HasCode, HasReferences};
ghost use Rattle.pv_graph.specs.Graphs.{IsWellMade};
ghost use Rattle.pv_rounds.specs.Searching.{IsLeastGraph};
ghost use Rattle.cases_search.specs.Roots.{HasRoots};

use cases_methods::coded::{Placed, read_placed};
use cases_words::answers::NoAnswer;
use cases_words::bench::{Bench, number};
use pv_alike::{Least, least};
use pv_build::convert;
use pv_frame::Refused;
use pv_graph::{Graph, NodeId};
use std::alloc::Global;

/// The least graph of the roots of two methods, each at its place in the class file that some bytes are.
pub(crate) fn least_of_two(bench: &Bench, words: &[&str]) -> Result<Least, NoAnswer>
    ensures least { IfOk result (λ l. IsLeastGraph l.graph) }
    ensures roots { IfOk result HasRoots }
{
    let alloc = bench.alloc();
    let [first, place, second, other] = *words else {
        return Err(NoAnswer::Unreadable);
    };
    let first = read_placed(alloc, &bench.bytes(first)?, number(place)?)?;
    let second = read_placed(alloc, &bench.bytes(second)?, number(other)?)?;
    least_of_methods(alloc, &first, &second)
}

// The least graph of the roots of two methods. A method that is refused can't be read.
fn least_of_methods(alloc: Global, first: &Placed, second: &Placed) -> Result<Least, NoAnswer>
    requires code { HasCode first.now.class first.now.place }
    requires references { HasReferences first.now.class }
    requires other_code { HasCode second.now.class second.now.place }
    requires other_references { HasReferences second.now.class }
    ensures least { IfOk result (λ l. IsLeastGraph l.graph) }
    ensures roots { IfOk result HasRoots }
{
    let mut graph = Graph::new(alloc);
    let one = add_root(alloc, first, &mut graph)?;
    let two = add_root(alloc, second, &mut graph)?;
    if !graph.seal() || one >= graph.len() || two >= graph.len() {
        return Err(NoAnswer::Unreadable);
    }
    let found = least(alloc, &graph, one, two)?;
    Ok(found)
}

// Adds the root of a method.
fn add_root(alloc: Global, method: &Placed, graph: &mut Graph) -> Result<NodeId, NoAnswer>
    requires code { HasCode method.now.class method.now.place }
    requires references { HasReferences method.now.class }
    requires made { IsWellMade graph.old }
    requires open { graph.old.is_open ≡ true }
    ensures made { IfOk result (λ root. IsWellMade graph.new) }
    ensures open { IfOk result (λ root. graph.new.is_open ≡ true) }
{
    match convert(alloc, &method.class, method.place, graph) {
        Ok(root) => Ok(root),
        Err(Refused::Cause(_)) => Err(NoAnswer::Unreadable),
        Err(Refused::Memory) => Err(NoAnswer::Memory),
    }
}
