//! The least graph of two nodes of a graph that steps make.

ghost use Rattle.std.specs.Prelude.{IfOk};
ghost use Rattle.pv_rounds.specs.Searching.{IsLeastGraph};

use cases_graphs::graphs::{change, read_node};
use cases_graphs::rules::is_well_made;
use cases_words::answers::NoAnswer;
use cases_words::bench::words;
use pv_alike::{Least, least};
use pv_graph::Graph;
use std::alloc::Global;

/// The least graph of two nodes of the graph that the steps make, which must be sealed.
pub(crate) fn least_of_nodes(alloc: Global, nodes: &str, steps: &str) -> Result<Least, NoAnswer>
    ensures { IfOk result (λ l. IsLeastGraph l.graph) }
{
    let graph = make_graph(alloc, steps)?;
    let nodes = words(alloc, nodes)?;
    let [first, second] = *nodes.as_slice() else {
        return Err(NoAnswer::Unreadable);
    };
    let first = read_node(&graph, first)?;
    let second = read_node(&graph, second)?;
    if graph.is_open() || !is_well_made(&graph) {
        return Err(NoAnswer::Unreadable);
    }
    let found = least(alloc, &graph, first, second)?;
    Ok(found)
}

// The graph that the steps make.
fn make_graph(alloc: Global, steps: &str) -> Result<Graph, NoAnswer> {
    let mut graph = Graph::new(alloc);
    for step in steps.split(';') {
        change(alloc, &mut graph, &words(alloc, step)?)?;
    }
    Ok(graph)
}
