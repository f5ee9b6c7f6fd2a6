//! The variables of a lemma as nodes.

ghost use Rattle.std.specs.Prelude.{◌≡◌, ◌↔◌, IfOk, IsTrue, Some, map, slice_get};
ghost use Rattle.pv_graph.specs.Calls.{IsSame};
ghost use Rattle.pv_graph.specs.Ops.{HaveSorts};
ghost use Rattle.pv_lemmas.specs.Lemmas.{settled_from, variables_graph};

use pv_graph::{Graph, GraphFault, NodeId, Op, OpSort};
use pv_steps::Var;
use pv_value::Memory;
use std::alloc::Global;

/// The graph of the variables alone, with which that of a lemma begins. Out of memory is the one error; it also says
/// that there are 2^32 - 1 variables or more.
pub fn variables_graph(alloc: Global, vars: &[Var]) -> Result<Graph, Memory>
    ensures { IfOk result (λ g. IsSame (variables_graph vars.now) g) }
{
    let mut graph = Graph::new(alloc);
    for var in vars {
        let j = graph.len();
        match graph.add(alloc, Op::Var(j, var.sort), &[]) {
            Ok(_) => {}
            Err(GraphFault::Memory) => return Err(Memory),
            Err(GraphFault::Sort) => unreachable!(),
        }
    }
    graph.seal();
    Ok(graph)
}

/// The numbers of the variables for which only settled nodes may stand. Out of memory is the one error; it also says that
/// there are more than 2^32 variables.
pub fn settled_variables(alloc: Global, vars: &[Var]) -> Result<Vec<NodeId>, Memory>
    ensures { IfOk result (λ settled. settled.items ≡ settled_from 0 vars.now) }
{
    let mut settled = Vec::new(alloc);
    for (j, var) in vars.iter().enumerate() {
        if j > NodeId::MAX as usize {
            return Err(Memory);
        }
        if var.settled {
            settled.push(j as NodeId)?;
        }
    }
    Ok(settled)
}

// Whether the node is there and has the sort.
fn has_sort(graph: &Graph, n: NodeId, sort: OpSort) -> bool
    ensures { IsTrue result ↔ (slice_get graph.now.sorts n ≡ Some sort) }
{
    n < graph.len() && graph.sort(n) == sort
}

// Whether there is a node for each variable, of its sort.
pub(crate) fn have_sorts(graph: &Graph, nodes: &[NodeId], vars: &[Var]) -> bool
    ensures { IsTrue result ↔ HaveSorts graph.now.sorts nodes.now (map (λ v. v.sort) vars.now) }
{
    if nodes.len() != vars.len() {
        return false;
    }
    for (k, var) in vars.iter().enumerate() {
        if !has_sort(graph, nodes[k], var.sort) {
            return false;
        }
    }
    true
}
