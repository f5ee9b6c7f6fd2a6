//! The rules inside a lemma, and whether a lemma is accepted by them.

ghost use Rattle.std.specs.Prelude.{◌↔◌, IfOk, IsTrue, reverse};
ghost use Rattle.std.specs.List.{AllByRecursion};
ghost use Rattle.pv_lemmas.specs.Lemmas.{InLemma, IsOutsideBlocks, Uses};
ghost use Rattle.pv_rules.specs.Known.{IsShown, IsStatus};

use crate::before::Before;
use pv_axioms::Axioms;
use pv_base::Gate;
use pv_check::{Checked, Checker, Rules};
use pv_graph::{Graph, NodeId};
use pv_lemmas::{Known, Place, settled_variables, variables_graph};
use pv_pieces::Workers;
use pv_steps::{Lemma, Step};
use pv_value::Memory;
use std::alloc::Global;
use std::thread::Threads;

/// The axioms whatever stands for the variables of a lemma, of which some stand for settled nodes alone, and the accepted
/// ones of the lemmas before it. No other nodes are assumed to end, since no block is open inside a lemma.
#[derive(Drop)]
pub(crate) struct LemmaRules<'a> {
    axioms: &'a Axioms,
    before: &'a Before<'a>,
    settled: &'a [NodeId],
}

impl Rules for LemmaRules<'_> {
    ghost use Rattle.pv_lemmas.proofs.Cited.{in_lemma_prepared};

    ghost instances = { λ r. InLemma (Uses (reverse r.before.now)) r.settled.now };

    ghost prepared = { λ r. in_lemma_prepared (reverse r.before.now) r.settled.now };

    fn is_axiom(
        &self,
        alloc: Global,
        graph: &Graph,
        _assumed: &[NodeId],
        number: u32,
        nodes: &[NodeId],
        a: NodeId,
        b: NodeId,
    ) -> Result<bool, Memory> {
        self.axioms
            .open_instance_of(alloc, graph, self.settled, number, nodes, a, b)
    }

    fn is_lemma(
        &self,
        alloc: Global,
        graph: &Graph,
        _assumed: &[NodeId],
        number: u32,
        nodes: &[NodeId],
        a: NodeId,
        b: NodeId,
    ) -> Result<bool, Memory> {
        let at = Place {
            graph,
            assumed: self.settled,
            nodes,
            left: a,
            right: b,
        };
        self.before.is_use(alloc, number, &at)
    }
}

fn is_outside_blocks(step: &Step) -> bool
    ensures { IsTrue result ↔ IsOutsideBlocks step.now }
{
    match step {
        Step::Open(..) | Step::Close(..) | Step::Assume(..) | Step::Finish(..) => false,
        _ => true,
    }
}

fn are_outside_blocks(steps: &[Step]) -> bool
    ensures { IsTrue result ↔ AllByRecursion IsOutsideBlocks steps.now }
{
    for step in steps {
        if !is_outside_blocks(step) {
            return false;
        }
    }
    true
}

impl LemmaRules<'_> {
    // The graph after the steps of a lemma, if they show by these rules that its sides are equal.
    fn graph_of<T: Threads + Sync, G: Gate>(
        &self,
        workers: &Workers<T, G>,
        alloc: Global,
        lemma: &Lemma,
    ) -> Result<Option<Graph>, Memory>
        ensures { IfOk result (λ graph. IsShown (InLemma (Uses (reverse self.now.before.now)) self.now.settled.now) lemma.now graph) }
    {
        let start = variables_graph(alloc, lemma.vars.as_slice())?;
        let checker = Checker::new(
            self,
            &start,
            lemma.left,
            lemma.right,
            lemma.steps.as_slice(),
        );
        match checker.check(&checker.crew(workers), alloc)? {
            Checked::Accepted => checker.graph_after(alloc),
            Checked::Rejected(_) => Ok(None),
        }
    }
}

/// The lemma with the graph after its steps, if it is accepted after those before it.
pub(crate) fn accept<'a, T: Threads + Sync, G: Gate>(
    workers: &Workers<T, G>,
    alloc: Global,
    axioms: &Axioms,
    before: &Before,
    lemma: &'a Lemma,
) -> Result<Option<Known<'a>>, Memory>
    ensures { IfOk result (λ known. IsStatus (reverse before.now) lemma.now known) }
{
    if !are_outside_blocks(lemma.steps.as_slice()) {
        return Ok(None);
    }
    let settled = settled_variables(alloc, lemma.vars.as_slice())?;
    let rules = LemmaRules {
        axioms,
        before,
        settled: settled.as_slice(),
    };
    let Some(graph) = rules.graph_of(workers, alloc, lemma)? else {
        return Ok(None);
    };
    if lemma.left >= graph.len() || lemma.right >= graph.len() {
        return Ok(None);
    }
    Ok(Some(Known { lemma, graph }))
}
