//! Steps that state what facts and rules show.

ghost use Rattle.std.specs.Prelude.{◌≡◌, ◌↔◌, ℕ, IfOk, IsTrue, MatchOption, None, Some, reverse};
ghost use Rattle.pv_steps.specs.Steps.{Shows, assumed_in};
ghost use Rattle.pv_steps.specs.Right.{by_axiom, by_lemma};
ghost use Rattle.pv_check.specs.Kept.{open_now};
ghost use Rattle.pv_check.specs.Inductions.{ending_nodes};

use crate::rules::Rules;
use crate::seen::{Seen, Within};
use pv_graph::{Graph, NodeId};
use pv_steps::{Fact, Step};
use pv_value::Memory;
use std::alloc::Global;

// The nodes that a step assumes to end, where it opens an ending block.
fn ending_nodes(step: &Step) -> Option<&[NodeId]>
    ensures { MatchOption result (ending_nodes step.now ≡ None) (λ nodes. ending_nodes step.now ≡ Some nodes.now) }
{
    match step {
        Step::Assume(_, nodes) => Some(nodes.as_slice()),
        _ => None,
    }
}

impl Seen<'_> {
    // Whether two visible facts state that a is equal to some node, and this to b.
    pub(crate) fn is_chain(&self, a: NodeId, b: NodeId, first: Fact, second: Fact) -> bool
        ensures { IsTrue result ↔ ((c : ℕ) × Shows (reverse self.now.steps.now) (open_now self.now.steps.now) first a c × Shows (reverse self.now.steps.now) (open_now self.now.steps.now) second c b) }
    {
        match self.visible(Within::Here, first) {
            Some((left, middle)) => {
                if left == a {
                    self.shows(Within::Here, second, middle, b)
                } else {
                    false
                }
            }
            None => false,
        }
    }

    // The nodes that the innermost ending block assumes to end.
    fn assumed(&self) -> &[NodeId]
        ensures { result.now ≡ assumed_in (open_now self.now.steps.now) }
    {
        let mut around = self.inside();
        while around != 0 {
            if let Some(nodes) = ending_nodes(&self.steps[around - 1]) {
                return nodes;
            }
            around = self.innermost[around - 1];
        }
        &[]
    }

    // Whether two nodes are an instance of the axiom with a number, with the nodes assumed to end that the
    // open ending block assumes.
    pub(crate) fn is_axiom<R: Rules>(
        &self,
        alloc: Global,
        rules: &R,
        graph: &Graph,
        number: u32,
        nodes: &[NodeId],
        a: NodeId,
        b: NodeId,
    ) -> Result<bool, Memory>
        ensures { IfOk result (λ yes. IsTrue yes ↔ R.instances rules.now graph.now (assumed_in (open_now self.now.steps.now)) (by_axiom number) nodes.now a b) }
    {
        rules.is_axiom(alloc, graph, self.assumed(), number, nodes, a, b)
    }

    // The same of the lemma with a number.
    pub(crate) fn is_use<R: Rules>(
        &self,
        alloc: Global,
        rules: &R,
        graph: &Graph,
        number: u32,
        nodes: &[NodeId],
        a: NodeId,
        b: NodeId,
    ) -> Result<bool, Memory>
        ensures { IfOk result (λ yes. IsTrue yes ↔ R.instances rules.now graph.now (assumed_in (open_now self.now.steps.now)) (by_lemma number) nodes.now a b) }
    {
        rules.is_lemma(alloc, graph, self.assumed(), number, nodes, a, b)
    }
}
