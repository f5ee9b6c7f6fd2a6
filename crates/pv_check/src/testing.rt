//! Whether a step is right over the graph of the moment.

ghost use Rattle.std.specs.Prelude.{◌↔◌, IfOk, IsTrue, reverse};
ghost use Rattle.pv_steps.specs.Right.{RightOver};
ghost use Rattle.pv_check.specs.Testing.{LeavesGraph};

use crate::endings::RootReasons;
use crate::rules::Rules;
use crate::seen::{Seen, Within};
use pv_graph::Graph;
use pv_steps::Step;
use pv_value::Memory;
use std::alloc::Global;

impl Seen<'_> {
    // Whether a step that leaves the graph as it is is right after those so far, over their graph.
    pub(crate) fn is_right<R: Rules>(
        &self,
        alloc: Global,
        rules: &R,
        graph: &Graph,
        step: &Step,
    ) -> Result<bool, Memory>
        requires { LeavesGraph step.now }
        ensures { IfOk result (λ yes. IsTrue yes ↔ RightOver (R.instances rules.now) graph.now (reverse self.now.steps.now) step.now) }
    {
        match step {
            Step::Axiom(number, a, b, nodes) => {
                self.is_axiom(alloc, rules, graph, *number, nodes.as_slice(), *a, *b)
            }
            Step::Use(number, a, b, nodes) => {
                self.is_use(alloc, rules, graph, *number, nodes.as_slice(), *a, *b)
            }
            Step::Flip(a, b, fact) => Ok(self.shows(Within::Here, *fact, *b, *a)),
            Step::Chain(a, b, first, second) => Ok(self.is_chain(*a, *b, *first, *second)),
            Step::Set(congruences) => Ok(self.is_set(graph, congruences.as_slice())),
            Step::Open(depth, pairs) => Ok(self.is_open(graph, *depth, pairs.as_slice())),
            Step::Close(depth, facts) => Ok(self.is_close(graph, *depth, facts.as_slice())),
            Step::Finish(p, q, token, fault, result_, heap) => {
                let reasons = RootReasons {
                    token: *token,
                    fault: *fault,
                    result: *result_,
                    heap: *heap,
                };
                Ok(self.is_finish(graph, *p, *q, reasons))
            }
            Step::Node(_, _, _) | Step::Assume(_, _) => unreachable!(),
        }
    }
}
