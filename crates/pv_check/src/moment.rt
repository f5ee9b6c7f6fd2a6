//! The graph of the moment, step by step.

ghost use Rattle.std.specs.Prelude.{◌≡◌, ◌↔◌, IfOk, IsTrue, false, reverse};
ghost use Rattle.std.specs.Bool.{OnTrue, OnFalse};
ghost use Rattle.pv_graph.specs.Graphs.{Graph};
ghost use Rattle.pv_steps.specs.Right.{Grows, RightOver};
ghost use Rattle.pv_check.specs.Growth.{GrowsTo};

use crate::growth::grow;
use crate::rules::Rules;
use crate::seen::Seen;
use pv_graph::Graph;
use pv_steps::Step;
use pv_value::Memory;
use std::alloc::Global;

// Whether there is a graph after a step, right or not. The graph is left as that one.
pub(crate) fn follow(alloc: Global, graph: &mut Graph, step: &Step) -> Result<bool, Memory>
    requires { graph.old.is_open ≡ false }
    ensures yes { IfOk result (λ yes. OnTrue yes (GrowsTo step.now graph.old graph.new)) }
    ensures no { IfOk result (λ yes. OnFalse yes ((new : Graph) → Grows step.now graph.old new → ⊥)) }
{
    match step {
        Step::Node(n, op, kids) => grow(alloc, graph, *n, op, kids.as_slice()),
        _ => Ok(true),
    }
}

impl Seen<'_> {
    // Whether a step is right after those so far, over their graph, which it leaves as the step makes it.
    pub(crate) fn takes<R: Rules>(
        &self,
        alloc: Global,
        rules: &R,
        graph: &mut Graph,
        step: &Step,
    ) -> Result<bool, Memory>
        requires { graph.old.is_open ≡ false }
        ensures right { IfOk result (λ yes. IsTrue yes ↔ RightOver (R.instances rules.now) graph.old (reverse self.now.steps.now) step.now) }
        ensures grows { IfOk result (λ yes. OnTrue yes (GrowsTo step.now graph.old graph.new)) }
    {
        match step {
            Step::Node(n, op, kids) => grow(alloc, graph, *n, op, kids.as_slice()),
            Step::Assume(p, nodes) => self.is_assume(alloc, graph, *p, nodes.as_slice()),
            _ => self.is_right(alloc, rules, graph, step),
        }
    }
}
