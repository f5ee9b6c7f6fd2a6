//! What opens an ending block: nodes that a root waits for.

ghost use Rattle.std.specs.Prelude.{◌↔◌, IfOk, IsTrue, reverse};
ghost use Rattle.pv_graph.specs.Calls.{IsSame};
ghost use Rattle.pv_steps.specs.Right.{RightAssume};

use crate::seen::Seen;
use pv_endings::waits_for;
use pv_graph::{Graph, NodeId};
use pv_value::Memory;
use std::alloc::Global;

impl Seen<'_> {
    // Whether no block is open, p is a root, and its token waits for the nodes. It may prepare the graph.
    pub(crate) fn is_assume(
        &self,
        alloc: Global,
        graph: &mut Graph,
        p: NodeId,
        nodes: &[NodeId],
    ) -> Result<bool, Memory>
        ensures right { IfOk result (λ yes. IsTrue yes ↔ RightAssume graph.old (reverse self.now.steps.now) p nodes.now) }
        ensures same { IsSame graph.old graph.new }
    {
        if self.inside() != 0 {
            return Ok(false);
        }
        waits_for(alloc, graph, p, nodes)
    }
}
