//! What two nodes are equal by without facts.

use pv_graph::{Graph, NodeId};
use pv_value::Memory;
use std::alloc::Global;

/// The rules by which two nodes are equal without facts: axioms, and lemmas, each by its number. A rule may ask that some nodes end.
pub trait Rules {
    ghost use Rattle.std.specs.Prelude.{◌↔◌, IfOk, IsTrue};
    ghost use Rattle.pv_steps.specs.Right.{Instances, by_axiom, by_lemma};
    ghost use Rattle.pv_check.specs.Rules.{KeepPrepared};

    /// Which two nodes are the left and the right side of which rule, where which nodes stand for its variables.
    ghost instances: { Self → Instances };

    /// Whether a and b are the left and the right side of the axiom with a number, where these nodes stand for its variables and
    /// some nodes are assumed to end.
    fn is_axiom(
        &self,
        alloc: Global,
        graph: &Graph,
        assumed: &[NodeId],
        number: u32,
        nodes: &[NodeId],
        a: NodeId,
        b: NodeId,
    ) -> Result<bool, Memory>
        ensures { IfOk result (λ yes. IsTrue yes ↔ instances self.now graph.now assumed.now (by_axiom number) nodes.now a b) };

    /// The same of the lemma with a number.
    fn is_lemma(
        &self,
        alloc: Global,
        graph: &Graph,
        assumed: &[NodeId],
        number: u32,
        nodes: &[NodeId],
        a: NodeId,
        b: NodeId,
    ) -> Result<bool, Memory>
        ensures { IfOk result (λ yes. IsTrue yes ↔ instances self.now graph.now assumed.now (by_lemma number) nodes.now a b) };

    /// Whether a graph is prepared makes no difference.
    ghost prepared: { (r : Self) → KeepPrepared (instances r) };
}
