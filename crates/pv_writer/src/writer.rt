//! A section, step by step.

ghost use Rattle.std.specs.Prelude.{◌≡◌, ℕ, ◌∷◌, ◌++◌, ◌+◌, ◌<◌, ◌^◌, [], false, length, reverse, IfOk, OnOk, OnErr};
ghost use Rattle.pv_graph.specs.Calls.{Added, AreNodes, FitsOver, IsSame};
ghost use Rattle.pv_steps.specs.Accepted.{AllRight};
ghost use Rattle.pv_steps.specs.Steps.{assumed_in};
ghost use Rattle.pv_steps.specs.Right.{RightOver};
ghost use Rattle.pv_axioms.specs.Entries.{ByAxioms, Instance};
ghost use Rattle.pv_writer.specs.Written.{AreCongruent, HasNode, IsFact, IsNoNode, Pushed, PutsNode, States, inside};

use pv_graph::{Graph, GraphFault, Kids, NodeId, Op};
use pv_list::Listed;
use pv_steps::{Congruence, Fact, Reason, Step};
use pv_value::Memory;
use std::alloc::Global;
use std::marker::Model;

/// A section over a graph as far as it is written: every step is right after those before it. It is seen as that graph,
/// the steps, the last of them first, and the graph that they made.
#[derive(Drop)]
pub struct Writer<'a> {
    least: &'a Graph,
    graph: Graph,
    steps: Vec<Step>,
}

impl<'a> Model for Writer<'a> {
    ghost use Rattle.std.specs.Prelude.{reverse};
    ghost use Rattle.pv_writer.specs.Written.{Written, IsWritten};

    ghost Value = { Written };

    ghost view = { λ w. record { least = w.least.now; before = reverse w.steps.items; graph = w.graph } };

    ghost invariant = { λ w. IsWritten (record { least = w.least.now; before = reverse w.steps.items; graph = w.graph }) };
}

// The greatest number of steps that a section has.
const MOST_STEPS: usize = 0xFFFF_FFFF;

// Puts a step after the others, and gives its number, which counts from 1. More steps than a section has are out of memory.
fn push(steps: &mut Vec<Step>, step: Step) -> Result<u32, Memory>
    ensures items { OnOk result (steps.new.items ≡ steps.old.items ++ step ∷ []) }
    ensures number { IfOk result (λ n. n ≡ length steps.old.items + 1) }
    ensures err { OnErr result (steps.new.items ≡ steps.old.items) }
{
    let len = steps.len();
    if len >= MOST_STEPS {
        return Err(Memory);
    }
    steps.push(step)?;
    Ok(len as u32 + 1)
}

// A set of one congruence.
fn one_congruence(
    alloc: Global,
    left: NodeId,
    right: NodeId,
    reasons: Listed<Reason>,
) -> Result<Listed<Congruence>, Memory>
    ensures { IfOk result (λ set. set ≡ record { left = left; right = right; reasons = reasons } ∷ []) }
{
    let mut items = Vec::new(alloc);
    items.push(Congruence {
        left,
        right,
        reasons,
    })?;
    Ok(Listed::from(items))
}

// The number of an operation over kids, which fit.
fn add(alloc: Global, graph: &mut Graph, op: &Op, kids: &[NodeId]) -> Result<NodeId, Memory>
    requires sealed { graph.old.is_open ≡ false }
    requires kids { AreNodes graph.old kids.now }
    requires fits { FitsOver graph.old op.now kids.now }
    ensures ok { IfOk result (λ n. Added graph.old graph.new op.now kids.now n) }
    ensures few { IfOk result (λ n. n + 1 < 2 ^ 32) }
    ensures err { OnErr result (IsSame graph.old graph.new) }
{
    let op = op.copy(alloc)?;
    match graph.add(alloc, op, kids) {
        Ok(n) => Ok(n),
        Err(GraphFault::Memory) => Err(Memory),
        Err(GraphFault::Sort) => unreachable!(),
    }
}

// The step that adds a node.
fn node_step(alloc: Global, n: NodeId, op: &Op, kids: &[NodeId]) -> Result<Step, Memory>
    ensures { IfOk result (λ step. step ≡ Step.Node n op.now kids.now) }
{
    let op = op.copy(alloc)?;
    Ok(Step::Node(n, op, Kids::new(alloc, kids)?))
}

// The number of an operation over kids, which fit, and the step that adds it where there is none.
fn put_node(
    alloc: Global,
    graph: &mut Graph,
    steps: &mut Vec<Step>,
    op: &Op,
    kids: &[NodeId],
) -> Result<NodeId, Memory>
    requires sealed { graph.old.is_open ≡ false }
    requires kids { AreNodes graph.old kids.now }
    requires fits { FitsOver graph.old op.now kids.now }
    ensures ok { IfOk result (λ n. PutsNode graph.old graph.new steps.old.items steps.new.items op.now kids.now n) }
    ensures graph { OnErr result (IsSame graph.old graph.new) }
    ensures steps { OnErr result (steps.new.items ≡ steps.old.items) }
{
    let next = graph.len();
    let step = node_step(alloc, next, op, kids)?;
    steps.reserve(1)?;
    let n = add(alloc, graph, op, kids)?;
    if n == next {
        steps.push(step).unwrap();
    }
    Ok(n)
}

impl<'a> Writer<'a> {
    /// No steps, over a sealed graph.
    pub fn new(alloc: Global, least: &'a Graph) -> Result<Writer<'a>, Memory>
        requires { least.now.is_open ≡ false }
        ensures least { IfOk result (λ w. w.least ≡ least.now) }
        ensures before { IfOk result (λ w. w.before ≡ []) }
        ensures graph { IfOk result (λ w. IsSame least.now w.graph) }
    {
        Ok(Writer {
            least,
            graph: least.copy(alloc)?,
            steps: Vec::new(alloc),
        })
    }

    /// The graph that the steps made.
    pub fn graph(&self) -> &Graph
        ensures { result.now ≡ self.now.graph }
    {
        &self.graph
    }

    /// How many steps there are: the number of the last one.
    pub fn count(&self) -> usize
        ensures { result ≡ length self.now.before }
    {
        self.steps.len()
    }

    /// Takes a right step that adds no node, and gives its number, which counts from 1. Where memory runs out nothing changes.
    pub fn push(&mut self, step: Step) -> Result<u32, Memory>
        requires right { RightOver ByAxioms self.old.graph self.old.before step }
        requires no_node { IsNoNode step }
        ensures ok { IfOk result (λ n. Pushed self.old self.new step n) }
        ensures err { OnErr result (self.new ≡ self.old) }
    {
        let number = push(&mut self.steps, step)?;
        Ok(number)
    }

    /// The number of the node with this operation over these kids, which fit; a node step adds it where there is
    /// none. Out of memory is the one error.
    pub fn node(&mut self, alloc: Global, op: &Op, kids: &[NodeId]) -> Result<NodeId, Memory>
        requires kids { AreNodes self.old.graph kids.now }
        requires fits { FitsOver self.old.graph op.now kids.now }
        ensures { IfOk result (λ n. HasNode self.old self.new op.now kids.now n) }
    {
        let n = put_node(alloc, &mut self.graph, &mut self.steps, op, kids)?;
        Ok(n)
    }

    /// States that the sides of an instance of an axiom are equal.
    pub fn axiom(
        &mut self,
        alloc: Global,
        number: u32,
        a: NodeId,
        b: NodeId,
        nodes: &[NodeId],
    ) -> Result<Fact, Memory>
        requires { Instance self.old.graph (assumed_in (inside self.old)) number nodes.now a b }
        ensures { IfOk result (λ fact. States self.old self.new a b fact) }
    {
        let nodes = Kids::new(alloc, nodes)?;
        let step = self.push(Step::Axiom(number, a, b, nodes))?;
        Ok(Fact { step, place: 1 })
    }

    /// States what a fact states, the other way round.
    pub fn flip(&mut self, a: NodeId, b: NodeId, fact: Fact) -> Result<Fact, Memory>
        requires { IsFact self.old fact b a }
        ensures { IfOk result (λ fact. States self.old self.new a b fact) }
    {
        let step = self.push(Step::Flip(a, b, fact))?;
        Ok(Fact { step, place: 1 })
    }

    /// States that two nodes are equal that are equal to a third.
    pub fn chain(&mut self, a: NodeId, b: NodeId, first: Fact, second: Fact) -> Result<Fact, Memory>
        requires { (c : ℕ) × IsFact self.old first a c × IsFact self.old second c b }
        ensures { IfOk result (λ fact. States self.old self.new a b fact) }
    {
        let step = self.push(Step::Chain(a, b, first, second))?;
        Ok(Fact { step, place: 1 })
    }

    /// States that two nodes of one operation with equal kids are equal.
    pub fn congruence(
        &mut self,
        alloc: Global,
        left: NodeId,
        right: NodeId,
        reasons: Vec<Reason>,
    ) -> Result<Fact, Memory>
        requires { AreCongruent self.old left right reasons.items }
        ensures { IfOk result (λ fact. States self.old self.new left right fact) }
    {
        let set = one_congruence(alloc, left, right, Listed::from(reasons))?;
        let step = self.push(Step::Set(set))?;
        Ok(Fact { step, place: 1 })
    }

    /// The steps, in order.
    pub fn into_steps(self) -> Listed<Step>
        ensures steps { reverse result ≡ self.entry.before }
        ensures right { AllRight ByAxioms self.entry.least (reverse result) }
    {
        Listed::from(self.steps)
    }
}
