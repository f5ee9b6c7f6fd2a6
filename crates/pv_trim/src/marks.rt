//! The marks of the steps and nodes that are needed.

ghost use Rattle.std.specs.Prelude.{◌≡◌, ◌+◌, ◌-◌, ◌<◌, [], ◌∷◌, IfOk, length, map, nat_lt, slice_set, slice_index_or, vec_len, false, true};
ghost use Rattle.std.specs.List.{range_with_len};
ghost use Rattle.pv_steps.specs.Steps.{both_sides};
ghost use Rattle.pv_trim.specs.Citing.{facts, named, pair_facts, reason_facts, set_facts, sides};
ghost use Rattle.pv_trim.specs.Marks.{AreMarks, marking, marking_end, marking_facts, marking_step, nodes_with, own_mark, steps_with};

use pv_graph::NodeId;
use pv_steps::{Congruence, Fact, Reason, Step};
use pv_value::Memory;
use std::alloc::Global;

fn mark(marks: &mut Vec<bool>, n: usize)
    ensures { marks.new.items ≡ slice_set marks.old.items n true }
{
    if n < marks.len() {
        marks[n] = true;
    }
}

// ---- nodes

fn mark_nodes(marks: &mut Vec<bool>, nodes: &[NodeId])
    ensures { marks.new.items ≡ marking nodes.now marks.old.items }
{
    for n in nodes {
        mark(marks, *n as usize);
    }
}

fn mark_pairs(marks: &mut Vec<bool>, pairs: &[(NodeId, NodeId)])
    ensures { marks.new.items ≡ marking (sides pairs.now) marks.old.items }
{
    for pair in pairs {
        let (a, b) = *pair;
        mark(marks, a as usize);
        mark(marks, b as usize);
    }
}

fn mark_sides(marks: &mut Vec<bool>, set: &[Congruence])
    ensures { marks.new.items ≡ marking (sides (both_sides set.now)) marks.old.items }
{
    for congruence in set {
        mark(marks, congruence.left as usize);
        mark(marks, congruence.right as usize);
    }
}

fn mark_two(marks: &mut Vec<bool>, a: NodeId, b: NodeId)
    ensures { marks.new.items ≡ slice_set (slice_set marks.old.items a true) b true }
{
    mark(marks, a as usize);
    mark(marks, b as usize);
}

// Marks the nodes that a step names.
fn mark_named(marks: &mut Vec<bool>, step: &Step)
    ensures { marks.new.items ≡ marking (named step.now) marks.old.items }
{
    match step {
        Step::Node(_, _, kids) => mark_nodes(marks, kids.as_slice()),
        Step::Axiom(_, a, b, nodes) | Step::Use(_, a, b, nodes) => {
            mark_two(marks, *a, *b);
            mark_nodes(marks, nodes.as_slice())
        }
        Step::Flip(a, b, _) => mark_two(marks, *a, *b),
        Step::Chain(a, b, _, _) => mark_two(marks, *a, *b),
        Step::Set(set) => mark_sides(marks, set.as_slice()),
        Step::Open(_, pairs) => mark_pairs(marks, pairs.as_slice()),
        Step::Close(_, _) => {}
        Step::Assume(p, nodes) => {
            mark(marks, *p as usize);
            mark_nodes(marks, nodes.as_slice())
        }
        Step::Finish(p, q, _, _, _, _) => mark_two(marks, *p, *q),
    }
}

// ---- steps

// Marks the step with this number, where it is one of the first k.
fn mark_step(marks: &mut Vec<bool>, k: usize, number: usize)
    ensures { marks.new.items ≡ marking_step k number marks.old.items }
{
    if number != 0 && number <= k {
        mark(marks, number - 1);
    }
}

// Marks the step with this number, where there is one and it is one of the first k.
fn mark_end(marks: &mut Vec<bool>, k: usize, end: Option<usize>)
    ensures { marks.new.items ≡ marking_end k end marks.old.items }
{
    if let Some(number) = end {
        mark_step(marks, k, number);
    }
}

fn mark_fact(marks: &mut Vec<bool>, k: usize, fact: Fact)
    ensures { marks.new.items ≡ marking_step k fact.step marks.old.items }
{
    mark_step(marks, k, fact.step as usize)
}

fn mark_reason(marks: &mut Vec<bool>, k: usize, reason: Reason)
    ensures { marks.new.items ≡ marking_facts k (reason_facts (reason ∷ [])) marks.old.items }
{
    if let Reason::By(fact) = reason {
        mark_fact(marks, k, fact);
    }
}

fn mark_reasons(marks: &mut Vec<bool>, k: usize, reasons: &[Reason])
    ensures { marks.new.items ≡ marking_facts k (reason_facts reasons.now) marks.old.items }
{
    for reason in reasons {
        mark_reason(marks, k, *reason);
    }
}

fn mark_set(marks: &mut Vec<bool>, k: usize, set: &[Congruence])
    ensures { marks.new.items ≡ marking_facts k (set_facts set.now) marks.old.items }
{
    for congruence in set {
        mark_reasons(marks, k, congruence.reasons.as_slice());
    }
}

fn mark_both(marks: &mut Vec<bool>, k: usize, first: Fact, second: Fact)
    ensures { marks.new.items ≡ marking_step k second.step (marking_step k first.step marks.old.items) }
{
    mark_fact(marks, k, first);
    mark_fact(marks, k, second);
}

fn mark_fact_pairs(marks: &mut Vec<bool>, k: usize, pairs: &[(Fact, Fact)])
    ensures { marks.new.items ≡ marking_facts k (pair_facts pairs.now) marks.old.items }
{
    for pair in pairs {
        let (first, second) = *pair;
        mark_both(marks, k, first, second);
    }
}

// Marks the steps among the first k whose facts a step names.
fn mark_facts(marks: &mut Vec<bool>, k: usize, step: &Step)
    ensures { marks.new.items ≡ marking_facts k (facts step.now) marks.old.items }
{
    match step {
        Step::Node(_, _, _) => {}
        Step::Axiom(_, _, _, _) | Step::Use(_, _, _, _) => {}
        Step::Flip(_, _, fact) => mark_fact(marks, k, *fact),
        Step::Chain(_, _, first, second) => mark_both(marks, k, *first, *second),
        Step::Set(set) => mark_set(marks, k, set.as_slice()),
        Step::Open(_, _) => {}
        Step::Close(_, pairs) => mark_fact_pairs(marks, k, pairs.as_slice()),
        Step::Assume(_, _) => {}
        Step::Finish(_, _, token, fault, result, heap) => {
            mark_reason(marks, k, *token);
            mark_reason(marks, k, *fault);
            mark_reason(marks, k, *result);
            mark_reason(marks, k, *heap);
        }
    }
}

// ---- all

// The needed steps, by their places, and the needed nodes.
#[derive(Drop)]
pub(crate) struct Marks {
    pub(crate) steps: Vec<bool>,
    pub(crate) nodes: Vec<bool>,
}

fn is_marked(marks: &Vec<bool>, n: usize) -> bool
    ensures { result ≡ slice_index_or marks.now.items n false }
{
    if n < marks.len() { marks[n] } else { false }
}

fn put(marks: &mut Vec<bool>, n: usize, value: bool)
    requires { n < vec_len marks.old }
    ensures { marks.new.items ≡ slice_set marks.old.items n value }
{
    marks[n] = value;
}

impl Marks {
    // A step that makes a node is needed where the node is.
    fn settle(&mut self, k: usize, step: &Step)
        requires { k < vec_len self.old.steps }
        ensures steps { self.new.steps.items ≡ own_mark step.now k self.old.steps.items self.old.nodes.items }
        ensures nodes { self.new.nodes.items ≡ self.old.nodes.items }
    {
        if let Step::Node(n, _, _) = step {
            let needed = is_marked(&self.nodes, *n as usize);
            put(&mut self.steps, k, needed);
        }
    }

    // Marks what the step at place k cites, where it is needed itself. It ends the block that the step with the number
    // `end` opened, or none.
    fn visit(&mut self, k: usize, end: Option<usize>, step: &Step)
        requires { k < vec_len self.old.steps }
        ensures steps { self.new.steps.items ≡ steps_with step.now k end self.old.steps.items self.old.nodes.items }
        ensures nodes { self.new.nodes.items ≡ nodes_with step.now k self.old.steps.items self.old.nodes.items }
    {
        self.settle(k, step);
        if is_marked(&self.steps, k) {
            mark_named(&mut self.nodes, step);
            mark_facts(&mut self.steps, k, step);
            mark_end(&mut self.steps, k, end);
        }
    }
}

// Of the numbers below `count` those below `base` are marked.
fn marks_below(alloc: Global, base: usize, count: usize) -> Result<Vec<bool>, Memory>
    ensures { IfOk result (λ marks. marks.items ≡ map (λ n. nat_lt n base) (range_with_len 0 count)) }
{
    let mut marks = Vec::new(alloc);
    for n in 0..count {
        marks.push(n < base)?;
    }
    Ok(marks)
}

// Of the first `count` places the last is marked.
fn marks_last(alloc: Global, count: usize) -> Result<Vec<bool>, Memory>
    ensures { IfOk result (λ marks. marks.items ≡ slice_set (map (λ n. nat_lt n 0) (range_with_len 0 count)) (count - 1) true) }
{
    let mut marks = marks_below(alloc, 0, count)?;
    if count > 0 {
        mark(&mut marks, count - 1);
    }
    Ok(marks)
}

// The steps that the last one rests on, and the nodes that they name, beside the first ones. The time is linear in the
// size of the steps and the number of those nodes.
pub(crate) fn marks_of(
    alloc: Global,
    steps: &[Step],
    ends: &[Option<usize>],
    base: u32,
) -> Result<Marks, Memory>
    requires { length ends.now ≡ length steps.now }
    ensures { IfOk result (λ marks. AreMarks steps.now ends.now base (base + length steps.now) 0 marks.steps.items marks.nodes.items) }
{
    let mut marks = Marks {
        steps: marks_last(alloc, steps.len())?,
        nodes: marks_below(alloc, base as usize, base as usize + steps.len())?,
    };
    let mut k = steps.len();
    while k > 0 {
        k -= 1;
        marks.visit(k, ends[k], &steps[k]);
    }
    Ok(marks)
}
