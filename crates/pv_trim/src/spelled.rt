//! Steps have a spelling.
//!
//! The text of a certificate is the spelling of its steps. A step has one where its numbers, constants and texts are
//! in range, no list of it that must have a member is empty, and the node that it adds is no variable. The first holds
//! of each value of the types, and the others of the steps that are left. Each function here says so of a part of a step: it walks over the part, and
//! does nothing.

ghost use Rattle.std.specs.Prelude.{◌≡◌, false};
ghost use Rattle.std.specs.List.{AllByRecursion};
ghost use Rattle.pv_graph.specs.Ops.{is_variable};
ghost use Rattle.pv_steps.specs.declared.step.Step.TheVariants as steps;
ghost use Rattle.pv_token.specs.Spellings.{AreBytes};
ghost use Rattle.pv_token.specs.Tokens.{int_token, long_token, u32_token};
ghost use Rattle.pv_cert.specs.Operations.{OpFits};
ghost use Rattle.pv_cert.specs.Parameters.{sym};
ghost use Rattle.pv_cert.specs.Reasons.{ReasonFits, ReasonFitsInSet, fact_token};
ghost use Rattle.pv_cert.specs.Sets.{congruence};
ghost use Rattle.pv_cert.specs.StepLines.{StepFits};
ghost use Rattle.pv_trim.specs.Spelling.{FactPairFits, HasMembers, HaveMembers, IsNoPair, PairFits};

use pv_graph::{NodeId, Op};
use pv_steps::{Congruence, Fact, Reason, Step};
use pv_value::{Name, Sym};

fn number_fits(n: u32)
    ensures { u32_token.fits n }
{}

fn int_fits(constant: i32)
    ensures { int_token.fits constant }
{}

fn long_fits(constant: i64)
    ensures { long_token.fits constant }
{}

fn bytes_fit(bytes: &[u8])
    ensures { AreBytes bytes.now }
{}

fn name_fits(name: &Name)
    ensures { AreBytes name.now }
{
    bytes_fit(name.bytes())
}

fn symbol_fits(symbol: &Sym)
    ensures { sym.fits symbol.now }
{
    name_fits(&symbol.class);
    name_fits(&symbol.name);
    name_fits(&symbol.desc);
}

fn nodes_fit(nodes: &[NodeId])
    ensures { AllByRecursion u32_token.fits nodes.now }
{}

fn pair_fits(pair: (NodeId, NodeId))
    ensures { PairFits pair }
{
    number_fits(pair.0);
    number_fits(pair.1);
}

fn pairs_fit(pairs: &[(NodeId, NodeId)])
    ensures { AllByRecursion PairFits pairs.now }
{
    for pair in pairs {
        pair_fits(*pair);
    }
}

fn fact_fits(fact: Fact)
    ensures { fact_token.fits fact }
{}

fn fact_pair_fits(pair: (Fact, Fact))
    ensures { FactPairFits pair }
{
    fact_fits(pair.0);
    fact_fits(pair.1);
}

fn fact_pairs_fit(pairs: &[(Fact, Fact)])
    ensures { AllByRecursion FactPairFits pairs.now }
{
    for pair in pairs {
        fact_pair_fits(*pair);
    }
}

fn reason_fits_in_set(reason: Reason)
    ensures { ReasonFitsInSet reason }
{
    match reason {
        Reason::Same => {}
        Reason::By(fact) => fact_fits(fact),
        Reason::Pair(j) => number_fits(j),
    }
}

fn reason_fits(reason: Reason)
    requires { IsNoPair reason }
    ensures { ReasonFits reason }
{
    match reason {
        Reason::Same => {}
        Reason::By(fact) => fact_fits(fact),
        Reason::Pair(_) => {}
    }
}

fn reasons_fit(reasons: &[Reason])
    ensures { AllByRecursion ReasonFitsInSet reasons.now }
{
    for reason in reasons {
        reason_fits_in_set(*reason);
    }
}

fn congruence_fits(member: &Congruence)
    ensures { congruence.fits member.now }
{
    number_fits(member.left);
    number_fits(member.right);
    reasons_fit(member.reasons.as_slice());
}

fn set_fits(set: &[Congruence])
    ensures { AllByRecursion congruence.fits set.now }
{
    for member in set {
        congruence_fits(member);
    }
}

fn operation_fits(op: &Op)
    requires { is_variable op.now ≡ false }
    ensures { OpFits op.now }
{
    match op {
        Op::Int(constant) => int_fits(*constant),
        Op::Long(constant) => long_fits(*constant),
        Op::Literal(text) => name_fits(text),
        Op::Param(number, _) => number_fits(*number),
        Op::Theta(depth) | Op::Eval(depth) | Op::Pass(depth) | Op::Shift(depth) => number_fits(
            *depth,
        ),
        Op::GetStatic(s) | Op::PutStatic(s) | Op::GetField(s) | Op::PutField(s) => symbol_fits(s),
        Op::CallEnd(s) | Op::CallRes(s) | Op::CallFault(s) | Op::CallHeap(s) => symbol_fits(s),
        Op::Null | Op::This | Op::Heap0 | Op::Unit | Op::Never | Op::Clear => {}
        Op::FNull | Op::FArith | Op::FIndex | Op::Zero | Op::Succ | Op::Thrown => {}
        Op::IsClear | Op::Both | Op::Phi | Op::Root | Op::Aeq | Op::Length => {}
        Op::Scalar(_) | Op::Load(_) | Op::Store(_) => {}
        Op::Var(..) => unreachable!(),
    }
}

fn node_fits(number: NodeId, op: &Op, kids: &[NodeId])
    requires { is_variable op.now ≡ false }
    ensures { StepFits (steps.Node number op.now kids.now) }
{
    number_fits(number);
    operation_fits(op);
    nodes_fit(kids);
}

fn finish_fits(roots: (NodeId, NodeId), token: Reason, fault: Reason, given: Reason, heap: Reason)
    requires { HasMembers (steps.Finish roots.0 roots.1 token fault given heap) }
    ensures { StepFits (steps.Finish roots.0 roots.1 token fault given heap) }
{
    pair_fits(roots);
    reason_fits(token);
    reason_fits(fault);
    reason_fits(given);
    reason_fits(heap);
}

fn step_fits(step: &Step)
    requires { HasMembers step.now }
    ensures { StepFits step.now }
{
    match step {
        Step::Node(n, op, kids) => node_fits(*n, op, kids.as_slice()),
        Step::Axiom(number, a, b, nodes) | Step::Use(number, a, b, nodes) => {
            number_fits(*number);
            pair_fits((*a, *b));
            nodes_fit(nodes.as_slice());
        }
        Step::Flip(a, b, fact) => {
            pair_fits((*a, *b));
            fact_fits(*fact);
        }
        Step::Chain(a, b, first, second) => {
            pair_fits((*a, *b));
            fact_pair_fits((*first, *second));
        }
        Step::Set(set) => set_fits(set.as_slice()),
        Step::Open(depth, pairs) => {
            number_fits(*depth);
            pairs_fit(pairs.as_slice());
        }
        Step::Close(depth, facts) => {
            number_fits(*depth);
            fact_pairs_fit(facts.as_slice());
        }
        Step::Assume(p, nodes) => {
            number_fits(*p);
            nodes_fit(nodes.as_slice());
        }
        Step::Finish(p, q, token, fault, result, heap) => {
            finish_fits((*p, *q), *token, *fault, *result, *heap);
        }
    }
}

// Steps whose lists have members have a spelling.
pub(crate) fn steps_fit(steps: &[Step])
    requires { HaveMembers steps.now }
    ensures { AllByRecursion StepFits steps.now }
{
    for step in steps {
        step_fits(step);
    }
}
