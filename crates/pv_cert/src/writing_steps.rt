//! The words of steps are written, each after a blank.

ghost use Rattle.std.specs.Prelude.{◌≡◌, ◌++◌, ◌∷◌, [], drop, map, codes, OnOk};
ghost use Rattle.std.specs.List.{flat_map};
ghost use Rattle.pv_token.specs.Words.{spaced};
ghost use Rattle.pv_cert.specs.Names.{row_name};
ghost use Rattle.pv_cert.specs.Reasons.{spelled_reason};
ghost use Rattle.pv_cert.specs.Sets.{congruence};
ghost use Rattle.pv_cert.specs.StepLines.{set_words, node_words, axiom_words, flip_words, chain_words, open_words, close_words, assume_words, step_words};

use crate::reason::{FactWord, ReasonWord, SetReasonWord};
use crate::table::Row;
use crate::writing::push_op;
use pv_graph::{Kids, NodeId, Op};
use pv_list::Listed;
use pv_steps::{Congruence, Fact, Reason, Step};
use pv_token::{Number, push, push_each, push_pairs};
use std::alloc::{AllocError, Global};

// P Q REASONS
fn push_congruence(out: &mut Vec<u8>, c: &Congruence) -> Result<(), AllocError>
    ensures { OnOk result (out.new.items ≡ out.old.items ++ spaced (congruence.spells c.now)) }
{
    push::<Number>(out, c.left)?;
    push::<Number>(out, c.right)?;
    push_each::<SetReasonWord>(out, c.reasons.as_slice())
}

// Congruences, each after a semicolon.
fn push_more_congruences(out: &mut Vec<u8>, list: &[Congruence]) -> Result<(), AllocError>
    ensures { OnOk result (out.new.items ≡ out.old.items ++ flat_map (λ c. spaced (codes ";" ∷ congruence.spells c)) list.now) }
{
    for c in list {
        out.extend_from_slice(b" ;")?;
        push_congruence(out, c)?;
    }
    Ok(())
}

// Congruences of which there is one at least.
fn push_some_congruences(
    out: &mut Vec<u8>,
    first: &Congruence,
    rest: &[Congruence],
) -> Result<(), AllocError>
    ensures { OnOk result (out.new.items ≡ out.old.items ++ spaced (set_words.spells (first.now ∷ rest.now))) }
{
    push_congruence(out, first)?;
    push_more_congruences(out, rest)?;
    Ok(())
}

// P Q REASONS ; P Q REASONS
fn push_congruences(out: &mut Vec<u8>, list: &[Congruence]) -> Result<(), AllocError>
    ensures { OnOk result (out.new.items ≡ out.old.items ++ spaced (set_words.spells list.now)) }
{
    match list {
        [] => Ok(()),
        [first, rest @ ..] => push_some_congruences(out, first, rest),
    }
}

// N OP KIDS
fn push_node(
    alloc: Global,
    out: &mut Vec<u8>,
    n: NodeId,
    op: &Op,
    kids: &Kids,
) -> Result<(), AllocError>
    ensures { OnOk result (out.new.items ≡ out.old.items ++ spaced (node_words.spells (n, (op.now, kids.now)))) }
{
    push::<Number>(out, n)?;
    push_op(alloc, out, op)?;
    push_each::<Number>(out, kids.as_slice())
}

// A a b NODES
fn push_axiom(
    out: &mut Vec<u8>,
    number: u32,
    sides: (NodeId, NodeId),
    nodes: &Kids,
) -> Result<(), AllocError>
    ensures { OnOk result (out.new.items ≡ out.old.items ++ spaced (axiom_words.spells (number, (sides.0, (sides.1, nodes.now))))) }
{
    push::<Number>(out, number)?;
    push::<Number>(out, sides.0)?;
    push::<Number>(out, sides.1)?;
    push_each::<Number>(out, nodes.as_slice())
}

// a b F
fn push_flip(out: &mut Vec<u8>, a: NodeId, b: NodeId, f: Fact) -> Result<(), AllocError>
    ensures { OnOk result (out.new.items ≡ out.old.items ++ spaced (flip_words.spells (a, (b, f)))) }
{
    push::<Number>(out, a)?;
    push::<Number>(out, b)?;
    push::<FactWord>(out, f)
}

// a b F G
fn push_chain(out: &mut Vec<u8>, a: NodeId, b: NodeId, f: Fact, g: Fact) -> Result<(), AllocError>
    ensures { OnOk result (out.new.items ≡ out.old.items ++ spaced (chain_words.spells (a, (b, (f, g))))) }
{
    push::<Number>(out, a)?;
    push::<Number>(out, b)?;
    push::<FactWord>(out, f)?;
    push::<FactWord>(out, g)
}

// D X Y X Y
fn push_open(
    out: &mut Vec<u8>,
    depth: u32,
    list: &Listed<(NodeId, NodeId)>,
) -> Result<(), AllocError>
    ensures { OnOk result (out.new.items ≡ out.old.items ++ spaced (open_words.spells (depth, list.now))) }
{
    push::<Number>(out, depth)?;
    push_pairs::<Number>(out, list.as_slice())
}

// D F G F G
fn push_close(out: &mut Vec<u8>, depth: u32, list: &Listed<(Fact, Fact)>) -> Result<(), AllocError>
    ensures { OnOk result (out.new.items ≡ out.old.items ++ spaced (close_words.spells (depth, list.now))) }
{
    push::<Number>(out, depth)?;
    push_pairs::<FactWord>(out, list.as_slice())
}

// P NODES
fn push_assume(out: &mut Vec<u8>, p: NodeId, nodes: &Kids) -> Result<(), AllocError>
    ensures { OnOk result (out.new.items ≡ out.old.items ++ spaced (assume_words.spells (p, nodes.now))) }
{
    push::<Number>(out, p)?;
    push_each::<Number>(out, nodes.as_slice())
}

// Two pairs of reasons, each reason after a blank.
fn push_four_reasons(
    out: &mut Vec<u8>,
    t: Reason,
    f: Reason,
    r: Reason,
    h: Reason,
) -> Result<(), AllocError>
    ensures { OnOk result (out.new.items ≡ out.old.items ++ spaced (map spelled_reason (t ∷ f ∷ r ∷ h ∷ []))) }
{
    push::<ReasonWord>(out, t)?;
    push::<ReasonWord>(out, f)?;
    push::<ReasonWord>(out, r)?;
    push::<ReasonWord>(out, h)
}

/// The row of a step.
pub fn row(step: &Step) -> Row
    ensures { step_words step.now ≡ row_name result ∷ drop 1 (step_words step.now) }
{
    match step {
        Step::Node(_, _, _) => Row::Node,
        Step::Axiom(_, _, _, _) => Row::Axiom,
        Step::Use(_, _, _, _) => Row::Use,
        Step::Flip(_, _, _) => Row::Flip,
        Step::Chain(_, _, _, _) => Row::Chain,
        Step::Set(_) => Row::Set,
        Step::Open(_, _) => Row::Open,
        Step::Close(_, _) => Row::Close,
        Step::Assume(_, _) => Row::Assume,
        Step::Finish(_, _, _, _, _, _) => Row::Finish,
    }
}

/// The words of a step after the first, each after a blank.
pub fn push_row(alloc: Global, out: &mut Vec<u8>, step: &Step) -> Result<(), AllocError>
    ensures { OnOk result (out.new.items ≡ out.old.items ++ spaced (drop 1 (step_words step.now))) }
{
    match step {
        Step::Node(n, op, kids) => push_node(alloc, out, *n, op, kids),
        Step::Axiom(number, a, b, nodes) => push_axiom(out, *number, (*a, *b), nodes),
        Step::Use(number, a, b, nodes) => push_axiom(out, *number, (*a, *b), nodes),
        Step::Flip(a, b, f) => push_flip(out, *a, *b, *f),
        Step::Chain(a, b, f, g) => push_chain(out, *a, *b, *f, *g),
        Step::Set(list) => push_congruences(out, list.as_slice()),
        Step::Open(depth, list) => push_open(out, *depth, list),
        Step::Close(depth, list) => push_close(out, *depth, list),
        Step::Assume(p, nodes) => push_assume(out, *p, nodes),
        Step::Finish(p, q, t, f, r, h) => {
            push::<Number>(out, *p)?;
            push::<Number>(out, *q)?;
            push_four_reasons(out, *t, *f, *r, *h)
        }
    }
}
