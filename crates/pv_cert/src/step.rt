//! The words of steps.

ghost use Rattle.std.specs.Prelude.{◌≡◌, IfOk};
ghost use Rattle.pv_cert.specs.declared.table.Row.TheVariants as rows;
ghost use Rattle.pv_cert.specs.Reasons.{fact_token};
ghost use Rattle.pv_cert.specs.Sets.{reason_token};
ghost use Rattle.pv_cert.specs.StepLines.{axiom_words, row_words, step_sentence};
ghost use Rattle.std.specs.Option.{option_map};
ghost use Rattle.pv_format.specs.Combinators.{one, pair, exactly};
ghost use Rattle.pv_format.specs.Seen.{texts};

use crate::lists::{read_congruences, read_fact_pairs, read_node_pairs, read_numbers};
use crate::operation::take_operation;
use crate::reason::{FactWord, ReasonWord};
use crate::table::{Row, RowWord};
use pv_graph::{Kids, NodeId};
use pv_steps::{Fact, Reason, Step};
use pv_token::{Number, take};
use pv_value::Memory;
use std::alloc::Global;

// N OP KIDS
fn read_node<'w>(alloc: Global, words: &'w [&'w [u8]]) -> Result<Option<Step>, Memory>
    ensures { IfOk result (λ r. r ≡ row_words rows.Node (texts words.now)) }
{
    let Some((n, words)) = take::<Number>(words) else {
        return Ok(None);
    };
    let Some((op, words)) = take_operation(alloc, words)? else {
        return Ok(None);
    };
    let Some(kids) = read_numbers(alloc, words)? else {
        return Ok(None);
    };
    Ok(Some(Step::Node(n, op, kids)))
}

// A number, two nodes, and all further words as nodes.
fn read_instance<'w>(
    alloc: Global,
    words: &'w [&'w [u8]],
) -> Result<Option<(u32, NodeId, NodeId, Kids)>, Memory>
    ensures { IfOk result (λ r. option_map (λ p. (p.0, (p.1, (p.2, p.3)))) r ≡ axiom_words.reads (texts words.now)) }
{
    let Some((number, words)) = take::<Number>(words) else {
        return Ok(None);
    };
    let Some((a, words)) = take::<Number>(words) else {
        return Ok(None);
    };
    let Some((b, words)) = take::<Number>(words) else {
        return Ok(None);
    };
    let Some(nodes) = read_numbers(alloc, words)? else {
        return Ok(None);
    };
    Ok(Some((number, a, b, nodes)))
}

// A a b NODES
fn read_axiom<'w>(alloc: Global, words: &'w [&'w [u8]]) -> Result<Option<Step>, Memory>
    ensures { IfOk result (λ r. r ≡ row_words rows.Axiom (texts words.now)) }
{
    let Some((number, a, b, nodes)) = read_instance(alloc, words)? else {
        return Ok(None);
    };
    Ok(Some(Step::Axiom(number, a, b, nodes)))
}

// L a b NODES
fn read_use<'w>(alloc: Global, words: &'w [&'w [u8]]) -> Result<Option<Step>, Memory>
    ensures { IfOk result (λ r. r ≡ row_words rows.Use (texts words.now)) }
{
    let Some((number, a, b, nodes)) = read_instance(alloc, words)? else {
        return Ok(None);
    };
    Ok(Some(Step::Use(number, a, b, nodes)))
}

// a b F
fn read_flip<'w>(words: &'w [&'w [u8]]) -> Option<Step>
    ensures { result ≡ row_words rows.Flip (texts words.now) }
{
    let (a, words) = take::<Number>(words)?;
    let (b, words) = take::<Number>(words)?;
    let (fact, words) = take::<FactWord>(words)?;
    if words.is_empty() {
        Some(Step::Flip(a, b, fact))
    } else {
        None
    }
}

// Two facts at the front, and the words after them.
fn take_facts<'w>(words: &'w [&'w [u8]]) -> Option<((Fact, Fact), &'w [&'w [u8]])>
    ensures { option_map (λ p. (p.0, texts p.1.now)) result ≡ (pair (one fact_token) (one fact_token)).takes (texts words.now) }
{
    let (f, words) = take::<FactWord>(words)?;
    let (g, words) = take::<FactWord>(words)?;
    Some(((f, g), words))
}

// Two reasons at the front, and the words after them.
fn take_reasons<'w>(words: &'w [&'w [u8]]) -> Option<((Reason, Reason), &'w [&'w [u8]])>
    ensures { option_map (λ p. (p.0, texts p.1.now)) result ≡ (pair (one reason_token) (one reason_token)).takes (texts words.now) }
{
    let (r, words) = take::<ReasonWord>(words)?;
    let (s, words) = take::<ReasonWord>(words)?;
    Some(((r, s), words))
}

// All of these words, as two facts.
fn read_two_facts<'w>(words: &'w [&'w [u8]]) -> Option<(Fact, Fact)>
    ensures { result ≡ (exactly (pair (one fact_token) (one fact_token))).reads (texts words.now) }
{
    let (facts, words) = take_facts(words)?;
    if words.is_empty() { Some(facts) } else { None }
}

// All of these words, as two pairs of reasons.
fn read_four_reasons<'w>(words: &'w [&'w [u8]]) -> Option<((Reason, Reason), (Reason, Reason))>
    ensures { result ≡ (exactly (pair (pair (one reason_token) (one reason_token)) (pair (one reason_token) (one reason_token)))).reads (texts words.now) }
{
    let (first, words) = take_reasons(words)?;
    let (second, words) = take_reasons(words)?;
    if words.is_empty() {
        Some((first, second))
    } else {
        None
    }
}

// a b F G
fn read_chain<'w>(words: &'w [&'w [u8]]) -> Option<Step>
    ensures { result ≡ row_words rows.Chain (texts words.now) }
{
    let (a, words) = take::<Number>(words)?;
    let (b, words) = take::<Number>(words)?;
    let (f, g) = read_two_facts(words)?;
    Some(Step::Chain(a, b, f, g))
}

// P Q REASONS ; P Q REASONS
fn read_set<'w>(alloc: Global, words: &'w [&'w [u8]]) -> Result<Option<Step>, Memory>
    ensures { IfOk result (λ r. r ≡ row_words rows.Set (texts words.now)) }
{
    let Some(pairs) = read_congruences(alloc, words)? else {
        return Ok(None);
    };
    Ok(Some(Step::Set(pairs)))
}

// D X Y X Y
fn read_open<'w>(alloc: Global, words: &'w [&'w [u8]]) -> Result<Option<Step>, Memory>
    ensures { IfOk result (λ r. r ≡ row_words rows.Open (texts words.now)) }
{
    let Some((depth, words)) = take::<Number>(words) else {
        return Ok(None);
    };
    let Some(pairs) = read_node_pairs(alloc, words)? else {
        return Ok(None);
    };
    Ok(Some(Step::Open(depth, pairs)))
}

// D F G F G
fn read_close<'w>(alloc: Global, words: &'w [&'w [u8]]) -> Result<Option<Step>, Memory>
    ensures { IfOk result (λ r. r ≡ row_words rows.Close (texts words.now)) }
{
    let Some((depth, words)) = take::<Number>(words) else {
        return Ok(None);
    };
    let Some(facts) = read_fact_pairs(alloc, words)? else {
        return Ok(None);
    };
    Ok(Some(Step::Close(depth, facts)))
}

// P NODES
fn read_assume<'w>(alloc: Global, words: &'w [&'w [u8]]) -> Result<Option<Step>, Memory>
    ensures { IfOk result (λ r. r ≡ row_words rows.Assume (texts words.now)) }
{
    let Some((root, words)) = take::<Number>(words) else {
        return Ok(None);
    };
    let Some(nodes) = read_numbers(alloc, words)? else {
        return Ok(None);
    };
    Ok(Some(Step::Assume(root, nodes)))
}

// P Q T F R H
fn read_finish<'w>(words: &'w [&'w [u8]]) -> Option<Step>
    ensures { result ≡ row_words rows.Finish (texts words.now) }
{
    let (p, words) = take::<Number>(words)?;
    let (q, words) = take::<Number>(words)?;
    let ((token, fault), (value, heap)) = read_four_reasons(words)?;
    Some(Step::Finish(p, q, token, fault, value, heap))
}

fn read_row<'w>(alloc: Global, row: Row, words: &'w [&'w [u8]]) -> Result<Option<Step>, Memory>
    ensures { IfOk result (λ r. r ≡ row_words row (texts words.now)) }
{
    match row {
        Row::Node => read_node(alloc, words),
        Row::Axiom => read_axiom(alloc, words),
        Row::Use => read_use(alloc, words),
        Row::Flip => Ok(read_flip(words)),
        Row::Chain => Ok(read_chain(words)),
        Row::Set => read_set(alloc, words),
        Row::Open => read_open(alloc, words),
        Row::Close => read_close(alloc, words),
        Row::Assume => read_assume(alloc, words),
        Row::Finish => Ok(read_finish(words)),
    }
}

/// The step with these words, if there is one.
pub fn read_step<'w>(alloc: Global, words: &'w [&'w [u8]]) -> Result<Option<Step>, Memory>
    ensures { IfOk result (λ r. r ≡ step_sentence.reads (texts words.now)) }
{
    match take::<RowWord>(words) {
        None => Ok(None),
        Some((row, rest)) => read_row(alloc, row, rest),
    }
}
