//! Lists of words: numbers, pairs, and nodes with reasons.

ghost use Rattle.std.specs.Prelude.{◌≡◌, map, IfOk};
ghost use Rattle.std.specs.Option.{option_map};
ghost use Rattle.std.specs.List.{slice_split};
ghost use Rattle.pv_format.specs.Reading.{read_each};
ghost use Rattle.pv_format.specs.Combinators.{each, each_pair, some};
ghost use Rattle.pv_format.specs.Seen.{texts};
ghost use Rattle.pv_token.specs.Tokens.{u32_token};
ghost use Rattle.pv_cert.specs.Reasons.{fact_token};
ghost use Rattle.pv_cert.specs.Sets.{congruence};
ghost use Rattle.pv_cert.specs.SetLaws.{semicolon};
ghost use Rattle.pv_cert.specs.StepLines.{set_words};

use crate::reason::{FactWord, SetReasonWord};
use pv_graph::{Kids, NodeId};
use pv_list::Listed;
use pv_steps::{Congruence, Fact};
use pv_token::{Number, read_each, read_pairs, take};
use pv_value::Memory;
use std::alloc::{AllocError, Global};

/// All of these words, as numbers.
pub fn read_numbers<'w>(alloc: Global, words: &'w [&'w [u8]]) -> Result<Option<Kids>, Memory>
    ensures { IfOk result (λ r. r ≡ (each u32_token).reads (texts words.now)) }
{
    let Some(list) = read_each::<Number>(alloc, words)? else {
        return Ok(None);
    };
    Ok(Some(Kids::new(alloc, &list)?))
}

/// All of these words, as at least one pair of nodes.
pub fn read_node_pairs<'w>(
    alloc: Global,
    words: &'w [&'w [u8]],
) -> Result<Option<Listed<(NodeId, NodeId)>>, Memory>
    ensures { IfOk result (λ r. r ≡ (some (each_pair u32_token)).reads (texts words.now)) }
{
    let Some(list) = read_pairs::<Number>(alloc, words)? else {
        return Ok(None);
    };
    if list.is_empty() {
        return Ok(None);
    }
    Ok(Some(Listed::from(list)))
}

/// All of these words, as at least one pair of facts.
pub fn read_fact_pairs<'w>(
    alloc: Global,
    words: &'w [&'w [u8]],
) -> Result<Option<Listed<(Fact, Fact)>>, Memory>
    ensures { IfOk result (λ r. r ≡ (some (each_pair fact_token)).reads (texts words.now)) }
{
    let Some(list) = read_pairs::<FactWord>(alloc, words)? else {
        return Ok(None);
    };
    if list.is_empty() {
        return Ok(None);
    }
    Ok(Some(Listed::from(list)))
}

// Two nodes, and all further words as reasons.
fn read_congruence<'w>(alloc: Global, words: &'w [&'w [u8]]) -> Result<Option<Congruence>, Memory>
    ensures { IfOk result (λ r. r ≡ congruence.reads (texts words.now)) }
{
    let Some((left, words)) = take::<Number>(words) else {
        return Ok(None);
    };
    let Some((right, words)) = take::<Number>(words) else {
        return Ok(None);
    };
    let Some(list) = read_each::<SetReasonWord>(alloc, words)? else {
        return Ok(None);
    };
    let reasons = Listed::from(list);
    Ok(Some(Congruence {
        left,
        right,
        reasons,
    }))
}

// The parts of words that stand between semicolons.
fn parts_of<'w>(alloc: Global, words: &'w [&'w [u8]]) -> Result<Vec<&'w [&'w [u8]]>, AllocError>
    ensures { IfOk result (λ v. map (λ part. texts part.now) v.items ≡ slice_split semicolon.is (texts words.now)) }
{
    words.split(|word| *word == b";".as_slice()).collect(alloc)
}

// Each part, as two nodes with reasons.
fn each_congruence<'w>(
    alloc: Global,
    parts: &'w [&'w [&'w [u8]]],
) -> Result<Option<Vec<Congruence>>, Memory>
    ensures { IfOk result (λ r. option_map (λ v. v.items) r ≡ read_each congruence.reads (map (λ part. texts part.now) parts.now)) }
{
    let mut list = Vec::new(alloc);
    for part in parts {
        let Some(congruence) = read_congruence(alloc, part)? else {
            return Ok(None);
        };
        list.push(congruence)?;
    }
    Ok(Some(list))
}

/// All of these words, as at least one pair of nodes with reasons, with semicolons between them.
pub fn read_congruences<'w>(
    alloc: Global,
    words: &'w [&'w [u8]],
) -> Result<Option<Listed<Congruence>>, Memory>
    ensures { IfOk result (λ r. r ≡ set_words.reads (texts words.now)) }
{
    let parts = parts_of(alloc, words)?;
    let Some(list) = each_congruence(alloc, &parts)? else {
        return Ok(None);
    };
    if list.is_empty() {
        return Ok(None);
    }
    Ok(Some(Listed::from(list)))
}
