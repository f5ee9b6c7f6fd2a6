//! Lines are read: those that lemmas and sections begin and end with, and those of steps.

ghost use Rattle.std.specs.Prelude.{◌≡◌, IfOk};
ghost use Rattle.std.specs.Option.{option_map, option_and_then};
ghost use Rattle.pv_format.specs.Combinators.{each, some};
ghost use Rattle.pv_format.specs.Seen.{texts};
ghost use Rattle.pv_cert.specs.Variables.{var_token};
ghost use Rattle.pv_cert.specs.Lines.{two_texts, title_words, title_text, variables, lemma_words, lemma_text, two_nodes, prove_words, prove_text, step_text};
ghost use Rattle.pv_cert.specs.Places.{words_after};
ghost use Rattle.pv_cert.specs.Reading.{only_if, is_outside_blocks, in_section};

use crate::cert::Version;
use crate::operation::take_text;
use crate::step::read_step;
use crate::table::VarWord;
use pv_format::words_of;
use pv_graph::NodeId;
use pv_list::Listed;
use pv_steps::{Step, Var};
use pv_token::{Number, read_each, take};
use pv_value::{Memory, Name};
use std::alloc::Global;

// The words after the first of them, if that is this one.
fn words_after<'w>(first: &[u8], words: &'w [&'w [u8]]) -> Option<&'w [&'w [u8]]>
    ensures { option_map (λ rest. texts rest.now) result ≡ words_after first.now (texts words.now) }
{
    match words {
        [] => None,
        [word, rest @ ..] => { if *word == first { Some(rest) } else { None } }
    }
}

// All of these words, as a name and a descriptor.
fn read_two_texts<'w>(alloc: Global, words: &'w [&'w [u8]]) -> Result<Option<(Name, Name)>, Memory>
    ensures { IfOk result (λ r. r ≡ two_texts.reads (texts words.now)) }
{
    let Some((name, words)) = take_text(alloc, words)? else {
        return Ok(None);
    };
    let Some((desc, words)) = take_text(alloc, words)? else {
        return Ok(None);
    };
    if words.is_empty() {
        Ok(Some((name, desc)))
    } else {
        Ok(None)
    }
}

// method NAME DESC
fn read_title_words<'w>(
    alloc: Global,
    words: &'w [&'w [u8]],
) -> Result<Option<(Name, Name)>, Memory>
    ensures { IfOk result (λ r. r ≡ title_words.reads (texts words.now)) }
{
    match words_after(b"method", words) {
        None => Ok(None),
        Some(rest) => read_two_texts(alloc, rest),
    }
}

/// The line that a section begins with.
pub fn read_title(alloc: Global, line: &[u8]) -> Result<Option<(Name, Name)>, Memory>
    ensures { IfOk result (λ r. r ≡ title_text.reads line.now) }
{
    let words = words_of(alloc, line)?;
    read_title_words(alloc, &words)
}

// All of these words, as at least one variable.
fn read_some_vars<'w>(alloc: Global, words: &'w [&'w [u8]]) -> Result<Option<Listed<Var>>, Memory>
    ensures { IfOk result (λ r. r ≡ (some (each var_token)).reads (texts words.now)) }
{
    let Some(list) = read_each::<VarWord>(alloc, words)? else {
        return Ok(None);
    };
    if list.is_empty() {
        return Ok(None);
    }
    Ok(Some(Listed::from(list)))
}

// N SORTS
fn read_variables<'w>(
    alloc: Global,
    words: &'w [&'w [u8]],
) -> Result<Option<(u32, Listed<Var>)>, Memory>
    ensures { IfOk result (λ r. r ≡ variables.reads (texts words.now)) }
{
    let Some((number, words)) = take::<Number>(words) else {
        return Ok(None);
    };
    let Some(vars) = read_some_vars(alloc, words)? else {
        return Ok(None);
    };
    Ok(Some((number, vars)))
}

// lemma N SORTS
fn read_lemma_words<'w>(
    alloc: Global,
    words: &'w [&'w [u8]],
) -> Result<Option<(u32, Listed<Var>)>, Memory>
    ensures { IfOk result (λ r. r ≡ lemma_words.reads (texts words.now)) }
{
    match words_after(b"lemma", words) {
        None => Ok(None),
        Some(rest) => read_variables(alloc, rest),
    }
}

/// The line that a lemma begins with.
pub fn read_lemma(alloc: Global, line: &[u8]) -> Result<Option<(u32, Listed<Var>)>, Memory>
    ensures { IfOk result (λ r. r ≡ lemma_text.reads line.now) }
{
    let words = words_of(alloc, line)?;
    read_lemma_words(alloc, &words)
}

// All of these words, as two nodes.
fn read_two_nodes<'w>(words: &'w [&'w [u8]]) -> Option<(NodeId, NodeId)>
    ensures { result ≡ two_nodes.reads (texts words.now) }
{
    let (left, words) = take::<Number>(words)?;
    let (right, words) = take::<Number>(words)?;
    if words.is_empty() {
        Some((left, right))
    } else {
        None
    }
}

// prove A B
fn read_prove_words<'w>(words: &'w [&'w [u8]]) -> Option<(NodeId, NodeId)>
    ensures { result ≡ prove_words.reads (texts words.now) }
{
    match words_after(b"prove", words) {
        None => None,
        Some(rest) => read_two_nodes(rest),
    }
}

/// The line after the last step of a lemma.
pub fn read_prove(alloc: Global, line: &[u8]) -> Result<Option<(NodeId, NodeId)>, Memory>
    ensures { IfOk result (λ r. r ≡ prove_text.reads line.now) }
{
    let words = words_of(alloc, line)?;
    Ok(read_prove_words(&words))
}

// The line of a step.
fn read_step_line(alloc: Global, line: &[u8]) -> Result<Option<Step>, Memory>
    ensures { IfOk result (λ r. r ≡ step_text.reads line.now) }
{
    let words = words_of(alloc, line)?;
    read_step(alloc, &words)
}

// Whether a step may stand in a lemma: it is none of a block.
fn is_outside_blocks(step: &Step) -> bool
    ensures { result ≡ is_outside_blocks step.now }
{
    match step {
        Step::Open(_, _) => false,
        Step::Close(_, _) => false,
        Step::Assume(_, _) => false,
        Step::Finish(_, _, _, _, _, _) => false,
        _ => true,
    }
}

// Whether a step may stand in a section of the version: there are no lemmas to use in version 1.
fn in_section(version: Version, step: &Step) -> bool
    ensures { result ≡ in_section version step.now }
{
    match step {
        Step::Use(_, _, _, _) => version == Version::Two,
        _ => true,
    }
}

/// The line of a step in a lemma.
pub fn read_lemma_step(alloc: Global, line: &[u8]) -> Result<Option<Step>, Memory>
    ensures { IfOk result (λ r. r ≡ option_and_then (only_if is_outside_blocks) (step_text.reads line.now)) }
{
    let Some(step) = read_step_line(alloc, line)? else {
        return Ok(None);
    };
    if is_outside_blocks(&step) {
        Ok(Some(step))
    } else {
        Ok(None)
    }
}

/// The line of a step in a section.
pub fn read_section_step(
    alloc: Global,
    version: Version,
    line: &[u8],
) -> Result<Option<Step>, Memory>
    ensures { IfOk result (λ r. r ≡ option_and_then (only_if (in_section version)) (step_text.reads line.now)) }
{
    let Some(step) = read_step_line(alloc, line)? else {
        return Ok(None);
    };
    if in_section(version, &step) {
        Ok(Some(step))
    } else {
        Ok(None)
    }
}
