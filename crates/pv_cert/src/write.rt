//! The text of a certificate is written.

ghost use Rattle.std.specs.Prelude.{◌≡◌, ◌++◌, ◌∷◌, [], map, OnOk, IfOk};
ghost use Rattle.std.specs.List.{flat_map};
ghost use Rattle.pv_format.specs.Splits.{join, text_of};
ghost use Rattle.pv_token.specs.Tokens.{digest_token};
ghost use Rattle.pv_cert.specs.declared.cert.Version.TheVariants.{Two};
ghost use Rattle.pv_cert.specs.Lines.{step_line, title_line, lemma_line, prove_line};
ghost use Rattle.pv_cert.specs.Reading.{lemma_lines, lemmas_lines, section_lines};
ghost use Rattle.pv_cert.specs.Certificates.{header, spelled};

use crate::cert::{Cert, Section, Version};
use crate::certificate::version_line;
use crate::table::{RowWord, VarWord};
use crate::writing::push_text;
use crate::writing_steps::{push_row, row};
use pv_graph::NodeId;
use pv_steps::{Lemma, Step, Var};
use pv_token::{Digest, Number, Token, push, push_decimal, push_each};
use pv_value::{Memory, Name};
use std::alloc::{AllocError, Global};

// Which of the two files, and its digest.
fn push_digest_line(out: &mut Vec<u8>, which: &[u8], digest: [u8; 32]) -> Result<(), AllocError>
    ensures { OnOk result (out.new.items ≡ out.old.items ++ text_of (join 32 (which.now ∷ digest_token.spells digest ∷ []) ∷ [])) }
{
    out.extend_from_slice(which)?;
    push::<Digest>(out, digest)?;
    out.extend_from_slice(b"\n")
}

fn push_header(out: &mut Vec<u8>, first: [u8; 32], second: [u8; 32]) -> Result<(), AllocError>
    ensures { OnOk result (out.new.items ≡ out.old.items ++ text_of ((header Two).spells (first, second))) }
{
    out.extend_from_slice(version_line(Version::Two))?;
    out.extend_from_slice(b"\n")?;
    push_digest_line(out, b"first", first)?;
    push_digest_line(out, b"second", second)
}

// The line that a section begins with.
#[tactic(auto, using(crate::proofs::WrittenLaws::title_spaced))]
fn push_title(alloc: Global, out: &mut Vec<u8>, name: &Name, desc: &Name) -> Result<(), AllocError>
    ensures { OnOk result (out.new.items ≡ out.old.items ++ text_of (title_line (name.now, desc.now) ∷ [])) }
{
    out.extend_from_slice(b"method")?;
    push_text(alloc, out, name)?;
    push_text(alloc, out, desc)?;
    out.extend_from_slice(b"\n")
}

// The line of a step.
fn push_step(alloc: Global, out: &mut Vec<u8>, step: &Step) -> Result<(), AllocError>
    ensures { OnOk result (out.new.items ≡ out.old.items ++ text_of (step_line step.now ∷ [])) }
{
    RowWord::push(out, row(step))?;
    push_row(alloc, out, step)?;
    out.extend_from_slice(b"\n")?;
    Ok(())
}

// The lines of steps.
fn push_steps(alloc: Global, out: &mut Vec<u8>, list: &[Step]) -> Result<(), AllocError>
    ensures { OnOk result (out.new.items ≡ out.old.items ++ text_of (map step_line list.now)) }
{
    for step in list {
        push_step(alloc, out, step)?;
    }
    Ok(())
}

// The lines of a section.
#[tactic(auto, using(crate::proofs::WrittenLaws::section_text))]
fn push_section(alloc: Global, out: &mut Vec<u8>, s: &Section) -> Result<(), AllocError>
    ensures { OnOk result (out.new.items ≡ out.old.items ++ text_of (section_lines s.now)) }
{
    push_title(alloc, out, &s.name, &s.desc)?;
    push_steps(alloc, out, s.steps.as_slice())?;
    out.extend_from_slice(b"end\n")
}

// The lines of sections.
fn push_sections(alloc: Global, out: &mut Vec<u8>, list: &[Section]) -> Result<(), AllocError>
    ensures { OnOk result (out.new.items ≡ out.old.items ++ flat_map (λ s. text_of (section_lines s)) list.now) }
{
    for s in list {
        push_section(alloc, out, s)?;
    }
    Ok(())
}

// The line that a lemma begins with.
fn push_lemma_line(out: &mut Vec<u8>, number: usize, vars: &[Var]) -> Result<(), AllocError>
    ensures { OnOk result (out.new.items ≡ out.old.items ++ text_of (lemma_line (number, vars.now) ∷ [])) }
{
    out.extend_from_slice(b"lemma ")?;
    push_decimal(out, number)?;
    push_each::<VarWord>(out, vars)?;
    out.extend_from_slice(b"\n")?;
    Ok(())
}

// The line after the last step of a lemma.
#[tactic(auto, using(crate::proofs::WrittenLaws::prove_spaced))]
fn push_prove_line(out: &mut Vec<u8>, left: NodeId, right: NodeId) -> Result<(), AllocError>
    ensures { OnOk result (out.new.items ≡ out.old.items ++ text_of (prove_line (left, right) ∷ [])) }
{
    out.extend_from_slice(b"prove")?;
    push::<Number>(out, left)?;
    push::<Number>(out, right)?;
    out.extend_from_slice(b"\n")
}

// The lines of a lemma.
#[tactic(auto, using(crate::proofs::WrittenLaws::lemma_text))]
fn push_lemma(
    alloc: Global,
    out: &mut Vec<u8>,
    number: usize,
    lemma: &Lemma,
) -> Result<(), AllocError>
    ensures { OnOk result (out.new.items ≡ out.old.items ++ text_of (lemma_lines number lemma.now)) }
{
    push_lemma_line(out, number, lemma.vars.as_slice())?;
    push_steps(alloc, out, lemma.steps.as_slice())?;
    push_prove_line(out, lemma.left, lemma.right)
}

// The lines of lemmas, which are counted from 1.
fn push_lemmas(alloc: Global, out: &mut Vec<u8>, list: &[Lemma]) -> Result<(), AllocError>
    ensures { OnOk result (out.new.items ≡ out.old.items ++ text_of (lemmas_lines 1 list.now)) }
{
    for k in 0..list.len() {
        push_lemma(alloc, out, k + 1, &list[k])?;
    }
    Ok(())
}

/// The text of a certificate, in version 2.
pub fn write_cert(alloc: Global, c: &Cert) -> Result<Vec<u8>, Memory>
    ensures { IfOk result (λ text. text.items ≡ spelled Two c.now) }
{
    let mut out = Vec::new(alloc);
    let first = c.first;
    let second = c.second;
    push_header(&mut out, first, second)?;
    push_lemmas(alloc, &mut out, c.lemmas.as_slice())?;
    push_sections(alloc, &mut out, c.sections.as_slice())?;
    Ok(out)
}
