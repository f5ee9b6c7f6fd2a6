//! A chain is written.

ghost use Rattle.std.specs.Prelude.{◌≡◌, ◌+◌, ◌≤◌, IfOk, length};
ghost use Rattle.std.specs.List.{flat_map};
ghost use Rattle.pv_cert.specs.declared.cert.Version.TheVariants.{Two};
ghost use Rattle.pv_cert.specs.Certificates.{cert_lines};
ghost use Rattle.pv_cert.specs.Reading.{lemmas_lines, section_lines};
ghost use Rattle.pv_chain.specs.Chains.{spelled};

use crate::chain::Chain;
use crate::head::push_head;
use pv_cert::{Cert, Section, write_cert};
use pv_steps::{Lemma, Step};
use pv_value::Memory;
use std::alloc::Global;

/// How many lines the header of a certificate has.
const HEADER_LINES: usize = 3;

/// How many lines a lemma or a section has beside those of its steps: one before them, and one after them.
const FIRST_AND_LAST: usize = 2;

// How many lines a lemma or a section with these steps has.
fn count_around(steps: &[Step]) -> usize
    ensures { result ≡ length steps.now + 2 }
{
    steps.len() + FIRST_AND_LAST
}

// How many lines lemmas have, of at most this many.
fn count_lemmas(lemmas: &[Lemma], most: usize) -> usize
    requires { length (lemmas_lines 1 lemmas.now) ≤ most }
    ensures { result ≡ length (lemmas_lines 1 lemmas.now) }
{
    let mut count = 0;
    for lemma in lemmas {
        count += count_around(lemma.steps.as_slice());
    }
    count
}

// How many lines sections have, of at most this many.
fn count_sections(sections: &[Section], most: usize) -> usize
    requires { length (flat_map section_lines sections.now) ≤ most }
    ensures { result ≡ length (flat_map section_lines sections.now) }
{
    let mut count = 0;
    for section in sections {
        count += count_around(section.steps.as_slice());
    }
    count
}

// How many lines a certificate has, of at most this many.
#[tactic(auto, using(crate::proofs::Written::cert_count))]
fn count_lines(c: &Cert, most: usize) -> usize
    requires { length (cert_lines Two c.now) ≤ most }
    ensures { result ≡ length (cert_lines Two c.now) }
{
    let lemmas = count_lemmas(c.lemmas.as_slice(), most);
    let sections = count_sections(c.sections.as_slice(), most);
    HEADER_LINES + lemmas + sections
}

/// The text of a chain.
pub fn write_chain(alloc: Global, c: &Chain) -> Result<Vec<u8>, Memory>
    ensures { IfOk result (λ text. text.items ≡ spelled c.now) }
{
    let first = write_cert(alloc, &c.first)?;
    let second = write_cert(alloc, &c.second)?;
    let count = count_lines(&c.first, first.len());
    let mut out = Vec::new(alloc);
    push_head(alloc, &mut out, c.middle.as_slice(), count)?;
    out.extend_from_slice(&first)?;
    out.extend_from_slice(&second)?;
    Ok(out)
}
