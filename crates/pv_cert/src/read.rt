//! The lines after the header are read one after the other.

ghost use Rattle.std.specs.Prelude.{◌≡◌, ◌==◌, suc, length, [], IfOk};
ghost use Rattle.std.specs.Option.{option_map};
ghost use Rattle.pv_cert.specs.declared.cert.Version.{Version};
ghost use Rattle.pv_cert.specs.declared.cert.Version.TheVariants.{Two};
ghost use Rattle.pv_cert.specs.Reading.{begun_lemma, between, proving, inside, next};
ghost use Rattle.pv_cert.specs.Places.{seen_place};

use crate::cert::{Section, Version};
use crate::line::{read_lemma, read_lemma_step, read_prove, read_section_step, read_title};
use pv_list::Listed;
use pv_steps::{Lemma, Step, Var};
use pv_value::{Memory, Name};
use std::alloc::Global;

/// Where a line stands: after some lemmas and sections, or in a lemma or a section after some of its steps.
#[derive(Drop)]
pub enum Place {
    Between(Vec<Lemma>, Vec<Section>),
    Proving(Vec<Lemma>, Listed<Var>, Vec<Step>),
    Inside(Vec<Lemma>, Vec<Section>, (Name, Name), Vec<Step>),
}

// Whether this is the number of the lemma after these. They are counted from 1.
fn is_next(number: u32, lemmas: &[Lemma]) -> bool
    ensures { result ≡ (number == suc (length lemmas.now)) }
{
    number as usize == lemmas.len() + 1
}

// The place in the lemma that a line begins after these lemmas.
fn begin_next(alloc: Global, lemmas: Vec<Lemma>, line: &[u8]) -> Result<Option<Place>, Memory>
    ensures { IfOk result (λ r. option_map seen_place r ≡ begun_lemma Two lemmas.items [] line.now) }
{
    let Some((number, vars)) = read_lemma(alloc, line)? else {
        return Ok(None);
    };
    if is_next(number, &lemmas) {
        Ok(Some(Place::Proving(lemmas, vars, Vec::new(alloc))))
    } else {
        Ok(None)
    }
}

// The same, if a lemma may begin there: in version 2, before all sections.
fn begin_lemma(
    alloc: Global,
    version: Version,
    lemmas: Vec<Lemma>,
    sections: &[Section],
    line: &[u8],
) -> Result<Option<Place>, Memory>
    ensures { IfOk result (λ r. option_map seen_place r ≡ begun_lemma version lemmas.items sections.now line.now) }
{
    match (version, sections) {
        (Version::Two, []) => begin_next(alloc, lemmas, line),
        _ => Ok(None),
    }
}

// The place after a line between lemmas and sections.
fn begin(
    alloc: Global,
    version: Version,
    lemmas: Vec<Lemma>,
    sections: Vec<Section>,
    line: &[u8],
) -> Result<Option<Place>, Memory>
    ensures { IfOk result (λ r. option_map seen_place r ≡ next version (between lemmas.items sections.items) line.now) }
{
    match read_title(alloc, line)? {
        Some(title) => Ok(Some(Place::Inside(lemmas, sections, title, Vec::new(alloc)))),
        None => begin_lemma(alloc, version, lemmas, &sections, line),
    }
}

// The place after a line in a lemma.
fn go_on_proving(
    alloc: Global,
    mut lemmas: Vec<Lemma>,
    vars: Listed<Var>,
    mut steps: Vec<Step>,
    line: &[u8],
) -> Result<Option<Place>, Memory>
    ensures { (v : Version) → IfOk result (λ r. option_map seen_place r ≡ next v (proving lemmas.items vars steps.items) line.now) }
{
    if let Some((left, right)) = read_prove(alloc, line)? {
        let steps = Listed::from(steps);
        lemmas.push(Lemma {
            vars,
            steps,
            left,
            right,
        })?;
        return Ok(Some(Place::Between(lemmas, Vec::new(alloc))));
    }
    let Some(step) = read_lemma_step(alloc, line)? else {
        return Ok(None);
    };
    steps.push(step)?;
    Ok(Some(Place::Proving(lemmas, vars, steps)))
}

// The place after a line in a section.
fn go_on_inside(
    alloc: Global,
    version: Version,
    lemmas: Vec<Lemma>,
    mut sections: Vec<Section>,
    title: (Name, Name),
    mut steps: Vec<Step>,
    line: &[u8],
) -> Result<Option<Place>, Memory>
    ensures { IfOk result (λ r. option_map seen_place r ≡ next version (inside lemmas.items sections.items title steps.items) line.now) }
{
    if line == b"end".as_slice() {
        let (name, desc) = title;
        let steps = Listed::from(steps);
        sections.push(Section { name, desc, steps })?;
        return Ok(Some(Place::Between(lemmas, sections)));
    }
    let Some(step) = read_section_step(alloc, version, line)? else {
        return Ok(None);
    };
    steps.push(step)?;
    Ok(Some(Place::Inside(lemmas, sections, title, steps)))
}

/// The place after a line, if the line may stand there.
pub fn advance(
    alloc: Global,
    version: Version,
    place: Place,
    line: &[u8],
) -> Result<Option<Place>, Memory>
    ensures { IfOk result (λ r. option_map seen_place r ≡ next version (seen_place place) line.now) }
{
    match place {
        Place::Between(lemmas, sections) => begin(alloc, version, lemmas, sections, line),
        Place::Proving(lemmas, vars, steps) => go_on_proving(alloc, lemmas, vars, steps, line),
        Place::Inside(lemmas, sections, title, steps) => {
            go_on_inside(alloc, version, lemmas, sections, title, steps, line)
        }
    }
}
