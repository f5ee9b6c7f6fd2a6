//! What is found of methods, one after another.

ghost use Rattle.std.specs.Prelude.{◌≡◌, ◌++◌, ◌∷◌, [], IfOk, OnOk};
ghost use Rattle.pv_cert.specs.Lines.{title_text};
ghost use Rattle.pv_token.specs.Spellings.{AreBytes};
ghost use Rattle.pv_report.specs.Shown.{section_of, sections_for};

use crate::verdict::{Judgement, Verdict};
use pv_cert::Section;
use pv_class::Method;
use pv_list::Listed;
use pv_steps::Step;
use pv_value::Memory;
use std::alloc::{AllocError, Global};

// The verdicts on some methods, and the sections of those that are shown to be equivalent to their partners.
#[derive(Drop)]
pub(crate) struct Judgements {
    pub(crate) verdicts: Vec<Verdict>,
    pub(crate) sections: Vec<Section>,
}

impl Judgements {
    // Of no method so far.
    pub(crate) fn new(alloc: Global) -> Judgements
        ensures verdicts { result.verdicts.items ≡ [] }
        ensures sections { result.sections.items ≡ [] }
    {
        Judgements {
            verdicts: Vec::new(alloc),
            sections: Vec::new(alloc),
        }
    }

    // What is found of one method more.
    pub(crate) fn push(&mut self, method: &Method, found: Judgement) -> Result<(), Memory>
        ensures verdicts { OnOk result (self.new.verdicts.items ≡ self.old.verdicts.items ++ found.verdict ∷ []) }
        ensures sections { OnOk result (self.new.sections.items ≡ self.old.sections.items ++ sections_for method.now found.steps) }
        ensures title { title_text.fits (method.now.name, method.now.desc) }
    {
        law_bytes(method.name.bytes());
        law_bytes(method.desc.bytes());
        self.verdicts.push(found.verdict)?;
        if let Some(steps) = found.steps {
            self.sections.push(section_of(method, steps)?)?;
        }
        Ok(())
    }

    // What is found of the methods after these.
    pub(crate) fn append(&mut self, more: Judgements) -> Result<(), AllocError>
        ensures verdicts { OnOk result (self.new.verdicts.items ≡ self.old.verdicts.items ++ more.verdicts.items) }
        ensures sections { OnOk result (self.new.sections.items ≡ self.old.sections.items ++ more.sections.items) }
    {
        let mut rest = more;
        self.verdicts.append(&mut rest.verdicts)?;
        self.sections.append(&mut rest.sections)
    }
}

// What a slice of bytes holds are bytes: a law, for its caller's proof.
fn law_bytes(bytes: &[u8])
    ensures { AreBytes bytes.now }
{}

// The section of a method with these steps.
fn section_of(method: &Method, steps: Listed<Step>) -> Result<Section, Memory>
    ensures { IfOk result (λ section. section ≡ section_of method.now steps) }
{
    Ok(Section {
        name: method.name.clone()?,
        desc: method.desc.clone()?,
        steps,
    })
}
