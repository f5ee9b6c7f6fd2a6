//! What is said of two sections that belong together.

ghost use Rattle.std.specs.Prelude.{◌≡◌, ◌↔◌, ◌<◌, IfOk, IfSome, IsTrue, Some, false, length, slice_get};
ghost use Rattle.pv_class.specs.declared.file.Method.{Method};
ghost use Rattle.pv_report.specs.Judging.{IsRead};
ghost use Rattle.pv_links.specs.Findings.{IsFinding};
ghost use Rattle.pv_links.specs.Made.{AreRead, AreWithin, HaveCodesAt, IsChecked, IsFindingOnPlaces, IsPartnerAt, lemmas_by, stage_at};

use crate::classes::Classes;
use crate::roots::{RefusedSide, roots_of};
use crate::stage::Stage;
use pv_alike::Least;
use pv_axioms::Axioms;
use pv_base::Gate;
use pv_cert::Section;
use pv_check::{Checked, Checker};
use pv_class::ClassFile;
use pv_frame::Cause;
use pv_pieces::Workers;
use pv_report::{Side, has_code, partner_of};
use pv_rules::{Lemmas, SectionRules};
use pv_value::Memory;
use std::alloc::Global;
use std::thread::Threads;

/// What is said of two sections on one name and descriptor: the first for a class and the middle one, the second for that and the last.
#[derive(Clone, Copy, Debug, PartialEq, Eq)]
pub enum LinkFinding {
    /// One of the three classes has no such method, or they aren't all static or all not.
    Missing,
    /// The method of this class has no code.
    NoCode(Stage),
    /// The method of this class was refused for this cause.
    Refused(Stage, Cause),
    /// The first or the second section is rejected, with this number.
    Rejected(Side, usize),
    /// The methods of the first and of the last class have the same meaning, since both sections are accepted.
    Equivalent,
}

impl LinkFinding {
    /// Whether the methods of the first and of the last class have the same meaning.
    pub(crate) fn is_equivalent(self) -> bool
        ensures { IsTrue result ↔ (self ≡ LinkFinding.Equivalent) }
    {
        matches!(self, LinkFinding::Equivalent)
    }
}

/// Where three methods stand in their classes.
#[derive(Clone, Copy)]
pub(crate) struct Places {
    pub(crate) first: usize,
    pub(crate) middle: usize,
    pub(crate) last: usize,
}

/// The axioms, and the lemmas of two certificates, of which the first is for a class and the middle one, and the second for that and
/// the last.
#[derive(Clone, Copy)]
pub(crate) struct LinkRules<'a, 'l> {
    pub(crate) axioms: &'a Axioms,
    pub(crate) first: &'a Lemmas<'l>,
    pub(crate) second: &'a Lemmas<'l>,
}

impl<'a, 'l> LinkRules<'a, 'l> {
    // The rules of the first certificate.
    fn of_first(&self) -> SectionRules<'a, 'l>
        ensures { result.lemmas.now ≡ self.now.first.now }
    {
        SectionRules {
            axioms: self.axioms,
            lemmas: self.first,
        }
    }

    // The rules of the second.
    fn of_second(&self) -> SectionRules<'a, 'l>
        ensures { result.lemmas.now ≡ self.now.second.now }
    {
        SectionRules {
            axioms: self.axioms,
            lemmas: self.second,
        }
    }
}

/// What is said of two sections for three classes, each by the rules of its certificate.
pub(crate) fn find<R: Threads + Sync, G: Gate>(
    workers: &Workers<R, G>,
    alloc: Global,
    rules: &LinkRules,
    classes: &Classes,
    section: &Section,
    other: &Section,
) -> Result<LinkFinding, Memory>
    requires { AreRead classes.now }
    ensures { IfOk result (λ finding. IsFinding (lemmas_by rules.now) classes.now.first classes.now.middle classes.now.last (section.now, other.now) finding) }
{
    let methods = &classes.first.methods;
    let Some(first) = methods.place_of(&section.name, &section.desc)? else {
        return Ok(LinkFinding::Missing);
    };
    let Some(middle) = partner_in(&classes.first, first, &classes.middle)? else {
        return Ok(LinkFinding::Missing);
    };
    let Some(last) = partner_in(&classes.middle, middle, &classes.last)? else {
        return Ok(LinkFinding::Missing);
    };
    let at = Places {
        first,
        middle,
        last,
    };
    find_on(workers, alloc, rules, classes, at, section, other)
}

// The place in a class of the partner of the method at a place of another class.
fn partner_in(first: &ClassFile, method: usize, second: &ClassFile) -> Result<Option<usize>, Memory>
    requires there { method < length first.now.methods }
    requires read { IsRead second.now }
    ensures partner { IfOk result (λ found. IsPartnerAt first.now method second.now found) }
    ensures within { IfOk result (λ found. IfSome found (λ place. place < length second.now.methods)) }
{
    partner_of(&first.methods.as_slice()[method], &second.methods)
}

// What is said of two sections on three methods, each at its place in its class.
fn find_on<R: Threads + Sync, G: Gate>(
    workers: &Workers<R, G>,
    alloc: Global,
    rules: &LinkRules,
    classes: &Classes,
    at: Places,
    section: &Section,
    other: &Section,
) -> Result<LinkFinding, Memory>
    requires read { AreRead classes.now }
    requires within { AreWithin classes.now at }
    ensures { IfOk result (λ finding. IsFindingOnPlaces (lemmas_by rules.now) classes.now at (section.now, other.now) finding) }
{
    if let Some(stage) = without_code(classes, at) {
        return Ok(LinkFinding::NoCode(stage));
    }
    let one = match roots_of(alloc, &classes.first, at.first, &classes.middle, at.middle)? {
        Ok(least) => least,
        Err(refused) => return Ok(refused_at(refused, Stage::First, Stage::Middle)),
    };
    let two = match roots_of(alloc, &classes.middle, at.middle, &classes.last, at.last)? {
        Ok(least) => least,
        Err(refused) => return Ok(refused_at(refused, Stage::Middle, Stage::Last)),
    };
    if let Checked::Rejected(n) = check(workers, alloc, &rules.of_first(), &one, section)? {
        return Ok(LinkFinding::Rejected(Side::First, n));
    }
    if let Checked::Rejected(n) = check(workers, alloc, &rules.of_second(), &two, other)? {
        return Ok(LinkFinding::Rejected(Side::Second, n));
    }
    Ok(LinkFinding::Equivalent)
}

// The first of three classes whose method at its place has no code.
fn without_code(classes: &Classes, at: Places) -> Option<Stage>
    requires { AreWithin classes.now at }
    ensures { HaveCodesAt classes.now at result }
{
    if !has_code(&classes.first, at.first) {
        return Some(Stage::First);
    }
    if !has_code(&classes.middle, at.middle) {
        return Some(Stage::Middle);
    }
    if !has_code(&classes.last, at.last) {
        return Some(Stage::Last);
    }
    None
}

// That the method of the one or the other of two classes is refused.
fn refused_at(refused: RefusedSide, one: Stage, two: Stage) -> LinkFinding
    ensures { result ≡ LinkFinding.Refused (stage_at refused.side one two) refused.cause }
{
    match refused.side {
        Side::First => LinkFinding::Refused(one, refused.cause),
        Side::Second => LinkFinding::Refused(two, refused.cause),
    }
}

// Whether the steps of a section derive by the rules of its certificate that the roots of a least graph are equal.
fn check<R: Threads + Sync, G: Gate>(
    workers: &Workers<R, G>,
    alloc: Global,
    rules: &SectionRules,
    least: &Least,
    section: &Section,
) -> Result<Checked, Memory>
    requires { least.now.graph.is_open ≡ false }
    ensures { IfOk result (λ answer. IsChecked rules.now.lemmas.now least.now section.now answer) }
{
    let checker = Checker::new(
        rules,
        least.graph(),
        least.first(),
        least.second(),
        section.steps.as_slice(),
    );
    checker.check(&checker.crew(workers), alloc)
}
