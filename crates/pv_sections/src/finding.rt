//! What is said of a section.

ghost use Rattle.std.specs.Prelude.{◌≡◌, ◌<◌, IfOk, false, length};
ghost use Rattle.pv_report.specs.Judging.{IsReadPair};
ghost use Rattle.pv_sections.specs.Findings.{IsFinding};
ghost use Rattle.pv_sections.specs.Reading.{IsChecked, IsFindingOnPlaces};

use pv_alike::Least;
use pv_base::Gate;
use pv_cert::Section;
use pv_check::{Checked, Checker};
use pv_pieces::Workers;
use pv_report::{Pair, Verdict, least_roots, partner_of};
use pv_rules::SectionRules;
use pv_value::Memory;
use std::alloc::Global;
use std::thread::Threads;

/// What is said of a section of a certificate.
#[derive(Clone, Copy, Debug, PartialEq, Eq)]
pub enum Finding {
    /// What a report on the two methods can say too: that one of them is missing, has no code or is refused; or that
    /// they have the same meaning, since the section is accepted.
    Verdict(Verdict),
    /// The section is rejected: this is the number, from 1, of its first step that isn't right, or one more than the
    /// number of its steps where all are right but don't conclude that the roots are equal.
    Rejected(usize),
}

/// What is said of a section of a certificate for two classes, by these rules of the certificate.
pub(crate) fn find<R: Threads + Sync, G: Gate>(
    workers: &Workers<R, G>,
    alloc: Global,
    rules: &SectionRules,
    pair: &Pair,
    section: &Section,
) -> Result<Finding, Memory>
    requires { IsReadPair pair.now }
    ensures { IfOk result (λ finding. IsFinding rules.now.lemmas.now pair.now.first pair.now.second section.now finding) }
{
    let methods = &pair.first.methods;
    let Some(method) = methods.place_of(&section.name, &section.desc)? else {
        return Ok(Finding::Verdict(Verdict::Missing));
    };
    match partner_of(&methods.as_slice()[method], &pair.second.methods)? {
        None => Ok(Finding::Verdict(Verdict::Missing)),
        Some(partner) => find_on(workers, alloc, rules, pair, method, partner, section),
    }
}

// What is said of a section for two methods at their places.
fn find_on<R: Threads + Sync, G: Gate>(
    workers: &Workers<R, G>,
    alloc: Global,
    rules: &SectionRules,
    pair: &Pair,
    method: usize,
    partner: usize,
    section: &Section,
) -> Result<Finding, Memory>
    requires read { IsReadPair pair.now }
    requires method { method < length pair.now.first.methods }
    requires partner { partner < length pair.now.second.methods }
    ensures { IfOk result (λ finding. IsFindingOnPlaces rules.now.lemmas.now pair.now.first method pair.now.second partner section.now finding) }
{
    let least = match least_roots(alloc, &pair.first, method, &pair.second, partner)? {
        Ok(least) => least,
        Err(verdict) => return Ok(Finding::Verdict(verdict)),
    };
    match check(workers, alloc, rules, &least, section)? {
        Checked::Accepted => Ok(Finding::Verdict(Verdict::Equivalent)),
        Checked::Rejected(n) => Ok(Finding::Rejected(n)),
    }
}

// Whether the steps of a section derive by the rules of its certificate that the roots of a least graph are equal.
fn check<R: Threads + Sync, G: Gate>(
    workers: &Workers<R, G>,
    alloc: Global,
    rules: &SectionRules,
    least: &Least,
    section: &Section,
) -> Result<Checked, Memory>
    requires { least.now.graph.is_open ≡ false }
    ensures { IfOk result (λ answer. IsChecked rules.now.lemmas.now least.now section.now answer) }
{
    let checker = Checker::new(
        rules,
        least.graph(),
        least.first(),
        least.second(),
        section.steps.as_slice(),
    );
    checker.check(&checker.crew(workers), alloc)
}
