//! What is said of two files and a certificate.

ghost use Rattle.std.specs.Prelude.{◌≡◌, ◌↔◌, length, IfOk, IsTrue};
ghost use Rattle.std.specs.List.{AllZip, flat_map};
ghost use Rattle.pv_report.specs.Lines.{line_text};
ghost use Rattle.pv_report.specs.Listed.{lines_by};
ghost use Rattle.pv_report.specs.Judging.{IsReadPair};
ghost use Rattle.pv_sections.specs.Findings.{IsFinding};
ghost use Rattle.pv_sections.specs.Lines.{section_line};
ghost use Rattle.pv_sections.specs.Ruled.{IsStatusOf, SaysEquivalent};
ghost use Rattle.pv_sections.specs.Reading.{RulesFetched};

use crate::certificate::{cert_of, other_file};
use crate::digest::digest_of;
use crate::finding::{Finding, find};
use crate::line::{bad_certificate, push_section};
use pv_axioms::Axioms;
use pv_base::Gate;
use pv_cert::{Cert, Section};
use pv_pieces::Workers;
use pv_report::{Answer, Fetched, Pair, Status, Verdict, bad_class, read_pair};
use pv_rules::{Lemmas, SectionRules};
use pv_value::Memory;
use std::alloc::{AllocError, Global};
use std::thread::Threads;

/// What is said of two files and a certificate: a line for each section of the certificate, in its order; or one line on
/// the first of the two files that is no class file, or else on the certificate where it has no reading or names another
/// file. The limit of the first two fetches is `LONGEST_FILE`, that of the third `LONGEST_CERT`. A section is checked by the axioms and
/// the accepted ones of the certificate's lemmas, its steps by pieces at once, and workers change no answer. Out of memory is the one
/// error.
pub fn rule<R: Threads + Sync, G: Gate>(
    workers: &Workers<R, G>,
    alloc: Global,
    first: &Fetched,
    second: &Fetched,
    cert: &Fetched,
) -> Result<Answer, Memory>
    ensures { IfOk result (λ answer. RulesFetched first.now second.now cert.now answer.text.items answer.status) }
{
    let pair = match read_pair(alloc, first, second)? {
        Ok(pair) => pair,
        Err(bad) => return Ok(bad_class(alloc, bad)?),
    };
    let cert = match cert_of(alloc, cert)? {
        Ok(cert) => cert,
        Err(flaw) => return Ok(bad_certificate(alloc, flaw)?),
    };
    if let Some(flaw) = other_file(&cert, digest_of(first), digest_of(second)) {
        return Ok(bad_certificate(alloc, flaw)?);
    }
    let findings = findings(workers, alloc, &pair, &cert)?;
    let text = lines(alloc, cert.sections.as_slice(), &findings)?;
    let status = status_of(&findings);
    Ok(Answer { text, status })
}

// What is said of the sections of a certificate, in their order. Its lemmas are tested once.
fn findings<R: Threads + Sync, G: Gate>(
    workers: &Workers<R, G>,
    alloc: Global,
    pair: &Pair,
    cert: &Cert,
) -> Result<Vec<Finding>, Memory>
    requires { IsReadPair pair.now }
    ensures { IfOk result (λ findings. AllZip (IsFinding cert.now.lemmas pair.now.first pair.now.second) cert.now.sections findings.items) }
{
    let axioms = Axioms::new(alloc)?;
    let lemmas = Lemmas::new(workers, alloc, &axioms, cert.lemmas.as_slice())?;
    let rules = SectionRules {
        axioms: &axioms,
        lemmas: &lemmas,
    };
    findings_by(workers, alloc, &rules, pair, cert.sections.as_slice())
}

// What is said of sections, in their order, by the rules of their certificate.
fn findings_by<R: Threads + Sync, G: Gate>(
    workers: &Workers<R, G>,
    alloc: Global,
    rules: &SectionRules,
    pair: &Pair,
    sections: &[Section],
) -> Result<Vec<Finding>, Memory>
    requires { IsReadPair pair.now }
    ensures { IfOk result (λ findings. AllZip (IsFinding rules.now.lemmas.now pair.now.first pair.now.second) sections.now findings.items) }
{
    let mut findings = Vec::new(alloc);
    for section in sections {
        let finding = find(workers, alloc, rules, pair, section)?;
        findings.push(finding)?;
    }
    Ok(findings)
}

// The lines of sections, each with its finding.
fn lines(alloc: Global, sections: &[Section], findings: &[Finding]) -> Result<Vec<u8>, AllocError>
    requires { length findings.now ≡ length sections.now }
    ensures { IfOk result (λ text. text.items ≡ flat_map line_text (lines_by section_line sections.now findings.now)) }
{
    let mut text = Vec::new(alloc);
    for k in 0..sections.len() {
        push_section(alloc, &mut text, &sections[k], findings[k])?;
    }
    Ok(text)
}

// The status that goes with these findings.
fn status_of(findings: &[Finding]) -> Status
    ensures { IsStatusOf findings.now result }
{
    for finding in findings {
        if !says_equivalent(*finding) {
            return Status::Others;
        }
    }
    Status::AllEquivalent
}

fn says_equivalent(finding: Finding) -> bool
    ensures { IsTrue result ↔ SaysEquivalent finding }
{
    matches!(finding, Finding::Verdict(Verdict::Equivalent))
}
