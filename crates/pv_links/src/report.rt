//! What is said of two files and a chain between them.

ghost use Rattle.std.specs.Prelude.{◌≡◌, IfOk};
ghost use Rattle.pv_chain.specs.Chains.{Fits};
ghost use Rattle.pv_report.specs.Judging.{IsReadPair};
ghost use Rattle.pv_report.specs.Listed.{AreLines};
ghost use Rattle.pv_links.specs.Findings.{IsFinding, lemmas_of, links};
ghost use Rattle.pv_links.specs.Lines.{link_line};
ghost use Rattle.pv_links.specs.Made.{AreRead, IsSaidOf, lemmas_by};
ghost use Rattle.pv_links.specs.Reading.{ChainRulesFetched};
ghost use Rattle.pv_links.specs.Ruled.{IsStatusOf};

use crate::chain::{chain_in, is_between, middle_of};
use crate::classes::Classes;
use crate::digest::bytes_of;
use crate::finding::{LinkFinding, LinkRules, find};
use crate::flaw::ChainFlaw;
use crate::line::{bad_chain, push_link};
use crate::links::like_in;
use pv_axioms::Axioms;
use pv_base::Gate;
use pv_cert::Section;
use pv_chain::Chain;
use pv_pieces::Workers;
use pv_report::{Answer, Fetched, Pair, Status, bad_class, read_pair};
use pv_rules::Lemmas;
use pv_value::Memory;
use std::alloc::Global;
use std::thread::Threads;

/// What is said of two files and a chain between them: a line for each section of its first certificate that has one of the same name
/// and descriptor in the second, in the order of the first; or one line on the first of the two files that is no class file, or else
/// on the chain where it has no reading or a certificate of it names other files. The limit of the first two fetches is `LONGEST_FILE`,
/// that of the third `LONGEST_CHAIN`. A section is checked by the axioms and the accepted ones of its certificate's lemmas, its steps
/// by pieces at once, and workers change no answer. Out of memory is the one error.
pub fn check_chain<R: Threads + Sync, G: Gate>(
    workers: &Workers<R, G>,
    alloc: Global,
    first: &Fetched,
    last: &Fetched,
    chain: &Fetched,
) -> Result<Answer, Memory>
    ensures { IfOk result (λ answer. ChainRulesFetched first.now last.now chain.now answer.text.items answer.status) }
{
    let pair = match read_pair(alloc, first, last)? {
        Ok(pair) => pair,
        Err(bad) => return Ok(bad_class(alloc, bad)?),
    };
    let chain = match chain_in(alloc, chain)? {
        Ok(chain) => chain,
        Err(flaw) => return Ok(bad_chain(alloc, flaw)?),
    };
    if !is_between(&chain, bytes_of(first), bytes_of(last)) {
        return Ok(bad_chain(alloc, ChainFlaw::Digest)?);
    }
    report_on(workers, alloc, pair, &chain)
}

// What is said of the links of a chain between two classes.
fn report_on<R: Threads + Sync, G: Gate>(
    workers: &Workers<R, G>,
    alloc: Global,
    pair: Pair,
    chain: &Chain,
) -> Result<Answer, Memory>
    requires read { IsReadPair pair }
    requires fits { Fits chain.now }
    ensures { IfOk result (λ answer. IsSaidOf pair chain.now answer.text.items answer.status) }
{
    let classes = Classes {
        first: pair.first,
        middle: middle_of(alloc, chain)?,
        last: pair.second,
    };
    let said = said_of(workers, alloc, &classes, chain)?;
    let status = status_of(&said.findings);
    Ok(Answer {
        text: said.text,
        status,
    })
}

// What is said of links, and the lines that say it.
#[derive(Drop)]
struct Said {
    findings: Vec<LinkFinding>,
    text: Vec<u8>,
}

// What is said of the links of a chain between three classes. The lemmas of both certificates are tested once.
fn said_of<R: Threads + Sync, G: Gate>(
    workers: &Workers<R, G>,
    alloc: Global,
    classes: &Classes,
    chain: &Chain,
) -> Result<Said, Memory>
    requires { AreRead classes.now }
    ensures { IfOk result (λ said. AreLines (IsFinding (lemmas_of chain.now) classes.now.first classes.now.middle classes.now.last) link_line (links chain.now.first.sections chain.now.second.sections) said.findings.items said.text.items) }
{
    let axioms = Axioms::new(alloc)?;
    let first = Lemmas::new(workers, alloc, &axioms, chain.first.lemmas.as_slice())?;
    let second = Lemmas::new(workers, alloc, &axioms, chain.second.lemmas.as_slice())?;
    let rules = LinkRules {
        axioms: &axioms,
        first: &first,
        second: &second,
    };
    let (sections, others) = (
        chain.first.sections.as_slice(),
        chain.second.sections.as_slice(),
    );
    said_by(workers, alloc, &rules, classes, sections, others)
}

// What is said of the sections that have one like them among the others, in their order, each by the rules of its certificate.
fn said_by<R: Threads + Sync, G: Gate>(
    workers: &Workers<R, G>,
    alloc: Global,
    rules: &LinkRules,
    classes: &Classes,
    sections: &[Section],
    others: &[Section],
) -> Result<Said, Memory>
    requires { AreRead classes.now }
    ensures { IfOk result (λ said. AreLines (IsFinding (lemmas_by rules.now) classes.now.first classes.now.middle classes.now.last) link_line (links sections.now others.now) said.findings.items said.text.items) }
{
    let mut findings = Vec::new(alloc);
    let mut text = Vec::new(alloc);
    for section in sections {
        if let Some(other) = like_in(section, others) {
            let finding = find(workers, alloc, rules, classes, section, other)?;
            push_link(alloc, &mut text, section, finding)?;
            findings.push(finding)?;
        }
    }
    Ok(Said { findings, text })
}

// The status that goes with these findings.
fn status_of(findings: &[LinkFinding]) -> Status
    ensures { IsStatusOf findings.now result }
{
    for finding in findings {
        if !finding.is_equivalent() {
            return Status::Others;
        }
    }
    Status::AllEquivalent
}
