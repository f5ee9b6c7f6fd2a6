//! The lines on chains.

ghost use Rattle.std.specs.Prelude.{◌≡◌, ◌++◌, ◌∷◌, [], IfOk, OnOk, decimal};
ghost use Rattle.pv_report.specs.Lines.{line_text, method_line};
ghost use Rattle.pv_token.specs.Words.{spaced};
ghost use Rattle.pv_links.specs.Lines.{bad_chain, bad_link, bad_link_words, bad_stage, chain_flaw_words, composed, finding_words, link_word, text_flaw_words};

use crate::classes::BadStage;
use crate::finding::LinkFinding;
use crate::flaw::{BadLink, ChainFlaw, TextFlaw};
use crate::stage::{ordinal_word, stage_word};
use pv_cert::{CertFault, Section};
use pv_chain::ChainFault;
use pv_report::{Answer, Side, Status, push_cause, push_fault, push_method, side_word};
use pv_token::push_decimal;
use std::alloc::{AllocError, Global};

// ---- links

/// What is said of a link whose first section this is, and a line feed.
pub(crate) fn push_link(
    alloc: Global,
    out: &mut Vec<u8>,
    section: &Section,
    finding: LinkFinding,
) -> Result<(), AllocError>
    ensures { OnOk result (out.new.items ≡ out.old.items ++ line_text (method_line section.now.name section.now.desc (finding_words finding))) }
{
    push_method(alloc, out, &section.name, &section.desc)?;
    push_finding(out, finding)?;
    out.extend_from_slice(b"\n")
}

// The words of a finding, each after a blank.
fn push_finding(out: &mut Vec<u8>, finding: LinkFinding) -> Result<(), AllocError>
    ensures { OnOk result (out.new.items ≡ out.old.items ++ spaced (finding_words finding)) }
{
    match finding {
        LinkFinding::Missing => out.extend_from_slice(b" missing"),
        LinkFinding::NoCode(stage) => {
            out.extend_from_slice(b" nocode ")?;
            out.extend_from_slice(stage_word(stage))
        }
        LinkFinding::Refused(stage, cause) => {
            out.extend_from_slice(b" refused ")?;
            out.extend_from_slice(stage_word(stage))?;
            push_cause(out, cause)
        }
        LinkFinding::Rejected(side, n) => {
            out.extend_from_slice(b" rejected ")?;
            push_number(out, side_word(side), n)
        }
        LinkFinding::Equivalent => out.extend_from_slice(b" equivalent"),
    }
}

// A word and a number, with a blank between the two.
fn push_number(out: &mut Vec<u8>, word: &[u8], n: usize) -> Result<(), AllocError>
    ensures { OnOk result (out.new.items ≡ out.old.items ++ (word.now ++ spaced (decimal n ∷ []))) }
{
    out.extend_from_slice(word)?;
    out.extend_from_slice(b" ")?;
    push_decimal(out, n)
}

/// What is said of a chain that is not one for the two files. Out of memory is the one error.
pub(crate) fn bad_chain(alloc: Global, flaw: ChainFlaw) -> Result<Answer, AllocError>
    ensures text { IfOk result (λ answer. answer.text.items ≡ bad_chain flaw) }
    ensures status { IfOk result (λ answer. answer.status ≡ Status.BadCert) }
{
    let mut text = Vec::new(alloc);
    text.extend_from_slice(b"bad chain")?;
    text.extend_from_slice(chain_flaw_words(flaw))?;
    text.extend_from_slice(b"\n")?;
    Ok(Answer {
        text,
        status: Status::BadCert,
    })
}

// The words of a flaw, each after a blank.
fn chain_flaw_words(flaw: ChainFlaw) -> &'static [u8]
    ensures { result.now ≡ spaced (chain_flaw_words flaw) }
{
    match flaw {
        ChainFlaw::TooLong => b" too-long",
        ChainFlaw::Unread(ChainFault::Truncated) => b" truncated",
        ChainFlaw::Unread(ChainFault::Header) => b" header",
        ChainFlaw::Unread(ChainFault::First) => b" first",
        ChainFlaw::Unread(ChainFault::Second) => b" second",
        ChainFlaw::Unread(ChainFault::Memory) => b" out of memory",
        ChainFlaw::Digest => b" digest",
    }
}

// ---- a composition

/// What is said where a chain was made. Out of memory is the one error.
pub(crate) fn composed(alloc: Global) -> Result<Answer, AllocError>
    ensures text { IfOk result (λ answer. answer.text.items ≡ composed) }
    ensures status { IfOk result (λ answer. answer.status ≡ Status.AllEquivalent) }
{
    let mut text = Vec::new(alloc);
    text.extend_from_slice(b"composed\n")?;
    Ok(Answer {
        text,
        status: Status::AllEquivalent,
    })
}

/// What is said of one of three files that is no class file. Out of memory is the one error.
pub(crate) fn bad_stage(alloc: Global, bad: BadStage) -> Result<Answer, AllocError>
    ensures text { IfOk result (λ answer. answer.text.items ≡ bad_stage bad.stage bad.fault) }
    ensures status { IfOk result (λ answer. answer.status ≡ Status.BadClass) }
{
    let mut text = Vec::new(alloc);
    text.extend_from_slice(b"bad class ")?;
    text.extend_from_slice(ordinal_word(bad.stage))?;
    push_fault(&mut text, bad.fault)?;
    text.extend_from_slice(b"\n")?;
    Ok(Answer {
        text,
        status: Status::BadClass,
    })
}

/// What is said of two certificates that are no links. Out of memory is the one error.
pub(crate) fn bad_link(alloc: Global, bad: BadLink) -> Result<Answer, AllocError>
    ensures text { IfOk result (λ answer. answer.text.items ≡ bad_link bad) }
    ensures status { IfOk result (λ answer. answer.status ≡ Status.BadCert) }
{
    let mut text = Vec::new(alloc);
    text.extend_from_slice(b"bad link")?;
    push_bad_link(&mut text, bad)?;
    text.extend_from_slice(b"\n")?;
    Ok(Answer {
        text,
        status: Status::BadCert,
    })
}

// Which certificate is no link, and why, each word after a blank.
fn push_bad_link(out: &mut Vec<u8>, bad: BadLink) -> Result<(), AllocError>
    ensures { OnOk result (out.new.items ≡ out.old.items ++ spaced (bad_link_words bad)) }
{
    out.extend_from_slice(b" ")?;
    match bad {
        BadLink::Text(side, flaw) => {
            out.extend_from_slice(link_word(side))?;
            push_text_flaw(out, flaw)
        }
        BadLink::Digest(side) => {
            out.extend_from_slice(link_word(side))?;
            out.extend_from_slice(b" digest")
        }
    }
}

fn link_word(side: Side) -> &'static [u8]
    ensures { result.now ≡ link_word side }
{
    match side {
        Side::First => b"1",
        Side::Second => b"2",
    }
}

// The words of a flaw, each after a blank.
fn push_text_flaw(out: &mut Vec<u8>, flaw: TextFlaw) -> Result<(), AllocError>
    ensures { OnOk result (out.new.items ≡ out.old.items ++ spaced (text_flaw_words flaw)) }
{
    match flaw {
        TextFlaw::TooLong => out.extend_from_slice(b" too-long"),
        TextFlaw::Unread(CertFault::Truncated) => out.extend_from_slice(b" truncated"),
        TextFlaw::Unread(CertFault::Header) => out.extend_from_slice(b" header"),
        TextFlaw::Unread(CertFault::Step(n)) => push_number(out, b" line", n),
        TextFlaw::Unread(CertFault::Memory) => out.extend_from_slice(b" out of memory"),
    }
}
