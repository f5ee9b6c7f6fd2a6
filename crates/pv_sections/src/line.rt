//! The lines of a report on a certificate.

ghost use Rattle.std.specs.Prelude.{◌≡◌, ◌++◌, IfOk, OnOk, decimal};
ghost use Rattle.pv_token.specs.Words.{spaced};
ghost use Rattle.pv_report.specs.Lines.{line_text};
ghost use Rattle.pv_sections.specs.Lines.{bad_certificate, cert_fault_words, finding_words, flaw_words, section_line};

use crate::finding::Finding;
use crate::flaw::Flaw;
use pv_cert::{CertFault, Section};
use pv_report::{Answer, Status, push_method, push_verdict, side_word};
use pv_token::{Digest, push, push_decimal};
use std::alloc::{AllocError, Global};

/// What is said of a section, and a line feed.
pub(crate) fn push_section(
    alloc: Global,
    out: &mut Vec<u8>,
    section: &Section,
    finding: Finding,
) -> Result<(), AllocError>
    ensures { OnOk result (out.new.items ≡ out.old.items ++ line_text (section_line section.now finding)) }
{
    push_method(alloc, out, &section.name, &section.desc)?;
    push_finding(out, finding)?;
    out.extend_from_slice(b"\n")
}

// The words of a finding, each after a blank.
fn push_finding(out: &mut Vec<u8>, finding: Finding) -> Result<(), AllocError>
    ensures { OnOk result (out.new.items ≡ out.old.items ++ spaced (finding_words finding)) }
{
    match finding {
        Finding::Verdict(verdict) => push_verdict(out, verdict),
        Finding::Rejected(n) => push_number(out, b" rejected ", n),
    }
}

// A word between blanks, and a number.
fn push_number(out: &mut Vec<u8>, word: &[u8], n: usize) -> Result<(), AllocError>
    ensures { OnOk result (out.new.items ≡ out.old.items ++ word.now ++ decimal n) }
{
    out.extend_from_slice(word)?;
    push_decimal(out, n)
}

/// What is said of a certificate that is not one for the two files. Out of memory is the one error.
pub fn bad_certificate(alloc: Global, flaw: Flaw) -> Result<Answer, AllocError>
    ensures text { IfOk result (λ answer. answer.text.items ≡ bad_certificate flaw) }
    ensures status { IfOk result (λ answer. answer.status ≡ Status.BadCert) }
{
    let mut text = Vec::new(alloc);
    text.extend_from_slice(b"bad certificate")?;
    push_flaw(&mut text, flaw)?;
    text.extend_from_slice(b"\n")?;
    Ok(Answer {
        text,
        status: Status::BadCert,
    })
}

// The words of a flaw, each after a blank.
fn push_flaw(out: &mut Vec<u8>, flaw: Flaw) -> Result<(), AllocError>
    ensures { OnOk result (out.new.items ≡ out.old.items ++ spaced (flaw_words flaw)) }
{
    match flaw {
        Flaw::TooLong => out.extend_from_slice(b" too-long"),
        Flaw::Unread(fault) => push_cert_fault(out, fault),
        Flaw::OtherFile(side, written, actual) => {
            out.extend_from_slice(b" ")?;
            out.extend_from_slice(side_word(side))?;
            push::<Digest>(out, written)?;
            push::<Digest>(out, actual)
        }
    }
}

fn push_cert_fault(out: &mut Vec<u8>, fault: CertFault) -> Result<(), AllocError>
    ensures { OnOk result (out.new.items ≡ out.old.items ++ spaced (cert_fault_words fault)) }
{
    match fault {
        CertFault::Truncated => out.extend_from_slice(b" truncated"),
        CertFault::Header => out.extend_from_slice(b" header"),
        CertFault::Step(n) => push_number(out, b" line ", n),
        CertFault::Memory => out.extend_from_slice(b" out of memory"),
    }
}
