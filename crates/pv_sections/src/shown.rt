//! What is said of two files, and the certificate that shows it.

ghost use Rattle.std.specs.Prelude.{◌≡◌, ◌↔◌, [], None, IfOk};
ghost use Rattle.pv_token.specs.Spellings.{AreBytes};
ghost use Rattle.pv_token.specs.Tokens.{digest_token};
ghost use Rattle.pv_report.specs.Judging.{JudgesFetched};
ghost use Rattle.pv_report.specs.Options.{in_least};
ghost use Rattle.pv_sections.specs.Certified.{CertifiesFetched, HasTextFor, IsTextFor};

use crate::digest::digest_of;
use pv_base::Gate;
use pv_cert::{Cert, Section, write_cert};
use pv_list::Listed;
use pv_pieces::Workers;
use pv_report::{Answer, Detail, Fetched, Limits, Report, Status, judge};
use pv_steps::Lemma;
use pv_value::Memory;
use std::alloc::Global;
use std::thread::Threads;

/// What is said of two files, and the text of the certificate that shows it, where both are class files.
#[derive(Drop)]
pub struct Shown {
    pub answer: Answer,
    pub certificate: Option<Vec<u8>>,
}

/// What is said of two files, as `judge` says it by searches in least graphs alone, and the certificate that shows it: it names both by their digests (FIPS 180-4,
/// SHA-256), has no lemmas, and has one section for each line `.. equivalent`, in the order of the lines. There is none where one of the two is no
/// class file. Out of memory is the one error.
pub fn show<R: Threads + Sync, G: Gate>(
    workers: &Workers<R, G>,
    alloc: Global,
    limits: Limits,
    first: &Fetched,
    second: &Fetched,
) -> Result<Shown, Memory>
    ensures answer { IfOk result (λ shown. JudgesFetched (in_least limits) first.now second.now shown.answer.text.items shown.answer.status) }
    ensures certificate { IfOk result (λ shown. CertifiesFetched limits first.now second.now shown.certificate) }
    ensures none { IfOk result (λ shown. (shown.certificate ≡ None) ↔ (shown.answer.status ≡ Status.BadClass)) }
{
    let Report { answer, sections } = judge(workers, alloc, limits, Detail::Steps, first, second)?;
    let certificate = certificate_for(alloc, first, second, sections)?;
    Ok(Shown {
        answer,
        certificate,
    })
}

// The text of the certificate for two files that were fetched, where there are sections for it.
fn certificate_for(
    alloc: Global,
    first: &Fetched,
    second: &Fetched,
    sections: Option<Listed<Section>>,
) -> Result<Option<Vec<u8>>, Memory>
    ensures { IfOk result (λ text. HasTextFor first.now second.now sections text) }
{
    match sections {
        Some(sections) => Ok(Some(text_for(alloc, first, second, sections)?)),
        None => Ok(None),
    }
}

// The text of the certificate for two files that were fetched, with no lemmas and these sections.
fn text_for(
    alloc: Global,
    first: &Fetched,
    second: &Fetched,
    sections: Listed<Section>,
) -> Result<Vec<u8>, Memory>
    ensures { IfOk result (λ text. IsTextFor first.now second.now sections text.items) }
{
    let (one, two) = (digest_of(first), digest_of(second));
    law_digest(one);
    law_digest(two);
    let cert = Cert {
        first: one,
        second: two,
        lemmas: no_lemmas(alloc),
        sections,
    };
    write_cert(alloc, &cert)
}

fn no_lemmas(alloc: Global) -> Listed<Lemma>
    ensures { result ≡ [] }
{
    Listed::from(Vec::new(alloc))
}

// A digest has a spelling: a law, for its caller's proof.
fn law_digest(digest: [u8; 32])
    ensures { digest_token.fits digest }
{
    law_bytes(&digest);
}

// What a slice of bytes holds are bytes: a law, for its caller's proof.
fn law_bytes(bytes: &[u8])
    ensures { AreBytes bytes.now }
{}
