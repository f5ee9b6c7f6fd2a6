//! A certificate is read from its text.

ghost use Rattle.std.specs.Prelude.{◌≡◌, [], IfOk};
ghost use Rattle.std.specs.List.{slice_split};
ghost use Rattle.std.specs.Str.{bytes_eq};
ghost use Rattle.pv_format.specs.Splits.{is_blank};
ghost use Rattle.pv_format.specs.Seen.{texts};
ghost use Rattle.pv_cert.specs.declared.cert.Version.TheVariants.{One, Two};
ghost use Rattle.pv_cert.specs.Answers.{Answers, Tells};
ghost use Rattle.pv_cert.specs.Certificates.{version_line, cert_of, read_after_header};
ghost use Rattle.pv_cert.specs.Places.{Gives, GoesOn, read_digest_words, with_second, take_digests, after_version, seen_place};
ghost use Rattle.pv_cert.specs.Reading.{between, ended, read_lines};

use crate::cert::{Body, Cert, CertFault, Version};
use crate::read::{Place, advance};
use pv_format::{lines_of, words_of};
use pv_list::Listed;
use pv_token::{Digest, take};
use pv_value::Memory;
use std::alloc::Global;

// The number of the first line after the header.
const FIRST_LINE: usize = 4;

// A digest after the name of its file, and nothing after it.
fn read_digest<'w>(which: &[u8], words: &'w [&'w [u8]]) -> Option<[u8; 32]>
    ensures { result ≡ read_digest_words which.now (texts words.now) }
{
    match words {
        [] => None,
        [name, rest @ ..] => {
            if *name != which {
                return None;
            }
            let (digest, rest) = take::<Digest>(rest)?;
            if rest.is_empty() { Some(digest) } else { None }
        }
    }
}

// The place after a line.
fn after(
    alloc: Global,
    version: Version,
    place: Place,
    line: &[u8],
    number: usize,
) -> Result<Place, CertFault>
    ensures { GoesOn version number place line.now result }
{
    match advance(alloc, version, place, line) {
        Ok(Some(next)) => Ok(next),
        Ok(None) => Err(CertFault::Step(number)),
        Err(Memory) => Err(CertFault::Memory),
    }
}

// The lemmas and sections that have been read where the text ends.
fn ended(place: Place) -> Result<Body, CertFault>
    ensures { Gives result (ended (seen_place place)) }
{
    match place {
        Place::Between(lemmas, sections) => {
            let lemmas = Listed::from(lemmas);
            let sections = Listed::from(sections);
            Ok(Body { lemmas, sections })
        }
        Place::Proving(_, _, _) => Err(CertFault::Truncated),
        Place::Inside(_, _, _, _) => Err(CertFault::Truncated),
    }
}

// The lemmas and sections of the lines after the header.
fn read_lines<'w>(alloc: Global, version: Version, lines: &'w [&'w [u8]]) -> Result<Body, CertFault>
    ensures { Gives result (read_lines version 4 (between [] []) (texts lines.now)) }
{
    let mut place = Place::Between(Vec::new(alloc), Vec::new(alloc));
    for k in 0..lines.len() {
        place = after(alloc, version, place, lines[k], FIRST_LINE + k)?;
    }
    ended(place)
}

// The digest in a line of the header.
fn read_digest_line(alloc: Global, which: &[u8], line: &[u8]) -> Result<Option<[u8; 32]>, Memory>
    ensures { IfOk result (λ r. r ≡ read_digest_words which.now (slice_split is_blank line.now)) }
{
    let words = words_of(alloc, line)?;
    Ok(read_digest(which, &words))
}

// The certificate of these digests whose lemmas and sections have these lines.
fn of_body<'w>(
    alloc: Global,
    version: Version,
    digests: ([u8; 32], [u8; 32]),
    lines: &'w [&'w [u8]],
) -> Result<Cert, CertFault>
    ensures { Gives result (cert_of (digests.0, digests.1) (read_lines version 4 (between [] []) (texts lines.now))) }
{
    let (first, second) = digests;
    let Body { lemmas, sections } = read_lines(alloc, version, lines)?;
    Ok(Cert {
        first,
        second,
        lemmas,
        sections,
    })
}

// The certificate whose lines after the digest of the first file these are.
fn after_first<'w>(
    alloc: Global,
    version: Version,
    first: [u8; 32],
    lines: &'w [&'w [u8]],
) -> Result<Cert, CertFault>
    ensures { Gives result (read_after_header version (with_second first (texts lines.now))) }
{
    match lines {
        [] => Err(CertFault::Header),
        [line, rest @ ..] => match read_digest_line(alloc, b"second", line) {
            Ok(Some(second)) => of_body(alloc, version, (first, second), rest),
            Ok(None) => Err(CertFault::Header),
            Err(Memory) => Err(CertFault::Memory),
        },
    }
}

// The certificate whose lines after the version these are.
fn after_version<'w>(
    alloc: Global,
    version: Version,
    lines: &'w [&'w [u8]],
) -> Result<Cert, CertFault>
    ensures { Gives result (read_after_header version (take_digests (texts lines.now))) }
{
    match lines {
        [] => Err(CertFault::Header),
        [line, rest @ ..] => match read_digest_line(alloc, b"first", line) {
            Ok(Some(first)) => after_first(alloc, version, first, rest),
            Ok(None) => Err(CertFault::Header),
            Err(Memory) => Err(CertFault::Memory),
        },
    }
}

/// The line that a text of the version begins with.
pub fn version_line(version: Version) -> &'static [u8]
    ensures { result.now ≡ version_line version }
{
    match version {
        Version::One => b"peggy-cert 1",
        Version::Two => b"peggy-cert 2",
    }
}

fn is_version(version: Version, line: &[u8]) -> bool
    ensures { result ≡ bytes_eq line.now (version_line version) }
{
    line == version_line(version)
}

// The certificate of these lines.
fn of_lines<'w>(alloc: Global, version: Version, lines: &'w [&'w [u8]]) -> Result<Cert, CertFault>
    ensures { Gives result (read_after_header version (after_version version (texts lines.now))) }
{
    match lines {
        [] => Err(CertFault::Header),
        [line, rest @ ..] => {
            if is_version(version, line) {
                after_version(alloc, version, rest)
            } else {
                Err(CertFault::Header)
            }
        }
    }
}

// Reads the text of a certificate in a version.
fn read(alloc: Global, version: Version, bytes: &[u8]) -> Result<Cert, CertFault>
    ensures exact { Answers version bytes.now result }
    ensures only { Tells version bytes.now result }
{
    match lines_of(alloc, bytes) {
        Ok(Some(lines)) => of_lines(alloc, version, &lines),
        Ok(None) => Err(CertFault::Truncated),
        Err(_) => Err(CertFault::Memory),
    }
}

/// Reads the text of a certificate, front to back, and in time that is linear in its length.
///
/// The fault is that of the first line that may not stand where it does. Before it come a last byte that is no line
/// feed, and a header that isn't one; after it a lemma without its `prove` or a section without its `end`.
pub fn read_cert(alloc: Global, bytes: &[u8]) -> Result<Cert, CertFault>
    ensures exact { Answers Two bytes.now result }
    ensures only { Tells Two bytes.now result }
{
    read(alloc, Version::Two, bytes)
}

/// Reads the text of a certificate of version 1, as `read_cert` reads one of version 2. It has no lemmas, and its
/// sections use none.
pub fn read_cert_1(alloc: Global, bytes: &[u8]) -> Result<Cert, CertFault>
    ensures exact { Answers One bytes.now result }
    ensures only { Tells One bytes.now result }
{
    read(alloc, Version::One, bytes)
}
