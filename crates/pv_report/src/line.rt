//! The lines of a report.

ghost use Rattle.std.specs.Prelude.{◌≡◌, ◌++◌, ◌∷◌, [], OnOk, codes, decimal};
ghost use Rattle.pv_token.specs.Words.{spaced};
ghost use Rattle.pv_report.specs.Lines.{side_word, kind_word, verdict_words, method_line, line_of, line_text, pool_word, word_at, fault_words, bad_class};

use crate::verdict::{Side, Verdict};
use pv_class::{ClassFault, Method, PoolWord};
use pv_frame::{Cause, CauseKind};
use pv_token::{push_decimal, push_shown};
use pv_value::Name;
use std::alloc::{AllocError, Global};

/// The line that says that a file has no reading, with its fault.
pub fn push_bad_class(out: &mut Vec<u8>, side: Side, fault: ClassFault) -> Result<(), AllocError>
    ensures { OnOk result (out.new.items ≡ out.old.items ++ bad_class side fault) }
{
    out.extend_from_slice(b"bad class ")?;
    out.extend_from_slice(side_word(side))?;
    push_fault(out, fault)?;
    out.extend_from_slice(b"\n")
}

/// The words of a fault, each after a blank.
pub fn push_fault(out: &mut Vec<u8>, fault: ClassFault) -> Result<(), AllocError>
    ensures { OnOk result (out.new.items ≡ out.old.items ++ spaced (fault_words fault)) }
{
    match fault {
        ClassFault::Truncated(at) => push_word_at(out, b"truncated", at),
        ClassFault::Magic(at) => push_word_at(out, b"magic", at),
        ClassFault::Version(at) => push_word_at(out, b"version", at),
        ClassFault::Pool(word, at) => push_word_at(out, pool_word(word), at),
        ClassFault::Descriptor(at) => push_word_at(out, b"descriptor", at),
        ClassFault::Code(at) => push_word_at(out, b"code", at),
        ClassFault::Duplicate(at) => push_word_at(out, b"duplicate", at),
        ClassFault::Trailing(at) => push_word_at(out, b"trailing", at),
        ClassFault::TooLong(at) => push_word_at(out, b"too-long", at),
        ClassFault::Memory => out.extend_from_slice(b" out of memory"),
    }
}

fn pool_word(word: PoolWord) -> &'static [u8]
    ensures { result.now ≡ pool_word word }
{
    match word {
        PoolWord::Tag => b"pool-tag",
        PoolWord::Utf8 => b"pool-utf8",
        PoolWord::Reference => b"pool-reference",
    }
}

// A word and a place, each word after a blank.
fn push_word_at(out: &mut Vec<u8>, word: &[u8], at: usize) -> Result<(), AllocError>
    ensures { OnOk result (out.new.items ≡ out.old.items ++ spaced (word_at word.now at)) }
{
    out.extend_from_slice(b" ")?;
    out.extend_from_slice(word)?;
    out.extend_from_slice(b" at ")?;
    push_decimal(out, at)
}

/// What is said of a method, and a line feed.
pub fn push_line(
    alloc: Global,
    out: &mut Vec<u8>,
    method: &Method,
    verdict: Verdict,
) -> Result<(), AllocError>
    ensures { OnOk result (out.new.items ≡ out.old.items ++ line_text (line_of method.now verdict)) }
{
    push_method(alloc, out, &method.name, &method.desc)?;
    push_verdict(out, verdict)?;
    out.extend_from_slice(b"\n")
}

/// What a line on a method begins with.
pub fn push_method(
    alloc: Global,
    out: &mut Vec<u8>,
    name: &Name,
    desc: &Name,
) -> Result<(), AllocError>
    ensures { OnOk result (out.new.items ≡ out.old.items ++ method_line name.now desc.now []) }
{
    push_shown(alloc, out, name.bytes())?;
    out.extend_from_slice(b" ")?;
    push_shown(alloc, out, desc.bytes())
}

/// The words of a verdict, each after a blank.
pub fn push_verdict(out: &mut Vec<u8>, verdict: Verdict) -> Result<(), AllocError>
    ensures { OnOk result (out.new.items ≡ out.old.items ++ spaced (verdict_words verdict)) }
{
    match verdict {
        Verdict::Missing => out.extend_from_slice(b" missing"),
        Verdict::NoCode(side) => {
            out.extend_from_slice(b" nocode ")?;
            out.extend_from_slice(side_word(side))
        }
        Verdict::Refused(side, cause) => {
            out.extend_from_slice(b" refused ")?;
            out.extend_from_slice(side_word(side))?;
            push_cause(out, cause)
        }
        Verdict::Equivalent => out.extend_from_slice(b" equivalent"),
        Verdict::Apart => out.extend_from_slice(b" unknown apart"),
        Verdict::Rounds(rounds) => push_unknown(out, b"rounds", rounds),
        Verdict::Budget(rounds) => push_unknown(out, b"budget", rounds),
    }
}

/// The words of a cause, each after a blank.
pub fn push_cause(out: &mut Vec<u8>, cause: Cause) -> Result<(), AllocError>
    ensures { OnOk result (out.new.items ≡ out.old.items ++ spaced (word_at (kind_word cause.kind) cause.at)) }
{
    push_word_at(out, kind_word(cause.kind), cause.at as usize)
}

// That nothing is known, with the limit that was reached and the number of rounds, each word after a blank.
fn push_unknown(out: &mut Vec<u8>, limit: &[u8], rounds: u32) -> Result<(), AllocError>
    ensures { OnOk result (out.new.items ≡ out.old.items ++ spaced (codes "unknown" ∷ limit.now ∷ decimal rounds ∷ [])) }
{
    out.extend_from_slice(b" unknown ")?;
    out.extend_from_slice(limit)?;
    out.extend_from_slice(b" ")?;
    push_decimal(out, rounds as usize)
}

fn kind_word(kind: CauseKind) -> &'static [u8]
    ensures { result.now ≡ kind_word kind }
{
    match kind {
        CauseKind::Handler => b"handler",
        CauseKind::Monitor => b"monitor",
        CauseKind::LongCode => b"long-code",
        CauseKind::Slots => b"slots",
        CauseKind::Float => b"float",
        CauseKind::Code => b"code",
        CauseKind::Subroutine => b"subroutine",
        CauseKind::Dynamic => b"dynamic",
        CauseKind::Allocation => b"allocation",
        CauseKind::Constant => b"constant",
        CauseKind::Types => b"types",
        CauseKind::Blocks => b"blocks",
        CauseKind::Irreducible => b"irreducible",
        CauseKind::Depth => b"depth",
    }
}

/// `first` or `second`.
pub fn side_word(side: Side) -> &'static [u8]
    ensures { result.now ≡ side_word side }
{
    match side {
        Side::First => b"first",
        Side::Second => b"second",
    }
}
