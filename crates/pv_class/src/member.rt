//! What fields and methods begin with.

ghost use Rattle.std.specs.Prelude.{◌≡◌, IfOk};
ghost use Rattle.pv_class.specs.Deciding.{is_field_type, is_method_type};
ghost use Rattle.pv_class.specs.ClassGrammar.{text_at, typed, member};
ghost use Rattle.pv_format.specs.GrammarReading.{read};
ghost use Rattle.pv_format.specs.Stopping.{Gives};

use crate::fault::{Cause, Stop};
use crate::items::{text_index_at, u16_at};
use crate::room::{IN_FILE, failed};
use pv_pool::Pool;
use pv_value::{Memory, read_descriptor, read_field_type};
use std::alloc::Global;

/// What begins so.
#[derive(Clone, Copy)]
pub(crate) enum MemberKind {
    Field,
    Method,
}

/// The flags of a field or a method, and the indices of its name and its descriptor.
#[derive(Clone, Copy)]
pub(crate) struct MemberHead {
    pub flags: u16,
    pub name: u16,
    pub desc: u16,
}

/// The text under an index, nothing where no Utf8 is.
pub(crate) fn text_at(pool: &Pool, i: u16) -> &[u8]
    ensures { result.now ≡ text_at pool.now i }
{
    match pool.text(i) {
        Some(text) => text.bytes(),
        None => &[],
    }
}

/// Whether a text is a field descriptor (JVMS 4.3.2).
fn is_field_type(text: &[u8]) -> bool
    ensures { result ≡ is_field_type text.now }
{
    read_field_type(text).is_some()
}

/// Whether a text is a method descriptor (JVMS 4.3.3).
fn is_method_type(alloc: Global, text: &[u8]) -> Result<bool, Memory>
    ensures { IfOk result (λ is. is ≡ is_method_type text.now) }
{
    Ok(read_descriptor(alloc, text)?.is_some())
}

/// Whether a text is the descriptor of such a member.
fn is_typed(alloc: Global, kind: MemberKind, text: &[u8]) -> Result<bool, Memory>
    ensures { IfOk result (λ is. is ≡ (typed kind text.now).tells) }
{
    match kind {
        MemberKind::Field => Ok(is_field_type(text)),
        MemberKind::Method => is_method_type(alloc, text),
    }
}

/// What a field or a method begins with (JVMS 4.5, 4.6).
#[tactic(auto, unfolding(crate::specs::ClassGrammar::member), using(pv_format::proofs::Cited::steps))]
pub(crate) fn member_at<'a>(
    alloc: Global,
    kind: MemberKind,
    pool: &Pool,
    bytes: &'a [u8],
) -> Result<(MemberHead, &'a [u8]), Stop>
    ensures { Gives (λ x. (x.0, x.1.now)) result (read (member kind pool.now) bytes.now) }
{
    let (flags, rest) = u16_at(IN_FILE, bytes)?;
    let (name, rest) = text_index_at(pool, IN_FILE, rest)?;
    let (desc, rest) = text_index_at(pool, IN_FILE, rest)?;
    if !is_typed(alloc, kind, text_at(pool, desc))? {
        return Err(failed(Cause::Descriptor, bytes.len()));
    }
    Ok((MemberHead { flags, name, desc }, rest))
}
