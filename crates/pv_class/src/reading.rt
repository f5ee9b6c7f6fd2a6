//! Reading the fields and the methods of a class file.

ghost use Rattle.std.specs.Prelude.{◌≡◌, ◌++◌, ◌∷◌, [], IfOk, None};
ghost use Rattle.pv_format.specs.Grammars.{times};
ghost use Rattle.pv_class.specs.ClassGrammar.{field, is_code, attribute, attributes, method, methods, method_of, signature, signature_of};
ghost use Rattle.pv_format.specs.GrammarReading.{read};
ghost use Rattle.pv_format.specs.Stopping.{Gives};

use crate::code::code_at;
use crate::fault::{Cause, Stop};
use crate::file::{Code, Method};
use crate::items::{contents_at, text_index_at, u16_at};
use crate::member::{MemberHead, MemberKind, member_at, text_at};
use crate::methods::Methods;
use crate::room::{IN_FILE, failed};
use crate::seen::Seen;
use crate::signature::Signature;
use crate::table::{Entries, table_at};
use pv_pool::Pool;
use pv_value::{Memory, Name};
use std::alloc::Global;

/// A field (JVMS 4.5).
#[tactic(auto, unfolding(crate::specs::ClassGrammar::field), using(pv_format::proofs::Cited::steps))]
fn field_at<'a>(alloc: Global, pool: &Pool, bytes: &'a [u8]) -> Result<&'a [u8], Stop>
    ensures { Gives (λ x. (tt, x.now)) result (read (field pool.now) bytes.now) }
{
    let (_member, rest) = member_at(alloc, MemberKind::Field, pool, bytes)?;
    let (_attributes, rest) = table_at(Entries::Attributes, pool, IN_FILE, rest)?;
    Ok(rest)
}

/// `count` fields.
#[tactic(auto, unfolding(pv_format::specs::Grammars::times), using(pv_format::proofs::Cited::steps))]
pub(crate) fn fields_at<'a>(
    alloc: Global,
    pool: &Pool,
    count: u16,
    bytes: &'a [u8],
) -> Result<&'a [u8], Stop>
    ensures { Gives (λ x. (tt, x.now)) result (read (times count (field pool.now)) bytes.now) }
{
    let mut rest = bytes;
    for _ in 0..count {
        rest = field_at(alloc, pool, rest)?;
    }
    Ok(rest)
}

/// Whether the text under an index is `Code`.
fn is_code(pool: &Pool, name: u16) -> bool
    ensures { result ≡ is_code pool.now name }
{
    text_at(pool, name) == b"Code".as_slice()
}

/// An attribute of a method, after which the method has this Code (JVMS 4.7.3).
#[tactic(auto, unfolding(crate::specs::ClassGrammar::attribute), using(pv_format::proofs::Cited::steps))]
fn attribute_at<'a>(
    alloc: Global,
    pool: &Pool,
    so_far: Option<Code>,
    bytes: &'a [u8],
) -> Result<(Option<Code>, &'a [u8]), Stop>
    ensures { Gives (λ x. (x.0, x.1.now)) result (read (attribute pool.now so_far) bytes.now) }
{
    let (name, rest) = text_index_at(pool, IN_FILE, bytes)?;
    if !is_code(pool, name) {
        let rest = contents_at(IN_FILE, rest)?;
        return Ok((so_far, rest));
    }
    if so_far.is_some() {
        return Err(failed(Cause::Code, bytes.len()));
    }
    let (code, rest) = code_at(alloc, pool, bytes.len(), rest)?;
    Ok((Some(code), rest))
}

/// `count` attributes of a method, with its Code if there is one.
#[tactic(auto, unfolding(crate::specs::ClassGrammar::attributes), using(pv_format::proofs::Cited::steps, crate::proofs::Loops::read_attributes))]
fn attributes_at<'a>(
    alloc: Global,
    pool: &Pool,
    count: u16,
    bytes: &'a [u8],
) -> Result<(Option<Code>, &'a [u8]), Stop>
    ensures { Gives (λ x. (x.0, x.1.now)) result (read (attributes pool.now count None) bytes.now) }
{
    let mut code = None;
    let mut rest = bytes;
    for _ in 0..count {
        (code, rest) = attribute_at(alloc, pool, code, rest)?;
    }
    Ok((code, rest))
}

/// The signature of a method.
fn signature_of(alloc: Global, pool: &Pool, member: MemberHead) -> Result<Signature, Memory>
    ensures { IfOk result (λ s. s ≡ signature_of pool.now member) }
{
    Ok(Signature {
        name: Name::new(alloc, text_at(pool, member.name))?,
        desc: Name::new(alloc, text_at(pool, member.desc))?,
    })
}

/// A method of these parts.
fn method_of(
    alloc: Global,
    pool: &Pool,
    member: MemberHead,
    code: Option<Code>,
) -> Result<Method, Memory>
    ensures { IfOk result (λ m. m ≡ method_of pool.now member code) }
{
    Ok(Method {
        flags: member.flags,
        name: Name::new(alloc, text_at(pool, member.name))?,
        desc: Name::new(alloc, text_at(pool, member.desc))?,
        code,
    })
}

/// A method after others (JVMS 4.6), whose signature is added to theirs.
#[tactic(auto, unfolding(crate::specs::ClassGrammar::method), using(pv_format::proofs::Cited::steps))]
fn method_at<'a>(
    alloc: Global,
    pool: &Pool,
    seen: &mut Seen,
    bytes: &'a [u8],
) -> Result<(Method, &'a [u8]), Stop>
    ensures read { Gives (λ x. (x.0, x.1.now)) result (read (method pool.now seen.old) bytes.now) }
    ensures seen { IfOk result (λ x. seen.new ≡ seen.old ++ signature x.0 ∷ []) }
{
    let (member, rest) = member_at(alloc, MemberKind::Method, pool, bytes)?;
    let signature = signature_of(alloc, pool, member)?;
    if !seen.put(signature)? {
        return Err(failed(Cause::Duplicate, bytes.len()));
    }
    let (count, rest) = u16_at(IN_FILE, rest)?;
    let (code, rest) = attributes_at(alloc, pool, count, rest)?;
    Ok((method_of(alloc, pool, member, code)?, rest))
}

/// `count` methods, no two of which have the same signature.
#[tactic(auto, unfolding(crate::specs::ClassGrammar::methods), using(pv_format::proofs::Cited::steps, crate::proofs::Loops::read_methods, crate::proofs::Loops::signatures_more))]
pub(crate) fn methods_at<'a>(
    alloc: Global,
    pool: &Pool,
    count: u16,
    bytes: &'a [u8],
) -> Result<(Methods, &'a [u8]), Stop>
    ensures { Gives (λ x. (x.0, x.1.now)) result (read (methods pool.now count []) bytes.now) }
{
    let mut seen = Seen::new(alloc);
    let mut methods = Vec::new(alloc);
    let mut rest = bytes;
    for _ in 0..count {
        let (method, after) = method_at(alloc, pool, &mut seen, rest)?;
        methods.push(method)?;
        rest = after;
    }
    Ok((Methods::of(methods, seen), rest))
}
