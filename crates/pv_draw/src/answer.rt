//! What is said of two files.

ghost use Rattle.std.specs.Prelude.{◌≡◌, IfOk};
ghost use Rattle.pv_report.specs.Judging.{IsReadPair};
ghost use Rattle.pv_report.specs.Lines.{line_text, method_line, verdict_words};
ghost use Rattle.pv_draw.specs.Drawn.{drawing};
ghost use Rattle.pv_draw.specs.Reading.{DrawsFetched, IsLeastFor};

use crate::request::Form;
use pv_alike::Least;
use pv_drawings::{write_dot, write_listing};
use pv_report::{
    Answer, Fetched, Pair, Status, Verdict, bad_class, least_roots, partner_of, push_method,
    push_verdict, read_pair,
};
use pv_value::{Memory, Name};
use std::alloc::{AllocError, Global};

/// The name and the descriptor of a method.
#[derive(Debug, Drop)]
pub struct Signature {
    pub name: Name,
    pub desc: Name,
}

/// What is said of the method of the first file with this name and descriptor, and of its partner in the second: the least graph of
/// their roots in this form; or a line on why there is none, or on the first of the two files that is no class file. The limit of the
/// fetches is `LONGEST_FILE`. Out of memory is the one error.
pub fn draw(
    alloc: Global,
    form: Form,
    signature: &Signature,
    first: &Fetched,
    second: &Fetched,
) -> Result<Answer, Memory>
    ensures { IfOk result (λ answer. DrawsFetched form signature.now first.now second.now answer.text.items answer.status) }
{
    let pair = match read_pair(alloc, first, second)? {
        Ok(pair) => pair,
        Err(bad) => return Ok(bad_class(alloc, bad)?),
    };
    match least_for(alloc, &pair, signature)? {
        Ok(least) => Ok(Answer {
            text: drawing(alloc, form, &least)?,
            status: Status::AllEquivalent,
        }),
        Err(verdict) => Ok(Answer {
            text: line(alloc, signature, verdict)?,
            status: Status::Others,
        }),
    }
}

// The least graph of the roots of the method with this name and descriptor and its partner, or why there is none.
fn least_for(
    alloc: Global,
    pair: &Pair,
    signature: &Signature,
) -> Result<Result<Least, Verdict>, Memory>
    requires { IsReadPair pair.now }
    ensures { IfOk result (λ found. IsLeastFor pair.now.first pair.now.second signature.now found) }
{
    let methods = &pair.first.methods;
    let Some(method) = methods.place_of(&signature.name, &signature.desc)? else {
        return Ok(Err(Verdict::Missing));
    };
    match partner_of(&methods.as_slice()[method], &pair.second.methods)? {
        None => Ok(Err(Verdict::Missing)),
        Some(partner) => least_roots(alloc, &pair.first, method, &pair.second, partner),
    }
}

// A graph in a form.
fn drawing(alloc: Global, form: Form, least: &Least) -> Result<Vec<u8>, Memory>
    ensures { IfOk result (λ text. text.items ≡ drawing form least.now) }
{
    match form {
        Form::Listing => write_listing(alloc, least.graph(), least.first(), least.second()),
        Form::Dot => write_dot(alloc, least.graph(), least.first(), least.second()),
    }
}

// The line that says why there is no graph.
fn line(alloc: Global, signature: &Signature, verdict: Verdict) -> Result<Vec<u8>, AllocError>
    ensures { IfOk result (λ text. text.items ≡ line_text (method_line signature.now.name signature.now.desc (verdict_words verdict))) }
{
    let mut text = Vec::new(alloc);
    push_method(alloc, &mut text, &signature.name, &signature.desc)?;
    push_verdict(&mut text, verdict)?;
    text.extend_from_slice(b"\n")?;
    Ok(text)
}
