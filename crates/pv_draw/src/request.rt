//! The words of the command line.

ghost use Rattle.std.specs.Prelude.{◌≡◌, IfOk, option_map};
ghost use Rattle.pv_words.specs.Answers.{texts};
ghost use Rattle.pv_draw.specs.Requests.{form_by};
ghost use Rattle.pv_draw.specs.Reading.{AreGiven, IsSignatureOf};

use crate::answer::Signature;
use pv_token::read_shown;
use pv_value::{Memory, Name};
use pv_words::{Shape, read_words};
use std::alloc::Global;

/// How a graph is written.
#[derive(Clone, Copy, Debug, PartialEq, Eq)]
pub enum Form {
    /// As a listing: a line for each node.
    Listing,
    /// As Graphviz text.
    Dot,
}

/// What the words give: the form, the names of two files, and the name and the descriptor of a method as they are shown.
#[derive(Clone, Copy, Debug)]
pub(crate) struct Given<'a> {
    pub(crate) form: Form,
    pub(crate) first: &'a str,
    pub(crate) second: &'a str,
    pub(crate) name: &'a str,
    pub(crate) desc: &'a str,
}

/// What the words give, None where they give nothing. Out of memory is the one error.
pub(crate) fn given_by<'a>(alloc: Global, words: &'a [&'a str]) -> Result<Option<Given<'a>>, Memory>
    ensures { IfOk result (λ given. AreGiven (texts words.now) given) }
{
    let shape = Shape {
        flags: &["dot"],
        options: &[],
        arguments: 4,
    };
    let Some(given) = read_words(alloc, &shape, words)? else {
        return Ok(None);
    };
    let ([dot], [first, second, name, desc]) = (given.flags.as_slice(), given.arguments.as_slice())
    else {
        unreachable!();
    };
    Ok(Some(Given {
        form: form_by(*dot),
        first: *first,
        second: *second,
        name: *name,
        desc: *desc,
    }))
}

// The form, by whether the flag is given.
fn form_by(dot: bool) -> Form
    ensures { result ≡ form_by dot }
{
    if dot { Form::Dot } else { Form::Listing }
}

/// The name and the descriptor that two words show, None where one of them shows nothing. Out of memory is the one error.
pub(crate) fn signature_of(
    alloc: Global,
    name: &str,
    desc: &str,
) -> Result<Option<Signature>, Memory>
    ensures { IfOk result (λ signature. IsSignatureOf name.now desc.now signature) }
{
    let Some(name) = read_shown(alloc, name.as_bytes())? else {
        return Ok(None);
    };
    let Some(desc) = read_shown(alloc, desc.as_bytes())? else {
        return Ok(None);
    };
    Ok(Some(Signature {
        name: Name::new(alloc, &name)?,
        desc: Name::new(alloc, &desc)?,
    }))
}
