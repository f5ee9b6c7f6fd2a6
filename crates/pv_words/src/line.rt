//! The command line of a program.

ghost use Rattle.std.specs.Prelude.{◌≡◌, IfOk};
ghost use Rattle.pv_words.specs.Answers.{texts};
ghost use Rattle.pv_words.specs.CommandLine.{after_name, bytes_of};

use std::alloc::{AllocError, Global};
use std::rt::Env;
use std::{env, io};

/// The words of the command line, the program's name first. A word that isn't UTF-8 is an error of the kind `InvalidData`.
pub fn command_line<R: Env + AllocGlobal>(rt: &R) -> io::Result<Vec<String>> {
    let mut words = Vec::new(rt.alloc());
    for word in env::args(rt)? {
        words.push(word)?;
    }
    Ok(words)
}

// The same words, borrowed.
fn strs<'a>(alloc: Global, words: &'a [String]) -> Result<Vec<&'a str>, AllocError>
    ensures { IfOk result (λ strs. texts strs.items ≡ bytes_of words.now) }
{
    let mut strs = Vec::new(alloc);
    for word in words {
        strs.push(word.as_str()).map_err(|_| AllocError)?;
    }
    Ok(strs)
}

/// The words after the program's name.
pub fn command_words<'a>(alloc: Global, words: &'a [String]) -> Result<Vec<&'a str>, AllocError>
    ensures { IfOk result (λ rest. texts rest.items ≡ after_name words.now) }
{
    match words {
        [_, rest @ ..] => strs(alloc, rest),
        [] => Ok(Vec::new(alloc)),
    }
}
