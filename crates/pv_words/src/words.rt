//! The words of a command.

ghost use Rattle.std.specs.Prelude.{◌≡◌, IfOk, map, option_map};
ghost use Rattle.clap.specs.Words.{first_value, found_of};
ghost use Rattle.pv_words.specs.Words.{AreNames};
ghost use Rattle.pv_words.specs.Answers.{Reads, command_of, texts};
ghost use Rattle.pv_words.specs.Matches.{AreArguments, flag_values, option_values};

use crate::command::{ARGUMENTS, clap_command};
use crate::texts::{are_file_names, are_values, law_texts};
use clap::ArgMatches;
use clap::error::ErrorKind;
use pv_list::Listed;
use pv_value::Memory;
use std::alloc::{AllocError, Global};

/// What a command takes: the names of its flags and of its options, which aren't empty and have no `=`, and how many
/// arguments it has. No flag has the name of an option.
#[derive(Clone, Copy, Debug)]
pub struct Shape<'a> {
    pub flags: &'a [&'a str],
    pub options: &'a [&'a str],
    pub arguments: usize,
}

/// What words give a command: whether each flag is given and the value of each option, in the order of its shape, and the
/// arguments.
#[derive(Debug, Drop)]
pub struct Words<'a> {
    pub flags: Listed<bool>,
    pub options: Listed<Option<&'a str>>,
    pub arguments: Listed<&'a str>,
}

// Whether each flag is given, by the matches. (What `get_flag` says of a text other than `true` and `false` no clause pins.)
fn flag_values(
    alloc: Global,
    flags: &[&str],
    matches: &ArgMatches<'_>,
) -> Result<Vec<bool>, AllocError>
    ensures { IfOk result (λ values. values.items ≡ flag_values (texts flags.now) (found_of matches.now)) }
{
    let mut values = Vec::new(alloc);
    for name in flags {
        values.push(matches.get_str(*name) == Some("true"))?;
    }
    Ok(values)
}

// The value of each option in the matches.
fn option_values<'a>(
    alloc: Global,
    options: &[&'a str],
    matches: &ArgMatches<'a>,
) -> Result<Vec<Option<&'a str>>, AllocError>
    ensures { IfOk result (λ values. map (option_map (λ s. s.now)) values.items
        ≡ option_values (texts options.now) (found_of matches.now)) }
{
    let mut values = Vec::new(alloc);
    for name in options {
        values.push(matches.get_str(*name))?;
    }
    Ok(values)
}

// The arguments in the matches.
fn arguments<'a>(alloc: Global, matches: &ArgMatches<'a>) -> Result<Vec<&'a str>, AllocError>
    ensures { IfOk result (λ arguments. AreArguments (found_of matches.now) (texts arguments.items)) }
{
    let mut arguments = Vec::new(alloc);
    if let Some(texts) = matches.get_strs(ARGUMENTS) {
        arguments.extend_from_slice(texts)?;
    }
    Ok(arguments)
}

/// The flags, options and arguments that the words of a command give, None where they give none. Out of memory is the one error.
pub fn read_words<'a>(
    alloc: Global,
    shape: &Shape<'a>,
    words: &'a [&'a str],
) -> Result<Option<Words<'a>>, Memory>
    requires names { AreNames (command_of shape.now) }
    ensures { IfOk result (Reads (command_of shape.now) (texts words.now)) }
{
    // clap finds a character after each `-`, because words are UTF-8.
    law_texts(words);
    let command = clap_command(alloc, shape.flags, shape.options)?;
    match command.try_get_matches_from(words) {
        Err(error) => match error.kind() {
            ErrorKind::OutOfMemory => Err(Memory),
            _ => Ok(None),
        },
        Ok(matches) => {
            let flags = flag_values(alloc, shape.flags, &matches)?;
            let options = option_values(alloc, shape.options, &matches)?;
            let arguments = arguments(alloc, &matches)?;
            if arguments.len() == shape.arguments
                && are_values(&options)
                && are_file_names(&arguments)
            {
                Ok(Some(Words {
                    flags: Listed::from(flags),
                    options: Listed::from(options),
                    arguments: Listed::from(arguments),
                }))
            } else {
                Ok(None)
            }
        }
    }
}
