//! The command of clap that has the flags and options of a shape.

ghost use Rattle.std.specs.Prelude.{◌≡◌, IfOk, [], false};
ghost use Rattle.clap.specs.Words.{app_of, rule_of};
ghost use Rattle.clap.specs.declared.builder.arg.Arg.{Arg};
ghost use Rattle.pv_words.specs.Answers.{texts};
ghost use Rattle.pv_words.specs.Matches.{app_with, flag_rule, option_rule};

use clap::{Arg, ArgAction, Command};
use std::alloc::{AllocError, Global};

/// The id of the arguments, which is no name of a flag or an option.
pub(crate) const ARGUMENTS: &str = "";

// A flag.
fn flag<'a>(alloc: Global, name: &'a str) -> Arg<'a>
    ensures local { result.global ≡ false }
    ensures rule { rule_of result ≡ flag_rule name.entry.now }
{
    Arg::new(alloc, name).long(name).action(ArgAction::SetTrue)
}

// An option.
fn option<'a>(alloc: Global, name: &'a str) -> Arg<'a>
    ensures local { result.global ≡ false }
    ensures rule { rule_of result ≡ option_rule name.entry.now }
{
    Arg::new(alloc, name).long(name).action(ArgAction::Set)
}

// The command with these flags and any number of arguments.
fn with_flags<'a>(alloc: Global, flags: &[&'a str]) -> Result<Command<'a>, AllocError>
    ensures { IfOk result (λ command. app_of command ≡ app_with (texts flags.now) []) }
{
    let arguments = Arg::new(alloc, ARGUMENTS).action(ArgAction::Append);
    let mut command = Command::new(alloc, "")
        .no_binary_name(true)
        .disable_help_flag(true)
        .disable_version_flag(true)
        .arg(arguments)?;
    for name in flags {
        command = command.arg(flag(alloc, *name))?;
    }
    Ok(command)
}

/// The command with these flags and options, and any number of arguments.
pub(crate) fn clap_command<'a>(
    alloc: Global,
    flags: &[&'a str],
    options: &[&'a str],
) -> Result<Command<'a>, AllocError>
    ensures { IfOk result (λ command. app_of command ≡ app_with (texts flags.now) (texts options.now)) }
{
    let mut command = with_flags(alloc, flags)?;
    for name in options {
        command = command.arg(option(alloc, *name))?;
    }
    Ok(command)
}
