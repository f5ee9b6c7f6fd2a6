//! The words of the command line.

ghost use Rattle.std.specs.Prelude.{◌≡◌, IfOk, codes};
ghost use Rattle.pv_top.specs.Commands.{IsRead, IsReadAs, ReadsArguments, ReadsChecked, ReadsLimit, ReadsMode, ReadsSet, ordered};

use pv_list::Listed;
use pv_maker::MOST_MADE;
use pv_report::AxiomSet;
use pv_value::Memory;
use pv_words::{Shape, number_in, read_words, u64_in};
use std::alloc::Global;

/// The rounds that a search may make, where the words don't say.
pub const DEFAULT_ROUNDS: u32 = 6;

/// The most rounds that the words may allow. The least is 0.
pub const MOST_ROUNDS: u32 = 16;

/// The matches that a round may have, where the words don't say.
pub const DEFAULT_BUDGET: u32 = 200_000;

/// The most matches that the words may allow. The least is 1.
pub const MOST_BUDGET: u32 = 500_000;

/// The tries that are made of two methods, where the words don't say.
pub const DEFAULT_TRIES: u32 = 512;

/// The most tries that the words may ask for. The least is 1.
pub const MOST_TRIES: u32 = 100_000;

/// The most steps of a run, where the words don't say.
pub const DEFAULT_STEPS: u32 = 10_000;

/// The most steps that the words may allow. The least is 1.
pub const MOST_STEPS: u32 = 100_000;

/// The greatest seed. The least is 0.
pub const MOST_SEED: u64 = u64::MAX;

/// The workers of a command that has some, where the words don't say.
pub const DEFAULT_WORKERS: u32 = 4;

/// The most workers that the words may ask for. The least is 1.
pub const MOST_WORKERS: u32 = 16;

/// How two class files are compared.
#[derive(Clone, Copy, Debug)]
pub enum Mode<N> {
    /// By searches in least graphs alone.
    Plain,
    /// By searches in cleared graphs too, since loops that count up to a bound end.
    Counted,
    /// As `Plain`, and the certificate of what is equivalent is placed under this name.
    Cert(N),
}

/// A command, by the names of its files.
#[derive(Clone, Copy, Debug)]
pub enum Command<N> {
    /// Compare two class files, by searches with these axioms, of at most `rounds` rounds, each of at most `budget` matches.
    Validate {
        first: N,
        second: N,
        axioms: AxiomSet,
        rounds: u32,
        budget: u32,
        mode: Mode<N>,
    },
    /// Check a certificate for two class files.
    Check {
        first: N,
        second: N,
        cert: N,
    },
    /// Make a chain of two certificates, for the first and the second class file and for the second and the third, and place it.
    Compose {
        first: N,
        second: N,
        third: N,
        one: N,
        two: N,
        out: N,
    },
    /// Check a chain of two certificates for two class files.
    CheckChain {
        first: N,
        last: N,
        chain: N,
    },
    /// Make a certificate of version 1 one of version 2, and place it.
    Migrate {
        cert: N,
        out: N,
    },
    /// Run the methods of two class files, by `tries` tries of at most `steps` steps each.
    Refute {
        first: N,
        second: N,
        tries: u32,
        steps: u32,
    },
    /// Make the class of `count` random methods that the draws from a seed give, and that of their twins, and place both.
    Make {
        seed: u64,
        count: u32,
        first: N,
        second: N,
    },
}

/// A command, and by how many workers it goes, which changes nothing that it answers.
#[derive(Clone, Copy, Debug)]
pub(crate) struct Order<'a> {
    pub(crate) command: Command<&'a str>,
    pub(crate) workers: u32,
}

// The arguments of a command that checks, and by how many workers it goes.
#[derive(Drop)]
pub(crate) struct Checked<'a> {
    arguments: Listed<&'a str>,
    workers: u32,
}

// A command that one worker does.
fn alone<'a>(command: Option<Command<&'a str>>) -> Option<Order<'a>>
    ensures { ordered result ≡ command.entry }
{
    match command {
        Some(command) => Some(Order {
            command,
            workers: 1,
        }),
        None => None,
    }
}

/// The command that the words are, and its workers; None where they are no command. Out of memory is the one error.
pub(crate) fn order_of<'a>(alloc: Global, words: &'a [&'a str]) -> Result<Option<Order<'a>>, Memory>
    ensures { IfOk result (λ order. IsRead words.now (ordered order)) }
{
    let Some((name, rest)) = words.split_first() else {
        return Ok(None);
    };
    let name: &str = *name;
    if name == "validate" {
        validate_of(alloc, rest)
    } else if name == "check" {
        check_of(alloc, rest)
    } else if name == "compose" {
        Ok(alone(compose_of(alloc, rest)?))
    } else if name == "check-chain" {
        check_chain_of(alloc, rest)
    } else if name == "migrate" {
        Ok(alone(migrate_of(alloc, rest)?))
    } else if name == "refute" {
        Ok(alone(refute_of(alloc, rest)?))
    } else if name == "make" {
        Ok(alone(make_of(alloc, rest)?))
    } else {
        Ok(None)
    }
}

// The command `validate` with these words after its name.
fn validate_of<'a>(alloc: Global, words: &'a [&'a str]) -> Result<Option<Order<'a>>, Memory>
    ensures { IfOk result (λ order. IsReadAs (codes "validate") words.now (ordered order)) }
{
    let shape = Shape {
        flags: &["counted"],
        options: &["axioms", "rounds", "budget", "workers", "cert"],
        arguments: 2,
    };
    let Some(given) = read_words(alloc, &shape, words)? else {
        return Ok(None);
    };
    let ([counted], [axioms, rounds, budget, workers, cert], [first, second]) = (
        given.flags.as_slice(),
        given.options.as_slice(),
        given.arguments.as_slice(),
    ) else {
        unreachable!();
    };
    let Some(axioms) = set_of(*axioms) else {
        return Ok(None);
    };
    let Some(rounds) = limit(*rounds, 0, MOST_ROUNDS, DEFAULT_ROUNDS) else {
        return Ok(None);
    };
    let Some(budget) = limit(*budget, 1, MOST_BUDGET, DEFAULT_BUDGET) else {
        return Ok(None);
    };
    let Some(workers) = limit(*workers, 1, MOST_WORKERS, DEFAULT_WORKERS) else {
        return Ok(None);
    };
    let Some(mode) = mode_of(*counted, *cert) else {
        return Ok(None);
    };
    let command = Command::Validate {
        first: *first,
        second: *second,
        axioms,
        rounds,
        budget,
        mode,
    };
    Ok(Some(Order { command, workers }))
}

// The command `check` with these words after its name.
fn check_of<'a>(alloc: Global, words: &'a [&'a str]) -> Result<Option<Order<'a>>, Memory>
    ensures { IfOk result (λ order. IsReadAs (codes "check") words.now (ordered order)) }
{
    let Some(given) = checked_of(alloc, words)? else {
        return Ok(None);
    };
    let [first, second, cert] = given.arguments.as_slice() else {
        unreachable!();
    };
    let command = Command::Check {
        first: *first,
        second: *second,
        cert: *cert,
    };
    Ok(Some(Order {
        command,
        workers: given.workers,
    }))
}

// The command `compose` with these words after its name.
fn compose_of<'a>(alloc: Global, words: &'a [&'a str]) -> Result<Option<Command<&'a str>>, Memory>
    ensures { IfOk result (λ command. IsReadAs (codes "compose") words.now command) }
{
    let Some(given) = arguments_of(alloc, words, 6)? else {
        return Ok(None);
    };
    let [first, second, third, one, two, out] = given.as_slice() else {
        unreachable!();
    };
    Ok(Some(Command::Compose {
        first: *first,
        second: *second,
        third: *third,
        one: *one,
        two: *two,
        out: *out,
    }))
}

// The command `check-chain` with these words after its name.
fn check_chain_of<'a>(alloc: Global, words: &'a [&'a str]) -> Result<Option<Order<'a>>, Memory>
    ensures { IfOk result (λ order. IsReadAs (codes "check-chain") words.now (ordered order)) }
{
    let Some(given) = checked_of(alloc, words)? else {
        return Ok(None);
    };
    let [first, last, chain] = given.arguments.as_slice() else {
        unreachable!();
    };
    let command = Command::CheckChain {
        first: *first,
        last: *last,
        chain: *chain,
    };
    Ok(Some(Order {
        command,
        workers: given.workers,
    }))
}

// The command `migrate` with these words after its name.
fn migrate_of<'a>(alloc: Global, words: &'a [&'a str]) -> Result<Option<Command<&'a str>>, Memory>
    ensures { IfOk result (λ command. IsReadAs (codes "migrate") words.now command) }
{
    let Some(given) = arguments_of(alloc, words, 2)? else {
        return Ok(None);
    };
    let [cert, out] = given.as_slice() else {
        unreachable!();
    };
    Ok(Some(Command::Migrate {
        cert: *cert,
        out: *out,
    }))
}

// The arguments and the workers of a command that checks; None, where the words give it none.
fn checked_of<'a>(alloc: Global, words: &'a [&'a str]) -> Result<Option<Checked<'a>>, Memory>
    ensures { IfOk result (λ given. ReadsChecked words.now given) }
{
    let shape = Shape {
        flags: &[],
        options: &["workers"],
        arguments: 3,
    };
    let Some(given) = read_words(alloc, &shape, words)? else {
        return Ok(None);
    };
    let [workers] = given.options.as_slice() else {
        unreachable!();
    };
    let Some(workers) = limit(*workers, 1, MOST_WORKERS, DEFAULT_WORKERS) else {
        return Ok(None);
    };
    Ok(Some(Checked {
        arguments: given.arguments,
        workers,
    }))
}

// The command `refute` with these words after its name.
fn refute_of<'a>(alloc: Global, words: &'a [&'a str]) -> Result<Option<Command<&'a str>>, Memory>
    ensures { IfOk result (λ command. IsReadAs (codes "refute") words.now command) }
{
    let shape = Shape {
        flags: &[],
        options: &["tries", "steps"],
        arguments: 2,
    };
    let Some(given) = read_words(alloc, &shape, words)? else {
        return Ok(None);
    };
    let ([tries, steps], [first, second]) = (given.options.as_slice(), given.arguments.as_slice())
    else {
        unreachable!();
    };
    let Some(tries) = limit(*tries, 1, MOST_TRIES, DEFAULT_TRIES) else {
        return Ok(None);
    };
    let Some(steps) = limit(*steps, 1, MOST_STEPS, DEFAULT_STEPS) else {
        return Ok(None);
    };
    Ok(Some(Command::Refute {
        first: *first,
        second: *second,
        tries,
        steps,
    }))
}

// The command `make` with these words after its name.
fn make_of<'a>(alloc: Global, words: &'a [&'a str]) -> Result<Option<Command<&'a str>>, Memory>
    ensures { IfOk result (λ command. IsReadAs (codes "make") words.now command) }
{
    let Some(given) = arguments_of(alloc, words, 4)? else {
        return Ok(None);
    };
    let [seed, count, first, second] = given.as_slice() else {
        unreachable!();
    };
    let Some(seed) = u64_in(*seed) else {
        return Ok(None);
    };
    let Some(count) = number_in(*count, 1, MOST_MADE) else {
        return Ok(None);
    };
    Ok(Some(Command::Make {
        seed,
        count,
        first: *first,
        second: *second,
    }))
}

// The arguments of a command with `count` arguments and with neither flags nor options; None, where the words give it none.
fn arguments_of<'a>(
    alloc: Global,
    words: &'a [&'a str],
    count: usize,
) -> Result<Option<Listed<&'a str>>, Memory>
    ensures { IfOk result (λ arguments. ReadsArguments count words.now arguments) }
{
    let shape = Shape {
        flags: &[],
        options: &[],
        arguments: count,
    };
    match read_words(alloc, &shape, words)? {
        Some(given) => Ok(Some(given.arguments)),
        None => Ok(None),
    }
}

// The limit that an option gives: its number within its bounds, or the default; None, where its text is no such number.
fn limit(given: Option<&str>, least: u32, most: u32, default: u32) -> Option<u32>
    ensures { ReadsLimit least most default given.entry result }
{
    match given {
        Some(text) => number_in(text, least, most),
        None => Some(default),
    }
}

// The set of axioms that an option gives: that of its word, or the core; None, where its text is the word of none.
fn set_of(given: Option<&str>) -> Option<AxiomSet>
    ensures { ReadsSet given.entry result }
{
    let Some(word) = given else {
        return Some(AxiomSet::Core);
    };
    if word == "core" {
        Some(AxiomSet::Core)
    } else if word == "all" {
        Some(AxiomSet::All)
    } else {
        None
    }
}

// The mode by whether `--counted` is given, and by the value of `--cert`; None, where both are given.
fn mode_of<'a>(counted: bool, cert: Option<&'a str>) -> Option<Mode<&'a str>>
    ensures { ReadsMode counted cert.entry result }
{
    match (counted, cert) {
        (false, None) => Some(Mode::Plain),
        (true, None) => Some(Mode::Counted),
        (false, Some(name)) => Some(Mode::Cert(name)),
        (true, Some(_)) => None,
    }
}
