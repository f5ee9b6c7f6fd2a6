//! The top call.

ghost use Rattle.std.specs.Prelude.{◌≡◌, ◌≤◌, ◌∷◌, ◌++◌, [], IfOk, IfErr, OnOk, OnErr, List, ℕ, Option, Some, None, length};
ghost use Rattle.std.specs.List.{AllZip};
ghost use Rattle.pv_base.specs.Outside.{Rose};
ghost use Rattle.pv_base.specs.Stored.{AreBytes};
ghost use Rattle.pv_base.specs.declared.outside.Asked.TheVariants.{Fetch, Place};
ghost use Rattle.pv_words.specs.Answers.{texts};
ghost use Rattle.pv_report.specs.Judging.{JudgesFetched};
ghost use Rattle.pv_report.specs.Options.{in_least, options_of};
ghost use Rattle.pv_links.specs.Reading.{ComposesFetched};
ghost use Rattle.pv_migrate.specs.Reading.{SaysFetched};
ghost use Rattle.pv_maker.specs.declared.class.TheConstants.{MOST_MADE};
ghost use Rattle.pv_report.specs.declared.verdict.Detail.TheVariants as Detail;
ghost use Rattle.pv_top.specs.Words.{IsCommand, fetches, first_of, names_of, second_of};
ghost use Rattle.pv_top.specs.Commands.{CanMake, named};
ghost use Rattle.pv_top.specs.Run.{Answered, CallsFor, Leaves, Says};
ghost use Rattle.pv_top.specs.Promise.{EachEquivalent};
ghost use Rattle.pv_top.specs.Fetching.{AnswersFetched, Asks, AsksAll, ChangesAt, ComposesIn, Gives, HoldAll, HoldsFetched, HoldsWanted, PlaceFailed, PlacesEach, PlacesFetched, PlacesIn, ReadFailed, ShowsIn, IsMadeAnswer, MakesIn, MigratesIn, contents_of, named_as, placed_of, wanted_names};
ghost use Rattle.pv_top.specs.declared.words.Command as commands;

use crate::words::{Command, Mode, order_of};
use pv_base::{FileFault, Files, Gate, Sink};
use pv_class::LONGEST_FILE;
use pv_differences::{RunLimits, refute_all};
use pv_links::{Composition, LONGEST_CHAIN, check_chain, compose};
use pv_maker::generate;
use pv_migrate::{Migration, migrate};
use pv_pieces::Workers;
use pv_report::{Answer, Detail, Fetched, Graphs, Limits, Status, judge};
use pv_sections::{LONGEST_CERT, Shown, rule, show};
use pv_token::push_decimal;
use pv_value::Memory;
use std::alloc::{AllocError, Global};
use std::thread::Threads;

/// The file with a name, of at most so many bytes.
#[derive(Debug, Drop)]
pub(crate) struct Wanted<'a> {
    name: &'a str,
    limit: usize,
}

/// What a command answers: what it places, under which names, and what it says after that.
#[derive(Drop)]
pub(crate) struct Reply<'a> {
    placed: Vec<Placed<'a>>,
    answer: Answer,
}

/// Bytes, and the name under which they are placed.
#[derive(Drop)]
pub(crate) struct Placed<'a> {
    name: &'a str,
    bytes: Vec<u8>,
}

/// Does what the words of a command line say, and answers how that went.
///
/// `words` are the words after the program's name. `validate [--axioms core|all] [--rounds N] [--budget N] [--workers N] [--cert FILE | --counted] A B`
/// fetches the class files A and B and says, in a line for each method of A, whether a search shows that its partner in B has the same
/// meaning; with `--cert` it places under FILE, before that, the certificate of what is equivalent; with `--counted` it also searches
/// in the graphs from which the tokens that end because of counted loops are cleared.
/// `check [--workers N] A B CERT` fetches a certificate too, and says, in a line for each of its sections, whether
/// the steps of the section show this of the two methods that it names. `compose A B C CERT1 CERT2 OUT` places under OUT the chain of a certificate
/// for A and B and one for B and C, and `check-chain [--workers N] A C CHAIN` says, in a line for each section of the first that has one of the same method
/// in the second, whether the two show this of the methods of A and C. `migrate CERT OUT` places under OUT the certificate of version 2 that has the
/// digests and the sections of CERT, a certificate of version 1. `refute [--tries N] [--steps N] A B` says, in a line for each
/// method of A, whether runs of it and its partner end with different outcomes. `make SEED COUNT A B` places under A the class of COUNT random methods
/// that the draws from SEED give, and under B that of their twins. Pairs of methods, the places of axioms and the
/// steps of a section are cut into as many pieces as there are workers, which run at once, and each piece passes the gate before each of
/// its items. Neither the workers nor the gate change what is said.
pub fn run<R: Threads + Sync, F: Files, K: Sink, G: Gate>(
    rt: &R,
    alloc: Global,
    words: &[&str],
    files: &mut F,
    out: &mut K,
    gate: &G,
) -> Status
    // Whatever else happened, each whole line `.. equivalent` that the sink took is true.
    ensures equivalent { (c : commands.Command (List ℕ)) → IsCommand (texts words.now) (Some c) → EachEquivalent (F.held files.old) (first_of c) (second_of c) (K.sent out.old) (K.sent out.new) }

    // What is said, and with which status.
    ensures answered { (c : Option (commands.Command (List ℕ))) → IsCommand (texts words.now) c → Answered (F.held files.old) c (K.sent out.old) (K.sent out.new) (Rose (F.failures files.old) (F.failures files.new)) (Rose (K.failures out.old) (K.failures out.new)) result }

    // What is asked of the files, and what they hold afterwards.
    ensures asked { (c : Option (commands.Command (List ℕ))) → IsCommand (texts words.now) c → CallsFor (F.held files.old) c (F.asked files.old) (F.asked files.new) (Rose (K.failures out.old) (K.failures out.new)) result }
    ensures held { (c : Option (commands.Command (List ℕ))) → IsCommand (texts words.now) c → Leaves c (F.held files.old) (F.held files.new) (Rose (F.failures files.old) (F.failures files.new)) (Rose (K.failures out.old) (K.failures out.new)) result }
{
    match order_of(alloc, words) {
        Ok(Some(order)) => {
            let workers = Workers::new(rt, gate, (order.workers as usize).max(1));
            execute(&workers, alloc, order.command, files, out)
        }
        Ok(None) => say(out, b"bad words\n", Status::BadWords),
        Err(_) => Status::Memory,
    }
}

// Fetches the files of a command, and gives its reply to them.
fn execute<R: Threads + Sync, F: Files, K: Sink, G: Gate>(
    workers: &Workers<R, G>,
    alloc: Global,
    command: Command<&str>,
    files: &mut F,
    out: &mut K,
) -> Status
    requires count { CanMake (named command) }
    ensures answered { Answered (F.held files.old) (Some (named command.entry)) (K.sent out.old) (K.sent out.new) (Rose (F.failures files.old) (F.failures files.new)) (Rose (K.failures out.old) (K.failures out.new)) result }
    ensures asked { CallsFor (F.held files.old) (Some (named command.entry)) (F.asked files.old) (F.asked files.new) (Rose (K.failures out.old) (K.failures out.new)) result }
    ensures held { Leaves (Some (named command.entry)) (F.held files.old) (F.held files.new) (Rose (F.failures files.old) (F.failures files.new)) (Rose (K.failures out.old) (K.failures out.new)) result }
{
    let fetched = match fetch_files(alloc, command, files) {
        Ok(fetched) => fetched,
        Err(status) => return status,
    };
    match reply_to(workers, alloc, command, &fetched) {
        Ok(reply) => give(alloc, &reply, files, out),
        Err(_) => Status::Memory,
    }
}

// The reply of a command to the files that were fetched for it.
fn reply_to<'a, R: Threads + Sync, G: Gate>(
    workers: &Workers<R, G>,
    alloc: Global,
    command: Command<&'a str>,
    fetched: &[Fetched],
) -> Result<Reply<'a>, Memory>
    requires count { CanMake (named command) }
    requires fetched { length fetched.now ≡ length (fetches (named command)) }
    ensures answer { IfOk result (λ reply. AnswersFetched (named command.entry) fetched.now reply.answer.text.items reply.answer.status) }
    ensures placed { IfOk result (λ reply. PlacesFetched (named command.entry) fetched.now reply.answer.status (contents_of reply.placed.items)) }
{
    match command {
        Command::Validate {
            axioms,
            rounds,
            budget,
            mode,
            ..
        } => {
            let [first, second] = fetched else {
                unreachable!();
            };
            let limits = Limits {
                axioms,
                rounds,
                budget,
            };
            match mode {
                Mode::Plain => judge_in(workers, alloc, limits, Graphs::Least, first, second),
                Mode::Counted => judge_in(
                    workers,
                    alloc,
                    limits,
                    Graphs::LeastOrCleared,
                    first,
                    second,
                ),
                Mode::Cert(name) => show_in(workers, alloc, limits, name, first, second),
            }
        }
        Command::Check { .. } => {
            let [first, second, cert] = fetched else {
                unreachable!();
            };
            let answer = rule(workers, alloc, first, second, cert)?;
            Ok(said(alloc, answer))
        }
        Command::Compose { out, .. } => {
            let [first, second, third, one, two] = fetched else {
                unreachable!();
            };
            compose_in(alloc, out, first, second, third, one, two)
        }
        Command::CheckChain { .. } => {
            let [first, last, chain] = fetched else {
                unreachable!();
            };
            let answer = check_chain(workers, alloc, first, last, chain)?;
            Ok(said(alloc, answer))
        }
        Command::Migrate { out, .. } => {
            let [old] = fetched else {
                unreachable!();
            };
            migrate_in(alloc, out, old)
        }
        Command::Refute { tries, steps, .. } => {
            let [first, second] = fetched else {
                unreachable!();
            };
            let limits = RunLimits { tries, steps };
            let answer = refute_all(alloc, limits, first, second)?;
            Ok(said(alloc, answer))
        }
        Command::Make {
            seed,
            count,
            first,
            second,
        } => make_in(alloc, seed, count, first, second),
    }
}

// A reply that places nothing.
fn said<'a>(alloc: Global, answer: Answer) -> Reply<'a>
    ensures answer { result.answer ≡ answer }
    ensures placed { result.placed.items ≡ [] }
{
    Reply {
        placed: Vec::new(alloc),
        answer,
    }
}

// What is said of two class files by searches in these graphs.
fn judge_in<'a, R: Threads + Sync, G: Gate>(
    workers: &Workers<R, G>,
    alloc: Global,
    limits: Limits,
    graphs: Graphs,
    first: &Fetched,
    second: &Fetched,
) -> Result<Reply<'a>, Memory>
    ensures answer { IfOk result (λ reply. JudgesFetched (options_of limits (Detail.Verdict graphs)) first.now second.now reply.answer.text.items reply.answer.status) }
    ensures placed { IfOk result (λ reply. reply.placed.items ≡ []) }
{
    let report = judge(
        workers,
        alloc,
        limits,
        Detail::Verdict(graphs),
        first,
        second,
    )?;
    Ok(said(alloc, report.answer))
}

// What is said of two class files, with the certificate that shows it under a name.
fn show_in<'a, R: Threads + Sync, G: Gate>(
    workers: &Workers<R, G>,
    alloc: Global,
    limits: Limits,
    name: &'a str,
    first: &Fetched,
    second: &Fetched,
) -> Result<Reply<'a>, Memory>
    ensures answer { IfOk result (λ reply. JudgesFetched (in_least limits) first.now second.now reply.answer.text.items reply.answer.status) }
    ensures placed { IfOk result (λ reply. ShowsIn limits name.entry.now first.now second.now reply.answer.status (contents_of reply.placed.items)) }
{
    let Shown {
        answer,
        certificate,
    } = show(workers, alloc, limits, first, second)?;
    Ok(Reply {
        placed: placed_as(alloc, name, certificate)?,
        answer,
    })
}

// What is said of three class files and of two certificates between them, with the chain that they make under a name.
fn compose_in<'a>(
    alloc: Global,
    name: &'a str,
    first: &Fetched,
    second: &Fetched,
    third: &Fetched,
    one: &Fetched,
    two: &Fetched,
) -> Result<Reply<'a>, Memory>
    ensures answer { IfOk result (λ reply. ComposesFetched first.now second.now third.now one.now two.now reply.answer.text.items reply.answer.status) }
    ensures placed { IfOk result (λ reply. ComposesIn name.entry.now first.now second.now third.now one.now two.now reply.answer.status (contents_of reply.placed.items)) }
{
    let Composition { answer, chain } = compose(alloc, first, second, third, one, two)?;
    Ok(Reply {
        placed: placed_as(alloc, name, chain)?,
        answer,
    })
}

// What is said of a certificate of version 1, with the one of version 2 that it is under a name.
fn migrate_in<'a>(alloc: Global, name: &'a str, cert: &Fetched) -> Result<Reply<'a>, Memory>
    ensures answer { IfOk result (λ reply. SaysFetched cert.now reply.answer.text.items reply.answer.status) }
    ensures placed { IfOk result (λ reply. MigratesIn name.entry.now cert.now reply.answer.status (contents_of reply.placed.items)) }
{
    let Migration {
        answer,
        certificate,
    } = migrate(alloc, cert)?;
    Ok(Reply {
        placed: placed_as(alloc, name, certificate)?,
        answer,
    })
}

// A certificate or a chain, if any, under its name.
fn placed_as<'a>(
    alloc: Global,
    name: &'a str,
    certificate: Option<Vec<u8>>,
) -> Result<Vec<Placed<'a>>, AllocError>
    ensures { IfOk result (λ placed. contents_of placed.items ≡ named_as name.entry.now certificate) }
{
    let mut placed = Vec::new(alloc);
    if let Some(bytes) = certificate {
        placed.push(Placed { name, bytes })?;
    }
    Ok(placed)
}

// The class of random methods and that of their twins under two names, and what is said of them.
fn make_in<'a>(
    alloc: Global,
    seed: u64,
    count: u32,
    first: &'a str,
    second: &'a str,
) -> Result<Reply<'a>, Memory>
    requires { count ≤ MOST_MADE }
    ensures answer { IfOk result (λ reply. IsMadeAnswer count reply.answer) }
    ensures placed { IfOk result (λ reply. MakesIn seed count first.entry.now second.entry.now (contents_of reply.placed.items)) }
{
    let plain = generate(alloc, seed, count, false)?;
    let twin = generate(alloc, seed, count, true)?;
    let placed = both(
        alloc,
        Placed {
            name: first,
            bytes: plain,
        },
        Placed {
            name: second,
            bytes: twin,
        },
    )?;
    let answer = made(alloc, count)?;
    Ok(Reply { placed, answer })
}

// One after the other.
fn both<'a>(
    alloc: Global,
    first: Placed<'a>,
    second: Placed<'a>,
) -> Result<Vec<Placed<'a>>, AllocError>
    ensures { IfOk result (λ placed. contents_of placed.items ≡ placed_of first.entry ∷ placed_of second.entry ∷ []) }
{
    let mut placed = Vec::new(alloc);
    placed.push(first)?;
    placed.push(second)?;
    Ok(placed)
}

// What is said where two classes were made. Out of memory is the one error.
fn made(alloc: Global, count: u32) -> Result<Answer, AllocError>
    ensures { IfOk result (λ answer. IsMadeAnswer count answer) }
{
    let mut text = Vec::from_slice(alloc, b"made ")?;
    push_decimal(&mut text, count as usize)?;
    text.extend_from_slice(b" methods\n")?;
    Ok(Answer {
        text,
        status: Status::AllEquivalent,
    })
}

// Places what a reply has to place, and says what it says.
fn give<F: Files, K: Sink>(alloc: Global, reply: &Reply, files: &mut F, out: &mut K) -> Status
    ensures given { Gives (F.held files.old) (F.held files.new) (F.asked files.old) (F.asked files.new) (contents_of reply.now.placed.items) (K.sent out.old) (K.sent out.new) reply.now.answer.text.items reply.now.answer.status result (Rose (F.failures files.old) (F.failures files.new)) (Rose (K.failures out.old) (K.failures out.new)) }
    ensures later { F.failures files.old ≤ F.failures files.new }
{
    match place_all(alloc, &reply.placed, files) {
        Ok(()) => say(out, &reply.answer.text, reply.answer.status),
        Err(status) => status,
    }
}

// Places bytes under their names, one after the other.
fn place_all<F: Files>(alloc: Global, all: &[Placed], files: &mut F) -> Result<(), Status>
    ensures placed { PlacesEach (F.held files.old) (F.held files.new) (F.asked files.old) (F.asked files.new) (contents_of all.now) result (Rose (F.failures files.old) (F.failures files.new)) }
    ensures later { F.failures files.old ≤ F.failures files.new }
{
    for placed in all {
        place(alloc, placed, files)?;
    }
    Ok(())
}

// Places bytes under their name.
fn place<F: Files>(alloc: Global, placed: &Placed, files: &mut F) -> Result<(), Status>
    ensures ok { OnOk result (PlacesIn (F.held files.old) (F.held files.new) (placed_of placed.now ∷ [])) }
    ensures err { OnErr result (ChangesAt (F.held files.old) (F.held files.new) placed.now.name.now) }
    ensures failure { IfErr result (λ status. PlaceFailed status (Rose (F.failures files.old) (F.failures files.new))) }
    ensures asked { Asks (F.asked files.old) (F.asked files.new) (Place placed.now.name.now) result }
    ensures later { F.failures files.old ≤ F.failures files.new }
{
    match files.place(alloc, placed.name, &placed.bytes) {
        Ok(()) => Ok(()),
        Err(FileFault::Memory) => Err(Status::Memory),
        Err(_) => Err(Status::WriteFault),
    }
}

// The files of a command, in its order.
fn fetch_files<F: Files>(
    alloc: Global,
    command: Command<&str>,
    files: &mut F,
) -> Result<Vec<Fetched>, Status>
    ensures content { IfOk result (λ fetched. HoldAll (F.held files.old) (fetches (named command.entry)) fetched.items) }
    ensures failure { IfErr result (λ status. ReadFailed status (Rose (F.failures files.old) (F.failures files.new))) }
    ensures asked { AsksAll (F.held files.old) (F.asked files.old) (F.asked files.new) (names_of (named command.entry)) result }
    ensures later { F.failures files.old ≤ F.failures files.new }
    ensures held { F.held files.new ≡ F.held files.old }
{
    match command {
        Command::Validate { first, second, .. } | Command::Refute { first, second, .. } => {
            let all = [
                Wanted {
                    name: first,
                    limit: LONGEST_FILE,
                },
                Wanted {
                    name: second,
                    limit: LONGEST_FILE,
                },
            ];
            fetch_all(alloc, &all, files)
        }
        Command::Check {
            first,
            second,
            cert,
        } => {
            let all = [
                Wanted {
                    name: first,
                    limit: LONGEST_FILE,
                },
                Wanted {
                    name: second,
                    limit: LONGEST_FILE,
                },
                Wanted {
                    name: cert,
                    limit: LONGEST_CERT,
                },
            ];
            fetch_all(alloc, &all, files)
        }
        Command::Compose {
            first,
            second,
            third,
            one,
            two,
            ..
        } => {
            let all = [
                Wanted {
                    name: first,
                    limit: LONGEST_FILE,
                },
                Wanted {
                    name: second,
                    limit: LONGEST_FILE,
                },
                Wanted {
                    name: third,
                    limit: LONGEST_FILE,
                },
                Wanted {
                    name: one,
                    limit: LONGEST_CERT,
                },
                Wanted {
                    name: two,
                    limit: LONGEST_CERT,
                },
            ];
            fetch_all(alloc, &all, files)
        }
        Command::Migrate { cert, .. } => {
            let all = [Wanted {
                name: cert,
                limit: LONGEST_CERT,
            }];
            fetch_all(alloc, &all, files)
        }
        Command::Make { .. } => fetch_all(alloc, &[], files),
        Command::CheckChain { first, last, chain } => {
            let all = [
                Wanted {
                    name: first,
                    limit: LONGEST_FILE,
                },
                Wanted {
                    name: last,
                    limit: LONGEST_FILE,
                },
                Wanted {
                    name: chain,
                    limit: LONGEST_CHAIN,
                },
            ];
            fetch_all(alloc, &all, files)
        }
    }
}

// What is under these names, each within its limit.
fn fetch_all<F: Files>(alloc: Global, all: &[Wanted], files: &mut F) -> Result<Vec<Fetched>, Status>
    ensures content { IfOk result (λ fetched. AllZip (HoldsWanted (F.held files.old)) all.now fetched.items) }
    ensures failure { IfErr result (λ status. ReadFailed status (Rose (F.failures files.old) (F.failures files.new))) }
    ensures asked { AsksAll (F.held files.old) (F.asked files.old) (F.asked files.new) (wanted_names all.now) result }
    ensures later { F.failures files.old ≤ F.failures files.new }
    ensures held { F.held files.new ≡ F.held files.old }
{
    let mut fetched = Vec::new(alloc);
    for wanted in all {
        let file = fetch(alloc, wanted, files)?;
        keep(&mut fetched, file)?;
    }
    Ok(fetched)
}

// Adds a file after the others.
fn keep(fetched: &mut Vec<Fetched>, file: Fetched) -> Result<(), Status>
    ensures items { OnOk result (fetched.new.items ≡ fetched.old.items ++ file ∷ []) }
    ensures memory { IfErr result (λ status. status ≡ Status.Memory) }
{
    match fetched.push(file) {
        Ok(()) => Ok(()),
        Err(_) => Err(Status::Memory),
    }
}

// What is under a name, within its limit of bytes.
fn fetch<F: Files>(alloc: Global, file: &Wanted, files: &mut F) -> Result<Fetched, Status>
    ensures content { IfOk result (λ fetched. HoldsFetched (F.held files.old) (file.now.name.now, file.now.limit) fetched) }
    ensures failure { IfErr result (λ status. ReadFailed status (Rose (F.failures files.old) (F.failures files.new))) }
    ensures later { F.failures files.old ≤ F.failures files.new }
    ensures asked { Asks (F.asked files.old) (F.asked files.new) (Fetch file.now.name.now) result }
    ensures held { F.held files.new ≡ F.held files.old }
{
    match files.fetch(alloc, file.name, file.limit) {
        Ok(bytes) => {
            law_bytes(&bytes);
            Ok(Fetched::Bytes(bytes))
        }
        Err(FileFault::TooLong) => Ok(Fetched::TooLong),
        Err(FileFault::Failed) => Err(Status::ReadFault),
        Err(FileFault::Memory) => Err(Status::Memory),
    }
}

// What a slice of bytes holds are bytes: a law, for its caller's proof.
fn law_bytes(bytes: &[u8])
    ensures { AreBytes bytes.now }
{
    let _count = bytes.len();
}

// Says a text, where there is one, and answers the status that goes with it.
fn say<K: Sink>(out: &mut K, text: &[u8], status: Status) -> Status
    ensures { Says (K.sent out.old) (K.sent out.new) text.now status result (Rose (K.failures out.old) (K.failures out.new)) }
{
    if text.is_empty() {
        return status;
    }
    match out.put(text) {
        Ok(()) => status,
        Err(_) => Status::WriteFault,
    }
}
