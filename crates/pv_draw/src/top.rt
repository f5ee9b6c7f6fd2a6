//! What the program does.

ghost use Rattle.std.specs.Prelude.{◌≡◌, ◌≤◌, IfErr, IfOk, Option, Some};
ghost use Rattle.pv_base.specs.Outside.{Rose};
ghost use Rattle.pv_base.specs.Stored.{AreBytes};
ghost use Rattle.pv_base.specs.declared.outside.Asked.TheVariants.{Fetch};
ghost use Rattle.pv_words.specs.Answers.{texts};
ghost use Rattle.pv_draw.specs.Requests.{IsRequest, Request};
ghost use Rattle.pv_draw.specs.Run.{Answered, CallsFor, IsAnswer, IsDrawnFor, Puts, bad_words};
ghost use Rattle.pv_draw.specs.Reading.{AsksFor, AsksOne, HoldsFetched, IsCause, IsCauseFor, request_of};

use crate::answer::{Signature, draw};
use crate::request::{Given, given_by, signature_of};
use pv_base::{FileFault, Files, Sink};
use pv_class::LONGEST_FILE;
use pv_report::{Answer, Fetched, Status};
use pv_value::Memory;
use std::alloc::{AllocError, Global};

/// Why nothing is said.
#[derive(Clone, Copy, Debug, PartialEq, Eq)]
pub(crate) enum Fault {
    /// A file was not fetched.
    Read,
    /// Memory ran out.
    Memory,
}

impl From<Memory> for Fault {
    ghost use Rattle.std.specs.Prelude.{◌≡◌};
    ghost use Rattle.pv_draw.specs.declared.top.Fault.TheVariants as fault;

    ghost from_gives = { λ _ e. e ≡ fault.Memory };

    fn from(_e: Memory) -> Fault {
        Fault::Memory
    }
}

impl From<AllocError> for Fault {
    ghost use Rattle.std.specs.Prelude.{◌≡◌};
    ghost use Rattle.pv_draw.specs.declared.top.Fault.TheVariants as fault;

    ghost from_gives = { λ _ e. e ≡ fault.Memory };

    fn from(_e: AllocError) -> Fault {
        Fault::Memory
    }
}

/// Does what the words of a command line ask for, and answers how that went.
///
/// `words` are the words after the program's name: `[--dot] A B NAME DESC`. It fetches the class files A and B, and says the least
/// graph of the roots of the method of A with this name and descriptor, which are given as a report shows them, and of its partner in B:
/// as a listing, or as Graphviz text. Where there is no such graph, it says why in one line.
pub fn run<F: Files, K: Sink>(alloc: Global, words: &[&str], files: &mut F, out: &mut K) -> Status
    ensures answered { (r : Option Request) → IsRequest (texts words.now) r → Answered (F.held files.old) r (K.sent out.old) (K.sent out.new) (Rose (F.failures files.old) (F.failures files.new)) (Rose (K.failures out.old) (K.failures out.new)) result }
    ensures asked { (r : Option Request) → IsRequest (texts words.now) r → CallsFor (F.held files.old) r (F.asked files.old) (F.asked files.new) result }
    ensures held { F.held files.new ≡ F.held files.old }
{
    match answer_to(alloc, words, files) {
        Ok(answer) => say(out, &answer),
        Err(Fault::Read) => Status::ReadFault,
        Err(Fault::Memory) => Status::Memory,
    }
}

// The answer to what the words ask for.
fn answer_to<F: Files>(alloc: Global, words: &[&str], files: &mut F) -> Result<Answer, Fault>
    ensures answer { IfOk result (λ answer. (r : Option Request) → IsRequest (texts words.now) r → IsAnswer (F.held files.old) r answer.text.items answer.status) }
    ensures cause { IfErr result (λ fault. (r : Option Request) → IsRequest (texts words.now) r → IsCauseFor r fault (Rose (F.failures files.old) (F.failures files.new))) }
    ensures asked { (r : Option Request) → IsRequest (texts words.now) r → AsksFor (F.held files.old) r (F.asked files.old) (F.asked files.new) result }
    ensures held { F.held files.new ≡ F.held files.old }
{
    let Some(given) = given_by(alloc, words)? else {
        return bad_words(alloc);
    };
    let Some(signature) = signature_of(alloc, given.name, given.desc)? else {
        return bad_words(alloc);
    };
    answer_for(alloc, given, &signature, files)
}

// The answer to words that ask for nothing.
fn bad_words(alloc: Global) -> Result<Answer, Fault>
    ensures text { IfOk result (λ answer. answer.text.items ≡ bad_words) }
    ensures status { IfOk result (λ answer. answer.status ≡ Status.BadWords) }
    ensures cause { IfErr result (λ fault. fault ≡ Fault.Memory) }
{
    Ok(Answer {
        text: Vec::from_slice(alloc, b"bad words\n")?,
        status: Status::BadWords,
    })
}

// The answer to a request.
fn answer_for<F: Files>(
    alloc: Global,
    given: Given,
    signature: &Signature,
    files: &mut F,
) -> Result<Answer, Fault>
    ensures answer { IfOk result (λ answer. IsDrawnFor (F.held files.old) (request_of given.entry signature.now) answer.text.items answer.status) }
    ensures cause { IfErr result (λ fault. IsCause fault (Rose (F.failures files.old) (F.failures files.new))) }
    ensures asked { AsksFor (F.held files.old) (Some (request_of given.entry signature.now)) (F.asked files.old) (F.asked files.new) result }
    ensures held { F.held files.new ≡ F.held files.old }
{
    let first = fetch(alloc, given.first, files)?;
    let second = fetch(alloc, given.second, files)?;
    Ok(draw(alloc, given.form, signature, &first, &second)?)
}

// What is under a name, within the limit of class files.
fn fetch<F: Files>(alloc: Global, name: &str, files: &mut F) -> Result<Fetched, Fault>
    ensures content { IfOk result (λ fetched. HoldsFetched (F.held files.old) name.now fetched) }
    ensures cause { IfErr result (λ fault. IsCause fault (Rose (F.failures files.old) (F.failures files.new))) }
    ensures asked { AsksOne (F.asked files.old) (F.asked files.new) (Fetch name.now) result }
    ensures later { F.failures files.old ≤ F.failures files.new }
    ensures held { F.held files.new ≡ F.held files.old }
{
    match files.fetch(alloc, name, LONGEST_FILE) {
        Ok(bytes) => {
            law_bytes(&bytes);
            Ok(Fetched::Bytes(bytes))
        }
        Err(FileFault::TooLong) => Ok(Fetched::TooLong),
        Err(FileFault::Failed) => Err(Fault::Read),
        Err(FileFault::Memory) => Err(Fault::Memory),
    }
}

// What a slice of bytes holds are bytes: a law, for its caller's proof.
fn law_bytes(bytes: &[u8])
    ensures { AreBytes bytes.now }
{
    let _count = bytes.len();
}

// Says an answer, and answers the status that goes with it.
fn say<K: Sink>(out: &mut K, answer: &Answer) -> Status
    ensures { Puts (K.sent out.old) (K.sent out.new) answer.now.text.items answer.now.status result (Rose (K.failures out.old) (K.failures out.new)) }
{
    match out.put(&answer.text) {
        Ok(()) => answer.status,
        Err(_) => Status::WriteFault,
    }
}
