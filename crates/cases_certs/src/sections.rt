//! Calls of `pv_check`, `pv_rules` and `pv_trim`.
//!
//! | Line | Answer |
//! |---|---|
//! | `lemmas BYTES` | for each lemma of the certificate whether it is `accepted` or `rejected`, or the fault of the certificate |
//! | `section BYTES; METHOD ..; METHOD ..` | for each section of the certificate whether it is accepted over the least graph of the roots of two methods, the first of each class, or the step for which it is rejected; or the verdict on the two where they don't both have a root, or the fault of the certificate |
//! | `pieces WORKERS MEETINGS BYTES; METHOD ..; METHOD ..` | as `section`, by this many workers and a gate for this many meetings; then whether it `met`, and how often it was passed |
//! | `steps BYTES; METHOD ..; METHOD ..` | for each step of the sections, in order, whether it is `right` or `wrong` over that graph; else as `section` |
//! | `trim BYTES; METHOD ..; METHOD ..` | for each section what `section` answers where the certificate states no lemma; after `Accepted`, also the lines of the section without the steps that nothing needs, and what `section` answers of these; else as `section` |
//!
//! `samples` says how a METHOD is written, and what may stand before it.

ghost use Rattle.std.specs.Prelude.{◌≡◌, ◌↔◌, ◌<◌, [], IfOk, false, length};
ghost use Rattle.pv_graph.specs.Graphs.{IsWellMade};
ghost use Rattle.pv_lemmas.specs.Lemmas.{ByLemmas};
ghost use Rattle.pv_report.specs.Judging.{IsRead};
ghost use Rattle.pv_steps.specs.Accepted.{Derives};

use cases_files::samples::class_of;
use cases_words::answers::{Answer, List, NoAnswer, shown};
use cases_words::bench::{Bench, number, words};
use pv_alike::Least;
use pv_axioms::Axioms;
use pv_base::{Gate, MeetGate, OpenGate};
use pv_cert::{Cert, CertFault, Section, read_cert, write_cert};
use pv_check::{Checked, Checker};
use pv_class::{ClassFault, ClassFile, read_class};
use pv_list::Listed;
use pv_pieces::Workers;
use pv_report::{Verdict, least_roots};
use pv_rules::{Lemmas, SectionRules};
use pv_steps::Step;
use pv_value::{Memory, Name};
use std::alloc::Global;
use std::thread::Threads;

// What a line asks of sections: whether each is accepted, whether each step is right, or what is left of each.
#[derive(Clone, Copy)]
enum Question {
    Accepted,
    Right,
    Left,
}

/// `section BYTES; METHOD ..; METHOD ..`
pub fn section<R: Threads + Sync>(rt: &R, bench: &Bench, rest: &str) -> Answer {
    asked(&alone(rt), bench, Question::Accepted, rest)
}

/// `pieces WORKERS MEETINGS BYTES; METHOD ..; METHOD ..`
pub fn pieces<R: Threads + Sync>(rt: &R, bench: &Bench, rest: &str) -> Answer {
    let alloc = bench.alloc();
    let (count, rest) = rest.split_once(' ').ok_or(NoAnswer::Unreadable)?;
    let (meetings, rest) = rest.split_once(' ').ok_or(NoAnswer::Unreadable)?;
    let count = number(count)?;
    if count == 0 {
        return Err(NoAnswer::Unreadable);
    }
    let gate = MeetGate::new(number(meetings)?);
    let workers = Workers::new(rt, &gate, count);
    let answer = asked(&workers, bench, Question::Accepted, rest)?;
    let met = if gate.met() { "met" } else { "missed" };
    Ok(format!(in alloc; "{answer}; {met}, {} calls", gate.calls())?)
}

/// `steps BYTES; METHOD ..; METHOD ..`
pub fn steps<R: Threads + Sync>(rt: &R, bench: &Bench, rest: &str) -> Answer {
    asked(&alone(rt), bench, Question::Right, rest)
}

/// `trim BYTES; METHOD ..; METHOD ..`
pub fn trim<R: Threads + Sync>(rt: &R, bench: &Bench, rest: &str) -> Answer {
    asked(&alone(rt), bench, Question::Left, rest)
}

// One worker, and a gate that is always open.
fn alone<R>(rt: &R) -> Workers<'_, R, OpenGate> {
    Workers::new(rt, &OpenGate, 1)
}

/// `lemmas BYTES`
pub fn lemmas<R: Threads + Sync>(rt: &R, bench: &Bench, rest: &str) -> Answer {
    let alloc = bench.alloc();
    let cert = match read_cert(alloc, &bench.bytes(rest)?) {
        Ok(cert) => cert,
        Err(CertFault::Memory) => return Err(NoAnswer::Memory),
        Err(fault) => return shown(alloc, fault),
    };
    let axioms = Axioms::new(alloc)?;
    let lemmas = Lemmas::new(&alone(rt), alloc, &axioms, cert.lemmas.as_slice())?;
    let mut list = List::new(alloc);
    for n in 1..cert.lemmas.as_slice().len() + 1 {
        let accepted = lemmas.accepted(n);
        list.add(if accepted { "accepted" } else { "rejected" })?;
    }
    list.into_text()
}

// `BYTES; METHOD ..; METHOD ..`
fn asked<R: Threads + Sync, G: Gate>(
    workers: &Workers<R, G>,
    bench: &Bench,
    question: Question,
    rest: &str,
) -> Answer {
    let alloc = bench.alloc();
    let (bytes, methods) = rest.split_once(';').ok_or(NoAnswer::Unreadable)?;
    let (first, second) = methods.split_once(';').ok_or(NoAnswer::Unreadable)?;
    let cert = match read_cert(alloc, &bench.bytes(bytes)?) {
        Ok(cert) => cert,
        Err(CertFault::Memory) => return Err(NoAnswer::Memory),
        Err(fault) => return shown(alloc, fault),
    };
    let first = with_method(bench, first)?;
    let second = with_method(bench, second)?;
    match first_roots(alloc, &first, &second)? {
        Ok(roots) => answered(workers, alloc, question, &roots, &cert),
        Err(verdict) => shown(alloc, verdict),
    }
}

// What is answered on the sections over a least graph. What is left of a section is asked by the axioms alone.
fn answered<R: Threads + Sync, G: Gate>(
    workers: &Workers<R, G>,
    alloc: Global,
    question: Question,
    roots: &Least,
    cert: &Cert,
) -> Answer
    requires made { IsWellMade roots.now.graph }
    requires sealed { roots.now.graph.is_open ≡ false }
    requires first { roots.now.first < length roots.now.graph.nodes }
    requires second { roots.now.second < length roots.now.graph.nodes }
{
    let axioms = Axioms::new(alloc)?;
    let (lemmas, none) = (
        Lemmas::new(workers, alloc, &axioms, cert.lemmas.as_slice())?,
        Lemmas::new(workers, alloc, &axioms, &[])?,
    );
    let rules = SectionRules {
        axioms: &axioms,
        lemmas: &lemmas,
    };
    let alone = SectionRules {
        axioms: &axioms,
        lemmas: &none,
    };
    let mut list = List::new(alloc);
    for section in cert.sections.as_slice() {
        match question {
            Question::Accepted => {
                let answer = checked(workers, alloc, &rules, roots, section.steps.as_slice())?;
                list.add(shown(alloc, answer)?.as_str())?;
            }
            Question::Right => add_steps(alloc, &rules, roots, section, &mut list)?,
            Question::Left => add_left(workers, alloc, &alone, roots, section, &mut list)?,
        }
    }
    list.into_text()
}

// Puts for each step of a section whether it is right.
fn add_steps(
    alloc: Global,
    rules: &SectionRules,
    roots: &Least,
    section: &Section,
    list: &mut List,
) -> Result<(), NoAnswer>
    requires { roots.now.graph.is_open ≡ false }
{
    let steps = section.steps.as_slice();
    let checker = Checker::new(rules, roots.graph(), roots.first(), roots.second(), steps);
    for k in 1..steps.len() + 1 {
        let right = checker.step_is_right(alloc, k)?;
        list.add(if right { "right" } else { "wrong" })?;
    }
    Ok(())
}

// Whether the steps derive by these rules that the roots of a least graph are equal.
fn checked<R: Threads + Sync, G: Gate>(
    workers: &Workers<R, G>,
    alloc: Global,
    rules: &SectionRules,
    roots: &Least,
    steps: &[Step],
) -> Result<Checked, Memory>
    requires { roots.now.graph.is_open ≡ false }
    ensures { IfOk result (λ answer. (answer ≡ Checked.Accepted) ↔ Derives (ByLemmas rules.now.lemmas.now) roots.now.graph roots.now.first roots.now.second steps.now) }
{
    let checker = Checker::new(rules, roots.graph(), roots.first(), roots.second(), steps);
    checker.check(workers, alloc)
}

// Puts the answer on a section by the axioms alone; where it is accepted, also the lines of what is left of it, and the answer on that.
fn add_left<R: Threads + Sync, G: Gate>(
    workers: &Workers<R, G>,
    alloc: Global,
    rules: &SectionRules,
    roots: &Least,
    section: &Section,
    list: &mut List,
) -> Result<(), NoAnswer>
    requires none { rules.now.lemmas.now ≡ [] }
    requires made { IsWellMade roots.now.graph }
    requires sealed { roots.now.graph.is_open ≡ false }
    requires first { roots.now.first < length roots.now.graph.nodes }
    requires second { roots.now.second < length roots.now.graph.nodes }
{
    let answer = checked(workers, alloc, rules, roots, section.steps.as_slice())?;
    list.add(shown(alloc, answer)?.as_str())?;
    if let Checked::Accepted = answer {
        let steps = pv_trim::trim(alloc, roots, &section.steps)?;
        let again = checked(workers, alloc, rules, roots, steps.as_slice())?;
        add_lines(alloc, section, steps, list)?;
        list.add(shown(alloc, again)?.as_str())?;
    }
    Ok(())
}

// Puts the lines of a section with other steps.
fn add_lines(
    alloc: Global,
    section: &Section,
    steps: Listed<Step>,
    list: &mut List,
) -> Result<(), NoAnswer> {
    let section = Section {
        name: Name::new(alloc, section.name.bytes())?,
        desc: Name::new(alloc, section.desc.bytes())?,
        steps,
    };
    let cert = Cert {
        first: [0; 32],
        second: [0; 32],
        lemmas: Listed::from(Vec::new(alloc)),
        sections: Listed::from(vec![in alloc; section]?),
    };
    let text = write_cert(alloc, &cert)?;
    let text = str::from_utf8(&text).map_err(|_| NoAnswer::Unreadable)?;
    for line in text.lines().skip(3) {
        list.add(line)?;
    }
    Ok(())
}

// The least graph of the roots of the first methods of two classes, or the verdict where they don't both have a root.
fn first_roots(
    alloc: Global,
    first: &ClassFile,
    second: &ClassFile,
) -> Result<Result<Least, Verdict>, Memory>
    requires first { IsRead first.now }
    requires second { IsRead second.now }
    requires method { 0 < length first.now.methods }
    requires partner { 0 < length second.now.methods }
    ensures made { IfOk result (λ found. IfOk found (λ roots. IsWellMade roots.graph)) }
    ensures sealed { IfOk result (λ found. IfOk found (λ roots. roots.graph.is_open ≡ false)) }
    ensures first { IfOk result (λ found. IfOk found (λ roots. roots.first < length roots.graph.nodes)) }
    ensures second { IfOk result (λ found. IfOk found (λ roots. roots.second < length roots.graph.nodes)) }
{
    least_roots(alloc, first, 0, second, 0)
}

// The class with the methods that words write, of which there is one.
fn with_method(bench: &Bench, text: &str) -> Result<ClassFile, NoAnswer>
    ensures read { IfOk result (λ class. IsRead class) }
    ensures method { IfOk result (λ class. 0 < length class.methods) }
{
    let alloc = bench.alloc();
    let class = read(alloc, &class_of(bench, &words(alloc, text)?)?)?;
    if class.methods.as_slice().is_empty() {
        Err(NoAnswer::Unreadable)
    } else {
        Ok(class)
    }
}

fn read(alloc: Global, bytes: &[u8]) -> Result<ClassFile, NoAnswer>
    ensures { IfOk result (λ class. IsRead class) }
{
    match read_class(alloc, bytes) {
        Ok(class) => Ok(class),
        Err(ClassFault::Memory) => Err(NoAnswer::Memory),
        Err(_) => Err(NoAnswer::Unreadable),
    }
}
