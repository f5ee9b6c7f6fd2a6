//! What is said of two files.

ghost use Rattle.std.specs.Prelude.{◌≡◌, ◌↔◌, None, Some, length, IfOk};
ghost use Rattle.std.specs.List.{flat_map};
ghost use Rattle.pv_report.specs.Lines.{bad_class, line_text};
ghost use Rattle.pv_report.specs.declared.verdict.Graphs.{Graphs};
ghost use Rattle.pv_report.specs.Report.{IsStatusOf, lines_of};
ghost use Rattle.pv_report.specs.Options.{options_of};
ghost use Rattle.pv_report.specs.Judging.{JudgesFetched};
ghost use Rattle.pv_report.specs.Proving.{ShowsFetched};

use crate::line::{push_bad_class, push_line};
use crate::pair::{BadClass, Fetched, Pair, read_pair};
use crate::pairs::judge_all;
use crate::status::Status;
use crate::verdict::{Detail, Means, Verdict};
use pv_base::Gate;
use pv_cert::Section;
use pv_certify::Limits;
use pv_class::Method;
use pv_list::Listed;
use pv_pieces::Workers;
use pv_value::Memory;
use std::alloc::{AllocError, Global};
use std::thread::Threads;

/// What there is to say, and the status that goes with it.
#[derive(Drop)]
pub struct Answer {
    pub text: Vec<u8>,
    pub status: Status,
}

/// What is said of two files, and, where they are wanted and both are class files, the sections that show it.
#[derive(Drop)]
pub struct Report {
    pub answer: Answer,
    pub sections: Option<Listed<Section>>,
}

/// What is said of two files: a line for each method of the first, in its order, or one line on the first of the two that
/// is no class file. Where steps are wanted and both are class files, there is a section for each method that is equivalent to its
/// partner, in the order of the lines; else there are no sections. The limit of the fetches is `LONGEST_FILE`. Where
/// as many methods have partners as there are workers, these are judged in pieces at once; else one after another, and each search
/// has the workers. Neither they nor the gate change an answer. Out of memory is the one error.
pub fn judge<R: Threads + Sync, G: Gate>(
    workers: &Workers<R, G>,
    alloc: Global,
    limits: Limits,
    detail: Detail,
    first: &Fetched,
    second: &Fetched,
) -> Result<Report, Memory>
    ensures answer { IfOk result (λ report. JudgesFetched (options_of limits detail) first.now second.now report.answer.text.items report.answer.status) }
    ensures sections { IfOk result (λ report. ShowsFetched limits first.now second.now report.sections) }
    ensures wanted { IfOk result (λ report. detail ≡ Detail.Steps → (report.sections ≡ None) ↔ (report.answer.status ≡ Status.BadClass)) }
    ensures unwanted { IfOk result (λ report. (graphs : Graphs) → detail ≡ Detail.Verdict graphs → report.sections ≡ None) }
{
    let pair = match read_pair(alloc, first, second)? {
        Ok(pair) => pair,
        Err(bad) => {
            let answer = bad_class(alloc, bad)?;
            return Ok(Report {
                answer,
                sections: None,
            });
        }
    };
    let means = Means { limits, detail };
    let judgements = judge_all(workers, alloc, means, &pair)?;
    let answer = answer_of(alloc, pair.first.methods.as_slice(), &judgements.verdicts)?;
    Ok(Report {
        answer,
        sections: wanted_sections(detail, judgements.sections),
    })
}

// Sections, where steps are wanted.
fn wanted_sections(detail: Detail, sections: Vec<Section>) -> Option<Listed<Section>>
    ensures wanted { detail ≡ Detail.Steps → result ≡ Some sections.items }
    ensures unwanted { (graphs : Graphs) → detail ≡ Detail.Verdict graphs → result ≡ None }
{
    match detail {
        Detail::Verdict(_) => None,
        Detail::Steps => Some(Listed::from(sections)),
    }
}

// The lines of methods, each with its verdict, and the status.
fn answer_of(alloc: Global, methods: &[Method], verdicts: &[Verdict]) -> Result<Answer, Memory>
    requires { length verdicts.now ≡ length methods.now }
    ensures text { IfOk result (λ answer. answer.text.items ≡ flat_map line_text (lines_of methods.now verdicts.now)) }
    ensures status { IfOk result (λ answer. IsStatusOf verdicts.now answer.status) }
{
    let text = lines(alloc, methods, verdicts)?;
    let status = status_of(verdicts);
    Ok(Answer { text, status })
}

/// What is said of a file that is no class file. Out of memory is the one error.
pub fn bad_class(alloc: Global, bad: BadClass) -> Result<Answer, AllocError>
    ensures text { IfOk result (λ answer. answer.text.items ≡ bad_class bad.side bad.fault) }
    ensures status { IfOk result (λ answer. answer.status ≡ Status.BadClass) }
{
    let mut text = Vec::new(alloc);
    push_bad_class(&mut text, bad.side, bad.fault)?;
    Ok(Answer {
        text,
        status: Status::BadClass,
    })
}

// The lines of methods, each with its verdict.
fn lines(alloc: Global, methods: &[Method], verdicts: &[Verdict]) -> Result<Vec<u8>, AllocError>
    requires { length verdicts.now ≡ length methods.now }
    ensures { IfOk result (λ text. text.items ≡ flat_map line_text (lines_of methods.now verdicts.now)) }
{
    let mut text = Vec::new(alloc);
    for k in 0..methods.len() {
        push_line(alloc, &mut text, &methods[k], verdicts[k])?;
    }
    Ok(text)
}

// The status that goes with these verdicts.
fn status_of(verdicts: &[Verdict]) -> Status
    ensures { IsStatusOf verdicts.now result }
{
    for verdict in verdicts {
        if !verdict.is_equivalent() {
            return Status::Others;
        }
    }
    Status::AllEquivalent
}
