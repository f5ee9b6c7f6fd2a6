//! What is said of two files.

ghost use Rattle.std.specs.Prelude.{◌≡◌, length, IfOk};
ghost use Rattle.std.specs.List.{AllZip, flat_map};
ghost use Rattle.pv_report.specs.Lines.{line_text};
ghost use Rattle.pv_report.specs.Listed.{lines_by};
ghost use Rattle.pv_report.specs.Judging.{IsReadPair};
ghost use Rattle.pv_differences.specs.Findings.{IsFinding};
ghost use Rattle.pv_differences.specs.Lines.{line_of};
ghost use Rattle.pv_differences.specs.Refuted.{IsStatusOf};
ghost use Rattle.pv_differences.specs.Reading.{RefutesFetched};

use crate::finding::{Finding, RunLimits, find};
use crate::line::push_line;
use pv_class::Method;
use pv_report::{Answer, Fetched, Pair, Status, bad_class, read_pair};
use pv_value::Memory;
use std::alloc::{AllocError, Global};

/// What runs show of two files: a line for each method of the first, in its order; or one line on the first of the two that
/// is no class file. Each method and its partner are run on so many tries, for so many steps at most. The limit of the fetches is
/// `LONGEST_FILE`. Out of memory is the one error.
pub fn refute_all(
    alloc: Global,
    limits: RunLimits,
    first: &Fetched,
    second: &Fetched,
) -> Result<Answer, Memory>
    ensures { IfOk result (λ answer. RefutesFetched limits first.now second.now answer.text.items answer.status) }
{
    let pair = match read_pair(alloc, first, second)? {
        Ok(pair) => pair,
        Err(bad) => return Ok(bad_class(alloc, bad)?),
    };
    let findings = findings(alloc, limits, &pair)?;
    let text = lines(alloc, pair.first.methods.as_slice(), &findings)?;
    let status = status_of(&findings);
    Ok(Answer { text, status })
}

// What is said of the methods of the first class, in their order.
fn findings(alloc: Global, limits: RunLimits, pair: &Pair) -> Result<Vec<Finding>, Memory>
    requires { IsReadPair pair.now }
    ensures { IfOk result (λ findings. AllZip (IsFinding limits pair.now.first pair.now.second) pair.now.first.methods findings.items) }
{
    let mut findings = Vec::new(alloc);
    for place in 0..pair.first.methods.as_slice().len() {
        let finding = find(alloc, limits, pair, place)?;
        findings.push(finding)?;
    }
    Ok(findings)
}

// The lines of methods, each with its finding.
fn lines(alloc: Global, methods: &[Method], findings: &[Finding]) -> Result<Vec<u8>, AllocError>
    requires { length findings.now ≡ length methods.now }
    ensures { IfOk result (λ text. text.items ≡ flat_map line_text (lines_by line_of methods.now findings.now)) }
{
    let mut text = Vec::new(alloc);
    for k in 0..methods.len() {
        push_line(alloc, &mut text, &methods[k], &findings[k])?;
    }
    Ok(text)
}

// The status that goes with these findings.
fn status_of(findings: &[Finding]) -> Status
    ensures { IsStatusOf findings.now result }
{
    if findings.is_empty() {
        Status::AllEquivalent
    } else {
        Status::Others
    }
}
