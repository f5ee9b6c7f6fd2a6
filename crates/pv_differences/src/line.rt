//! The lines of a report on differences.

ghost use Rattle.std.specs.Prelude.{◌≡◌, ◌++◌, ◌∷◌, map, OnOk};
ghost use Rattle.pv_token.specs.Words.{spaced};
ghost use Rattle.pv_report.specs.Lines.{line_text};
ghost use Rattle.pv_differences.specs.Lines.{argument_word, finding_words, line_of};

use crate::finding::Finding;
use pv_class::Method;
use pv_report::{Verdict, push_method, push_verdict, side_word};
use pv_token::{Int, Long, push, push_decimal};
use pv_value::Num;
use std::alloc::{AllocError, Global};

/// What is said of a method, and a line feed.
pub(crate) fn push_line(
    alloc: Global,
    out: &mut Vec<u8>,
    method: &Method,
    finding: &Finding,
) -> Result<(), AllocError>
    ensures { OnOk result (out.new.items ≡ out.old.items ++ line_text (line_of method.now finding.now)) }
{
    push_method(alloc, out, &method.name, &method.desc)?;
    push_finding(out, finding)?;
    out.extend_from_slice(b"\n")
}

// The words of a finding, each after a blank.
fn push_finding(out: &mut Vec<u8>, finding: &Finding) -> Result<(), AllocError>
    ensures { OnOk result (out.new.items ≡ out.old.items ++ spaced (finding_words finding.now)) }
{
    match finding {
        Finding::Missing => push_verdict(out, Verdict::Missing),
        Finding::NoCode(side) => push_verdict(out, Verdict::NoCode(*side)),
        Finding::Refused(side, cause) => push_verdict(out, Verdict::Refused(*side, *cause)),
        Finding::Calls(side) => {
            out.extend_from_slice(b" calls ")?;
            out.extend_from_slice(side_word(*side))
        }
        Finding::Differs(t, input) => {
            out.extend_from_slice(b" differs try ")?;
            push_decimal(out, *t as usize)?;
            out.extend_from_slice(b" args")?;
            push_arguments(out, input.args.as_slice())
        }
        Finding::Tried(tries) => {
            out.extend_from_slice(b" tried ")?;
            push_decimal(out, *tries as usize)
        }
    }
}

// The values of arguments, each after a blank.
fn push_arguments(out: &mut Vec<u8>, args: &[Num]) -> Result<(), AllocError>
    ensures { OnOk result (out.new.items ≡ out.old.items ++ spaced (map argument_word args.now)) }
{
    for n in args {
        push_argument(out, *n)?;
    }
    Ok(())
}

// The value of an argument, after a blank.
fn push_argument(out: &mut Vec<u8>, n: Num) -> Result<(), AllocError>
    ensures { OnOk result (out.new.items ≡ out.old.items ++ 32 ∷ argument_word n) }
{
    match n {
        Num::Int(n) => push::<Int>(out, n),
        Num::Long(n) => push::<Long>(out, n),
        Num::Ref(r) => {
            out.extend_from_slice(b" @")?;
            push_decimal(out, r as usize)
        }
    }
}
