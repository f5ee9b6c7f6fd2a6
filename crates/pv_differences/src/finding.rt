//! What is said of a method.

ghost use Rattle.std.specs.Prelude.{◌≡◌, ◌<◌, IfOk, length};
ghost use Rattle.pv_frame.specs.Answers.{HasCode};
ghost use Rattle.pv_machine.specs.Programs.{IsAcceptedAt};
ghost use Rattle.pv_report.specs.Judging.{IsReadPair};
ghost use Rattle.pv_differences.specs.Findings.{trial};
ghost use Rattle.pv_differences.specs.Reading.{ArePrograms, HasCodeAt, IsFindingAt, IsFindingOnPlaces, IsFoundFinding, IsSideWithCalls, OnPlaces};

use crate::calls::makes_calls;
use pv_class::ClassFile;
use pv_frame::{Cause, Refused};
use pv_machine::Program;
use pv_refute::{Found, refute};
use pv_report::{Pair, Side, partner_of};
use pv_value::{Input, Memory, read_descriptor};
use std::alloc::Global;

/// How many tries are made of two methods, and how many steps each run has at most.
#[derive(Clone, Copy, Debug, PartialEq, Eq)]
pub struct RunLimits {
    pub tries: u32,
    pub steps: u32,
}

/// What is said of a method of the first class and its partner in the second.
#[derive(Drop)]
pub enum Finding {
    /// The second class has no partner.
    Missing,
    /// The method of this side has no code.
    NoCode(Side),
    /// The method of this side can't be run, for this cause.
    Refused(Side, Cause),
    /// The code of the method of this side has a call, reached or not.
    Calls(Side),
    /// The first try on which both end with different outcomes, and its input.
    Differs(u64, Input),
    /// So many tries were made, and there is none.
    Tried(u32),
}

/// The programs of two methods.
#[derive(Drop)]
pub(crate) struct Both {
    pub(crate) one: Program,
    pub(crate) two: Program,
}

/// What is said of the method at a place of the first class. Out of memory is the one error.
pub(crate) fn find(
    alloc: Global,
    limits: RunLimits,
    pair: &Pair,
    method: usize,
) -> Result<Finding, Memory>
    requires read { IsReadPair pair.now }
    requires there { method < length pair.now.first.methods }
    ensures { IfOk result (λ finding. IsFindingAt limits pair.now.first method pair.now.second finding) }
{
    let one = &pair.first.methods.as_slice()[method];
    match partner_of(one, &pair.second.methods)? {
        None => Ok(Finding::Missing),
        Some(partner) => find_on(alloc, limits, pair, method, partner),
    }
}

// What is said of a method and its partner, each at its place in its class.
fn find_on(
    alloc: Global,
    limits: RunLimits,
    pair: &Pair,
    method: usize,
    partner: usize,
) -> Result<Finding, Memory>
    requires read { IsReadPair pair.now }
    requires there { method < length pair.now.first.methods }
    requires partner { partner < length pair.now.second.methods }
    ensures { IfOk result (λ finding. IsFindingOnPlaces limits pair.now.first method pair.now.second partner finding) }
{
    let both = match programs(alloc, pair, method, partner)? {
        Ok(both) => both,
        Err(finding) => return Ok(finding),
    };
    if let Some(side) = side_with_calls(alloc, pair, method, partner)? {
        return Ok(Finding::Calls(side));
    }
    try_both(alloc, limits, pair, method, &both)
}

// The programs of a method and its partner, or what is said where they don't both have one.
fn programs(
    alloc: Global,
    pair: &Pair,
    method: usize,
    partner: usize,
) -> Result<Result<Both, Finding>, Memory>
    requires read { IsReadPair pair.now }
    requires there { method < length pair.now.first.methods }
    requires partner { partner < length pair.now.second.methods }
    ensures { IfOk result (λ found. OnPlaces pair.now.first method pair.now.second partner (λ m p. ArePrograms pair.now.first m pair.now.second p found)) }
{
    if !has_code(&pair.first, method) {
        return Ok(Err(Finding::NoCode(Side::First)));
    }
    if !has_code(&pair.second, partner) {
        return Ok(Err(Finding::NoCode(Side::Second)));
    }
    let one = match Program::new(alloc, &pair.first, method) {
        Ok(program) => program,
        Err(Refused::Cause(cause)) => return Ok(Err(Finding::Refused(Side::First, cause))),
        Err(Refused::Memory) => return Err(Memory),
    };
    let two = match Program::new(alloc, &pair.second, partner) {
        Ok(program) => program,
        Err(Refused::Cause(cause)) => return Ok(Err(Finding::Refused(Side::Second, cause))),
        Err(Refused::Memory) => return Err(Memory),
    };
    Ok(Ok(Both { one, two }))
}

// Whether the method at a place has a code.
fn has_code(class: &ClassFile, method: usize) -> bool
    requires { method < length class.now.methods }
    ensures { HasCodeAt class.now method result }
{
    class.methods.as_slice()[method].code.is_some()
}

// The side of the first of two methods whose code has a call.
fn side_with_calls(
    alloc: Global,
    pair: &Pair,
    method: usize,
    partner: usize,
) -> Result<Option<Side>, Memory>
    requires there { method < length pair.now.first.methods }
    requires partner { partner < length pair.now.second.methods }
    ensures { IfOk result (λ side. OnPlaces pair.now.first method pair.now.second partner (λ m p. IsSideWithCalls m p side)) }
{
    if makes_calls(alloc, &pair.first, method)? {
        return Ok(Some(Side::First));
    }
    if makes_calls(alloc, &pair.second, partner)? {
        return Ok(Some(Side::Second));
    }
    Ok(None)
}

// What tries find of the programs of two methods.
fn try_both(
    alloc: Global,
    limits: RunLimits,
    pair: &Pair,
    method: usize,
    both: &Both,
) -> Result<Finding, Memory>
    requires there { method < length pair.now.first.methods }
    requires code { HasCode pair.now.first method }
    requires program { IsAcceptedAt pair.now.first method both.now.one }
    ensures { IfOk result (λ finding. IsFoundFinding (trial limits both.now.one both.now.two) finding) }
{
    let name = &pair.first.methods.as_slice()[method].desc;
    let Some(desc) = read_descriptor(alloc, name.bytes())? else {
        unreachable!()
    };
    let (tries, steps) = (u64::from(limits.tries), u64::from(limits.steps));
    match refute(alloc, &both.one, &both.two, &desc, tries, steps)? {
        Found::Differs(t, input) => Ok(Finding::Differs(t, input)),
        Found::Tried => Ok(Finding::Tried(limits.tries)),
    }
}
