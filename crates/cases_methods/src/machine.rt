//! Calls of `pv_machine`.
//!
//! | Line | Answer |
//! |---|---|
//! | `machine STEPS NUMBER ..; METHOD ..; STEP; ..` | how the first of these methods ends within this many steps at these arguments: `Returned` with the number, if there is one, `Threw` with the fault, or `running`; or the cause for which it is refused |
//! | `machine-step STEPS NUMBER ..; METHOD ..; STEP; ..` | the same, by a call for the start and one for each step |
//!
//! `samples` says how a METHOD is written, with `%3B` for a semicolon in its descriptor, and `values` how
//! numbers and places are; `this` is 1. A STEP says something of the world or of the heap at the start, as
//! `settings` has it, or is `get PLACE`: the number there at the end is added to the answer.

use crate::coded::with_code;
use crate::frames::refusal;
use cases_files::samples::class_of;
use cases_graphs::settings::Setting;
use cases_words::answers::{Answer, List, NoAnswer, said};
use cases_words::bench::{Bench, number, words};
use cases_words::values::{outcome_text, read_nums, read_place};
use pv_machine::{Program, run, start, step};
use pv_value::{Heap, Input, Memory, Outcome, World};
use std::alloc::Global;

/// `machine STEPS NUMBER ..; METHOD ..; STEP; ..`, by one call or by a call for each step
pub fn machine(bench: &Bench, by_steps: bool, rest: &str) -> Answer {
    let alloc = bench.alloc();
    let (how, rest) = rest.split_once(';').ok_or(NoAnswer::Unreadable)?;
    let (methods, setting) = rest.split_once(';').unwrap_or((rest, ""));
    let class = with_code(alloc, &class_of(bench, &words(alloc, methods)?)?)?;
    let program = match Program::new(alloc, &class, 0) {
        Ok(program) => program,
        Err(refused) => return refusal(alloc, refused),
    };
    let how = words(alloc, how)?;
    let [steps, args @ ..] = how.as_slice() else {
        return Err(NoAnswer::Unreadable);
    };
    let steps = number(steps)?;
    let Setting { world, heap } = setting_of(alloc, setting)?;
    let args = read_nums(alloc, args)?;
    let input = Input {
        this: 1,
        args,
        heap,
    };
    let end = if by_steps {
        stepped(alloc, &program, &world, &input, steps)?
    } else {
        run(alloc, &program, &world, &input, steps)?
    };
    end_text(alloc, end, setting)
}

/// The world and the heap at the start.
pub fn setting_of(alloc: Global, text: &str) -> Result<Setting, NoAnswer> {
    let mut setting = Setting::new(alloc);
    for step in text.split(';') {
        let words = words(alloc, step)?;
        if !matches!(*words.as_slice(), [] | ["get", _]) {
            setting.take(alloc, &words)?;
        }
    }
    Ok(setting)
}

// How a method ends within this many steps, by a call for each of them.
fn stepped(
    alloc: Global,
    program: &Program,
    world: &World,
    input: &Input,
    steps: u64,
) -> Result<Option<Outcome>, Memory> {
    let mut state = start(alloc, program, input)?;
    for _ in 0..steps {
        if let Some(outcome) = step(program, world, &mut state)? {
            return Ok(Some(outcome));
        }
    }
    Ok(None)
}

/// The end, and the numbers of its heap that the setting asks for.
pub fn end_text(alloc: Global, end: Option<Outcome>, setting: &str) -> Answer {
    let Some(outcome) = end else {
        return said(alloc, "running");
    };
    let (text, heap) = outcome_text(alloc, outcome)?;
    let mut list = List::new(alloc);
    list.add(text.as_str())?;
    for text in setting.split(';') {
        if let ["get", place] = *words(alloc, text)?.as_slice() {
            let n = heap.get(&read_place(alloc, place)?);
            list.add(format!(in alloc; "{n}")?.as_str())?;
        }
    }
    list.into_text()
}
