//! Calls of `pv_frame`.
//!
//! | Line | Answer |
//! |---|---|
//! | `frames METHOD ..` | of the first of these methods the frame before each instruction, or the cause for which it is refused |
//!
//! `samples` says how a METHOD is written. A frame is the operand stack, with its top first, and the locals,
//! each value as a letter: `I` an int, `L` a long, `R` a reference, `U` unknown; `-` is no frame.

use crate::coded::with_code;
use cases_files::samples::class_of;
use cases_words::answers::{Answer, List, NoAnswer};
use cases_words::bench::{Bench, words};
use pv_frame::{Cause, Frame, Refused, Sort, infer};
use std::alloc::{AllocError, Global};

/// `frames METHOD ..`
pub fn frames(bench: &Bench, rest: &str) -> Answer {
    let alloc = bench.alloc();
    let class = with_code(alloc, &class_of(bench, &words(alloc, rest)?)?)?;
    let typed = match infer(alloc, &class, 0) {
        Ok(typed) => typed,
        Err(refused) => return refusal(alloc, refused),
    };
    let mut list = List::new(alloc);
    for frame in typed.frames.as_slice() {
        match frame {
            Some(frame) => list.add(frame_text(alloc, frame)?.as_str())?,
            None => list.add("-")?,
        }
    }
    list.into_text()
}

/// The cause of a refusal, with its address.
pub fn refusal(alloc: Global, refused: Refused) -> Answer {
    match refused {
        Refused::Cause(Cause { kind, at }) => Ok(format!(in alloc; "{kind:?} at {at}")?),
        Refused::Memory => Err(NoAnswer::Memory),
    }
}

fn frame_text(alloc: Global, frame: &Frame) -> Answer {
    let stack = letters(alloc, frame.stack.as_slice())?;
    let locals = letters(alloc, frame.locals.as_slice())?;
    Ok(format!(in alloc; "[{stack}]{locals}")?)
}

fn letters(alloc: Global, sorts: &[Sort]) -> Result<String, AllocError> {
    let mut text = String::new(alloc);
    for sort in sorts {
        text.push_str(letter(*sort))?;
    }
    Ok(text)
}

fn letter(sort: Sort) -> &'static str {
    match sort {
        Sort::Int => "I",
        Sort::Long => "L",
        Sort::Ref => "R",
        Sort::Unknown => "U",
    }
}
