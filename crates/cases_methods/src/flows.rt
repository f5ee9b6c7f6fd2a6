//! Calls of `pv_flow`.
//!
//! | Line | Answer |
//! |---|---|
//! | `blocks METHOD ..` | the blocks of the first of these methods, or the cause for which it is refused |
//!
//! `samples` says how a METHOD is written. A block is written with the places of its first and last instruction and its
//! exits: the number of a block, `return` or `throw`, as `0-2: 1 throw`.

ghost use Rattle.pv_frame.specs.Frames.{AreFrames};

use crate::coded::with_code;
use crate::frames::refusal;
use cases_files::samples::class_of;
use cases_words::answers::{Answer, List};
use cases_words::bench::{Bench, words};
use pv_flow::{Block, Exit, Flow, blocks};
use pv_frame::{Typed, infer};
use std::alloc::Global;

/// `blocks METHOD ..`
pub fn flow(bench: &Bench, rest: &str) -> Answer {
    let alloc = bench.alloc();
    let class = with_code(alloc, &class_of(bench, &words(alloc, rest)?)?)?;
    match infer(alloc, &class, 0) {
        Ok(typed) => typed_text(alloc, &typed),
        Err(refused) => refusal(alloc, refused),
    }
}

// The blocks of a method with its frames.
fn typed_text(alloc: Global, typed: &Typed) -> Answer
    requires { AreFrames typed.now.program typed.now.frames }
{
    match blocks(alloc, typed) {
        Ok(flow) => flow_text(alloc, &flow),
        Err(refused) => refusal(alloc, refused),
    }
}

fn flow_text(alloc: Global, flow: &Flow) -> Answer {
    let mut list = List::new(alloc);
    for block in flow.blocks.as_slice() {
        list.add(block_text(alloc, block)?.as_str())?;
    }
    list.into_text()
}

fn block_text(alloc: Global, block: &Block) -> Answer {
    let (first, last) = (block.first, block.last);
    let mut text = format!(in alloc; "{first}-{last}:")?;
    for exit in block.exits.as_slice() {
        match exit {
            Exit::To(n) => text.push_str(format!(in alloc; " {n}")?.as_str())?,
            Exit::Return => text.push_str(" return")?,
            Exit::Throw => text.push_str(" throw")?,
        }
    }
    Ok(text)
}
