//! The state of a run.

ghost use Rattle.std.specs.Prelude.{◌≡◌, ◌≤◌, ◌++◌, IfOk, OnOk};
ghost use Rattle.std.specs.List.{flat_map};
ghost use Rattle.pv_machine.specs.Machine.{locals_of, passed, padded, start};

use crate::program::Program;
use crate::stack::Stack;
use pv_value::{Heap, Input, Memory, Num};
use std::alloc::Global;
use std::marker::Model;

/// A method in the middle of its run: the place of the next instruction, the operand stack, the
/// locals, the heap, and the heap with which it started. It knows how many values its method may have
/// on the operand stack, and has memory for some number of them.
#[derive(Drop)]
pub struct State {
    pub(crate) at: usize,
    pub(crate) stack: Stack,
    pub(crate) locals: Vec<Option<Num>>,
    pub(crate) heap: Heap,
    pub(crate) heap0: Heap,
    pub(crate) max_stack: u16,
    pub(crate) alloc: Global,
}

impl Model for State {
    ghost use Rattle.pv_machine.specs.InMemory.{StateInMemory, coded_state_in_memory};

    ghost Value = { StateInMemory };

    ghost coded = { coded_state_in_memory };

    ghost view = { λ s. record { state = record { at = s.at; stack = s.stack.nums; locals = s.locals.items; heap = s.heap; heap0 = s.heap0 }; room = s.stack.room; max_stack = s.max_stack } };
}

impl State {
    ghost use Rattle.std.specs.Prelude.{◌≡◌, ◌≤◌, ◌<◌, OnOk, OnErr};

    /// Makes room on the operand stack for as many values as the method may have there. It fails only
    /// where there was less, and the state stays, whatever the result.
    pub fn reserve(&mut self) -> Result<(), Memory>
        ensures ok { OnOk result (self.new.max_stack ≤ self.new.room) }
        ensures err { OnErr result (self.old.room < self.old.max_stack) }
        ensures state { self.new.state ≡ self.old.state }
        ensures max_stack { self.new.max_stack ≡ self.old.max_stack }
        ensures room { self.old.room ≤ self.new.room }
    {
        self.stack.reserve(usize::from(self.max_stack))
    }
}

/// The state at the start of a method.
pub fn start(alloc: Global, p: &Program, input: &Input) -> Result<State, Memory>
    ensures state { IfOk result (λ s. s.state ≡ start p.now input.now) }
    ensures max_stack { IfOk result (λ s. s.max_stack ≡ p.now.max_stack) }
{
    let locals = passed_locals(alloc, p.program.instance, input)?;
    let locals = padded(locals, usize::from(p.program.max_locals))?;
    Ok(State {
        at: 0,
        stack: Stack::new(alloc),
        locals,
        heap: input.heap.copy()?,
        heap0: input.heap.copy()?,
        max_stack: p.program.max_stack,
        alloc,
    })
}

// The locals that `this` and the arguments take.
fn passed_locals(alloc: Global, instance: bool, input: &Input) -> Result<Vec<Option<Num>>, Memory>
    ensures { IfOk result (λ locals. locals.items ≡ flat_map locals_of (passed instance input.now)) }
{
    let mut locals = Vec::new(alloc);
    if instance {
        push_local(&mut locals, Num::Ref(input.this))?;
    }
    for n in input.args.as_slice() {
        push_local(&mut locals, *n)?;
    }
    Ok(locals)
}

// Adds the locals that a number takes: a long takes two.
fn push_local(locals: &mut Vec<Option<Num>>, n: Num) -> Result<(), Memory>
    ensures { OnOk result (locals.new.items ≡ locals.old.items ++ locals_of n) }
{
    locals.push(Some(n))?;
    if let Num::Long(_) = n {
        locals.push(None)?;
    }
    Ok(())
}

// The locals, and after those that are given unset ones up to a count.
fn padded(locals: Vec<Option<Num>>, count: usize) -> Result<Vec<Option<Num>>, Memory>
    ensures { IfOk result (λ all. all.items ≡ padded count locals.items) }
{
    let missing = count.saturating_sub(locals.len());
    let mut all = locals;
    for _ in 0..missing {
        all.push(None)?;
    }
    Ok(all)
}
