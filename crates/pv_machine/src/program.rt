//! Methods that may run.

ghost use Rattle.std.specs.Prelude.{◌≡◌, IfOk};
ghost use Rattle.pv_frame.specs.Answers.{HasCode, HasReferences};
ghost use Rattle.pv_frame.specs.declared.cause.Cause.{Cause};
ghost use Rattle.pv_machine.specs.Programs.{IsAcceptedAt, IsRefusedAt, RefusesAs};

use pv_class::ClassFile;
use pv_frame::{Refused, infer};
use std::alloc::Global;
use std::marker::Model;

/// A method that may run, seen as its program.
#[derive(Drop)]
pub struct Program {
    pub(crate) program: pv_frame::Program,
}

impl Model for Program {
    ghost use Rattle.pv_frame.specs.declared.program.Program as frame;

    ghost Value = { frame.Program };

    ghost view = { λ p. p.program };
}

impl Program {
    /// The program of the method at a place of a class, or the first cause for which the method is
    /// refused. `Memory` says nothing of the method.
    ///
    /// The method has a code and a descriptor, and the class a well-formed constant pool, as every
    /// class file that was read.
    pub fn new(alloc: Global, class: &ClassFile, method: usize) -> Result<Program, Refused>
        requires code { HasCode class.now method }
        requires references { HasReferences class.now }
        ensures accepted { IfOk result (λ p. IsAcceptedAt class.now method p) }
        ensures refused { (c : Cause) → result ≡ Err (Refused.Cause c) → IsRefusedAt class.now method c }
        ensures only { (c : Cause) → IsRefusedAt class.now method c → RefusesAs c result }
    {
        let typed = infer(alloc, class, method)?;
        Ok(Program {
            program: typed.program,
        })
    }
}
