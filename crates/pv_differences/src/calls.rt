//! Calls in the code of a method (JVMS 6.5).

ghost use Rattle.std.specs.Prelude.{◌≡◌, ◌↔◌, ◌<◌, IfOk, IsTrue, length};
ghost use Rattle.pv_differences.specs.Calls.{HasCall, IsCall, SomeCall};
ghost use Rattle.pv_differences.specs.Reading.{MakesCallsAt};

use pv_class::ClassFile;
use pv_insn::{CodeFault, Insn, Placed, decode};
use pv_value::Memory;
use std::alloc::Global;

/// The opcode of invokevirtual, the first of the calls.
const FIRST_CALL: u8 = 182;

/// The opcode of invokeinterface, the last of them.
const LAST_CALL: u8 = 185;

/// Whether the method at a place of a class has a code with a call.
pub(crate) fn makes_calls(alloc: Global, class: &ClassFile, method: usize) -> Result<bool, Memory>
    requires { method < length class.now.methods }
    ensures { IfOk result (λ yes. MakesCallsAt class.now method yes) }
{
    match &class.methods.as_slice()[method].code {
        None => Ok(false),
        Some(code) => has_call(alloc, code.bytes.as_slice()),
    }
}

// Whether some bytes are a code with a call.
fn has_call(alloc: Global, bytes: &[u8]) -> Result<bool, Memory>
    ensures { IfOk result (λ yes. IsTrue yes ↔ HasCall bytes.now) }
{
    match decode(alloc, bytes) {
        Ok(insns) => Ok(some_call(insns.as_slice())),
        Err(fault) => match fault {
            CodeFault::Memory => Err(Memory),
            _ => Ok(false),
        },
    }
}

// Whether some instruction is a call.
fn some_call(insns: &[Placed]) -> bool
    ensures { IsTrue result ↔ SomeCall insns.now }
{
    for placed in insns {
        if is_call(&placed.insn) {
            return true;
        }
    }
    false
}

fn is_call(insn: &Insn) -> bool
    ensures { IsTrue result ↔ IsCall insn.now }
{
    matches!(insn, Insn::Pool(FIRST_CALL..=LAST_CALL, _))
}
