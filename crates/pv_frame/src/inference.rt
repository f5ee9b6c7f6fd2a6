//! Typed frames of a method, or why it is refused.

ghost use Rattle.std.specs.Prelude.{◌≡◌, ◌+◌, ◌≤◌, MatchOption};
ghost use Rattle.pv_frame.specs.Answers.{HasCode, HasReferences, Said, IsAnswer, IsOnly, Answers, AnswersOnly};
ghost use Rattle.pv_frame.specs.Rows.{IsPlain, IsEarly, IsCoded, refused_for};

use crate::acting::{acted, is_floatless_method};
use crate::cause::{Cause, CauseKind, Refused};
use crate::program::Program;
use crate::spreading::frames_of;
use crate::stop::Untyped;
use crate::typed::Typed;
use pv_class::{ACC_STATIC, ACC_SYNCHRONIZED, ClassFile, Code, Method};
use pv_insn::{CodeFault, decode};
use pv_value::{Descriptor, read_descriptor};
use std::alloc::Global;

/// The most bytes of a code that is accepted.
pub const LONGEST_CODE: usize = 8192;

/// The most places that its operand stack and its locals take together.
pub const MOST_SLOTS: u32 = 64;

/// The first cause that needs no look at the instructions.
fn early_cause(method: &Method, code: &Code, desc: &Descriptor) -> Option<CauseKind>
    ensures { MatchOption result
        (IsPlain method.now code.now desc.now)
        (IsEarly method.now code.now desc.now) }
{
    if code.handlers != 0 {
        return Some(CauseKind::Handler);
    }
    if method.flags & ACC_SYNCHRONIZED != 0 {
        return Some(CauseKind::Monitor);
    }
    if code.bytes.as_slice().len() > LONGEST_CODE {
        return Some(CauseKind::LongCode);
    }
    if u32::from(code.max_stack) + u32::from(code.max_locals) > MOST_SLOTS {
        return Some(CauseKind::Slots);
    }
    if !is_floatless_method(desc) {
        return Some(CauseKind::Float);
    }
    None
}

/// What a fault of its code says of a method.
fn refused_for(fault: CodeFault) -> Refused
    ensures { result ≡ refused_for fault }
{
    match fault {
        CodeFault::Opcode(at)
        | CodeFault::Truncated(at)
        | CodeFault::Target(at)
        | CodeFault::Switch(at) => Refused::Cause(Cause {
            kind: CauseKind::Code,
            at,
        }),
        CodeFault::Memory => Refused::Memory,
    }
}

/// The instructions of a method of this code, its bytes and this type, with their typed frames, or
/// the first cause.
fn infer_method(
    alloc: Global,
    class: &ClassFile,
    method: &Method,
    code: &Code,
    bytes: &[u8],
    desc: Descriptor,
) -> Result<Typed, Refused>
    requires { IsCoded class.now method.now code.now bytes.now desc }
    ensures exact { Said result (IsAnswer class.now method.now) }
    ensures only { Said result (IsOnly class.now method.now) }
{
    if let Some(kind) = early_cause(method, code, &desc) {
        return Err(Refused::Cause(Cause { kind, at: 0 }));
    }
    let insns = match decode(alloc, bytes) {
        Ok(insns) => insns,
        Err(fault) => return Err(refused_for(fault)),
    };
    let (uses, actions) = acted(alloc, &class.pool, insns.as_slice())?;
    let program = Program {
        actions: actions.into(),
        instance: method.flags & ACC_STATIC == 0,
        desc,
        max_stack: code.max_stack,
        max_locals: code.max_locals,
    };
    match frames_of(alloc, &program) {
        Ok(frames) => Ok(Typed {
            code: insns,
            uses: uses.into(),
            program,
            frames: frames.into(),
        }),
        Err(Untyped::Types) => Err(Refused::Cause(Cause {
            kind: CauseKind::Types,
            at: 0,
        })),
        Err(Untyped::Memory) => Err(Refused::Memory),
    }
}

/// The instructions of the method at a place of a class, with their typed frames (JVMS 4.10.1), or
/// the first cause for which the method is refused.
///
/// The method has a code and a descriptor, and the class a well-formed constant pool, as in every
/// class file that was read. `Memory` says nothing of the method.
pub fn infer(alloc: Global, class: &ClassFile, method: usize) -> Result<Typed, Refused>
    requires code { HasCode class.now method }
    requires references { HasReferences class.now }
    ensures exact { Answers class.now method result }
    ensures only { AnswersOnly class.now method result }
{
    let method = &class.methods.as_slice()[method];
    let Some(code) = &method.code else {
        unreachable!()
    };
    let Some(desc) = read_descriptor(alloc, method.desc.bytes())? else {
        unreachable!()
    };
    infer_method(alloc, class, method, code, code.bytes.as_slice(), desc)
}
