//! Calls of `pv_class`.
//!
//! | Line | Answer |
//! |---|---|
//! | `class BYTES` | how many indices the constant pool has, and each method: its name, descriptor and flags in hexadecimal, its code, max_stack, max_locals and number of handlers; or the fault |

use cases_words::answers::{Answer, List, NoAnswer, shown};
use cases_words::bench::Bench;
use cases_words::values::escaped;
use pv_class::{ClassFault, ClassFile, Method, read_class};
use std::alloc::Global;

/// `class BYTES`
pub fn class(bench: &Bench, rest: &str) -> Answer {
    match read_class(bench.alloc(), &bench.bytes(rest)?) {
        Ok(class) => class_text(bench.alloc(), &class),
        Err(fault) => fault_text(bench.alloc(), fault),
    }
}

fn class_text(alloc: Global, class: &ClassFile) -> Answer {
    let mut list = List::new(alloc);
    let indices = class.pool.slots().len();
    list.add(format!(in alloc; "{indices} indices")?.as_str())?;
    for method in class.methods.as_slice() {
        list.add(method_text(alloc, method)?.as_str())?;
    }
    list.into_text()
}

fn method_text(alloc: Global, method: &Method) -> Answer {
    let name = escaped(alloc, method.name.bytes())?;
    let desc = escaped(alloc, method.desc.bytes())?;
    let flags = method.flags;
    let Some(code) = &method.code else {
        return Ok(format!(in alloc; "{name} {desc} {flags:04X} no code")?);
    };
    let bytes = hex::encode_upper(alloc, code.bytes.as_slice())?;
    let (stack, locals, handlers) = (code.max_stack, code.max_locals, code.handlers);
    Ok(format!(in alloc; "{name} {desc} {flags:04X} {bytes} {stack} {locals} {handlers}")?)
}

/// A fault, with its place.
pub fn fault_text(alloc: Global, fault: ClassFault) -> Answer {
    match fault {
        ClassFault::Memory => Err(NoAnswer::Memory),
        _ => shown(alloc, fault),
    }
}
