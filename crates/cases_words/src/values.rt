//! Calls of `pv_value`.
//!
//! | Line | Answer |
//! |---|---|
//! | `field-type BYTES` | the type, if it is one |
//! | `descriptor BYTES` | the types of the parameters and that of the result, if it has one; or `None` |
//! | `name BYTES` | the bytes of the name, as a text |
//! | `numbers NUMBER ..` | the numbers of the list |
//! | `scalar OPERATION NUMBER NUMBER` | the value |
//! | `heap STEP; ..` | what each step on one heap, empty at first, answers |
//!
//! A NUMBER is `5` for an int, `5L` for a long and `5R` for a reference. A STEP is `get PLACE`, which answers the number there, or
//! `put PLACE NUMBER`. A PLACE is `int:7:3`, element 3 of the int array 7, and so for the kinds
//! `long`, `ref`, `byte`, `char` and `short`; `static:C:f:I`, a static field; or `field:7:C:f:I`, a field
//! of the object 7.

ghost use Rattle.std.specs.Prelude.{IsTrue, FitsSigned};
ghost use Rattle.std.specs.Int.{w32};
ghost use Rattle.pv_value.specs.Operations.{AreOperands};

use crate::answers::{Answer, List, NoAnswer, said, shown};
use crate::bench::{Bench, named, number, unescaped, words};
use percent_encoding::{AsciiSet, CONTROLS, percent_encode};
use pv_list::Listed;
use pv_value::{
    Heap, Kind, Loc, Name, Num, Outcome, ScalarOp, Sym, read_descriptor, read_field_type, scalar,
};
use std::alloc::Global;

/// The operations by their names.
pub const OPERATIONS: [(&str, ScalarOp); 33] = [
    ("iadd", ScalarOp::Iadd),
    ("isub", ScalarOp::Isub),
    ("imul", ScalarOp::Imul),
    ("idiv", ScalarOp::Idiv),
    ("irem", ScalarOp::Irem),
    ("ishl", ScalarOp::Ishl),
    ("ishr", ScalarOp::Ishr),
    ("iushr", ScalarOp::Iushr),
    ("iand", ScalarOp::Iand),
    ("ior", ScalarOp::Ior),
    ("ixor", ScalarOp::Ixor),
    ("ieq", ScalarOp::Ieq),
    ("ilt", ScalarOp::Ilt),
    ("ineg", ScalarOp::Ineg),
    ("i2b", ScalarOp::I2b),
    ("i2c", ScalarOp::I2c),
    ("i2s", ScalarOp::I2s),
    ("i2l", ScalarOp::I2l),
    ("ladd", ScalarOp::Ladd),
    ("lsub", ScalarOp::Lsub),
    ("lmul", ScalarOp::Lmul),
    ("ldiv", ScalarOp::Ldiv),
    ("lrem", ScalarOp::Lrem),
    ("lshl", ScalarOp::Lshl),
    ("lshr", ScalarOp::Lshr),
    ("lushr", ScalarOp::Lushr),
    ("land", ScalarOp::Land),
    ("lor", ScalarOp::Lor),
    ("lxor", ScalarOp::Lxor),
    ("leq", ScalarOp::Leq),
    ("lcmp", ScalarOp::Lcmp),
    ("lneg", ScalarOp::Lneg),
    ("l2i", ScalarOp::L2i),
];

/// The kinds of elements by their names.
pub const KINDS: [(&str, Kind); 6] = [
    ("int", Kind::Int),
    ("long", Kind::Long),
    ("ref", Kind::Ref),
    ("byte", Kind::Byte),
    ("char", Kind::Char),
    ("short", Kind::Short),
];

// What is written as `%` and two digits in a text: all that isn't visible, and `%`.
fn escapes() -> AsciiSet {
    CONTROLS.add(b' ').add(b'%')
}

/// Bytes as a text, `-` for none.
pub fn escaped(alloc: Global, bytes: &[u8]) -> Answer {
    if bytes.is_empty() {
        return said(alloc, "-");
    }
    let mut text = String::new(alloc);
    percent_encode(bytes, escapes()).append_to(&mut text)?;
    Ok(text)
}

/// `field-type BYTES`
pub fn field_type(bench: &Bench, rest: &str) -> Answer {
    shown(bench.alloc(), read_field_type(&bench.bytes(rest)?))
}

/// `descriptor BYTES`
pub fn descriptor(bench: &Bench, rest: &str) -> Answer {
    let alloc = bench.alloc();
    let Some(desc) = read_descriptor(alloc, &bench.bytes(rest)?)? else {
        return said(alloc, "None");
    };
    shown(alloc, (desc.params.as_slice(), desc.result))
}

/// `name BYTES`
pub fn name(bench: &Bench, rest: &str) -> Answer {
    let name = Name::new(bench.alloc(), &bench.bytes(rest)?)?;
    escaped(bench.alloc(), name.bytes())
}

/// `numbers NUMBER ..`
pub fn numbers(bench: &Bench, rest: &str) -> Answer {
    let alloc = bench.alloc();
    let nums = read_nums(alloc, &words(alloc, rest)?)?;
    shown(alloc, nums.as_slice())
}

/// The list of numbers that words write.
pub fn read_nums(alloc: Global, words: &[&str]) -> Result<Listed<Num>, NoAnswer> {
    let mut nums = Vec::new(alloc);
    for word in words {
        nums.push(read_num(word)?)?;
    }
    Ok(Listed::from(nums))
}

/// The number that a word writes.
pub fn read_num(word: &str) -> Result<Num, NoAnswer> {
    if let Some(long) = word.strip_suffix('L') {
        return Ok(Num::Long(number(long)?));
    }
    match word.strip_suffix('R') {
        Some(reference) => Ok(Num::Ref(number(reference)?)),
        None => Ok(Num::Int(number(word)?)),
    }
}

/// `scalar OPERATION NUMBER NUMBER`
pub fn scalar_value(bench: &Bench, rest: &str) -> Answer {
    let words = words(bench.alloc(), rest)?;
    let [op, a, b] = *words.as_slice() else {
        return Err(NoAnswer::Unreadable);
    };
    let op = named(&OPERATIONS, op)?;
    let (a, b) = (number(a)?, number(b)?);
    if !are_operands(op, a, b) {
        return Err(NoAnswer::Unreadable);
    }
    shown(bench.alloc(), scalar(op, a, b))
}

// Whether the operands are in the range of what an operation takes, if it takes two.
fn are_operands(op: ScalarOp, a: i64, b: i64) -> bool
    ensures { IsTrue result → AreOperands op a b }
{
    match op {
        ScalarOp::Ladd
        | ScalarOp::Lsub
        | ScalarOp::Lmul
        | ScalarOp::Ldiv
        | ScalarOp::Lrem
        | ScalarOp::Land
        | ScalarOp::Lor
        | ScalarOp::Lxor
        | ScalarOp::Leq
        | ScalarOp::Lcmp
        | ScalarOp::Lneg
        | ScalarOp::L2i => true,
        ScalarOp::Lshl | ScalarOp::Lshr | ScalarOp::Lushr => is_int(b),
        _ => is_int(a) && is_int(b),
    }
}

fn is_int(n: i64) -> bool
    ensures { IsTrue result → FitsSigned w32 n }
{
    i32::try_from(n).is_ok()
}

/// `heap STEP; ..`
pub fn heap(bench: &Bench, rest: &str) -> Answer {
    let alloc = bench.alloc();
    let mut heap = Heap::new(alloc);
    let mut list = List::new(alloc);
    for step in rest.split(';') {
        list.add(heap_step(alloc, &mut heap, step)?.as_str())?;
    }
    list.into_text()
}

fn heap_step(alloc: Global, heap: &mut Heap, step: &str) -> Answer {
    match *words(alloc, step)?.as_slice() {
        ["get", place] => shown(alloc, heap.get(&read_place(alloc, place)?)),
        ["put", place, n] => {
            heap.put(read_place(alloc, place)?, number(n)?)?;
            said(alloc, "ok")
        }
        _ => Err(NoAnswer::Unreadable),
    }
}

/// The place that a word writes.
pub fn read_place(alloc: Global, word: &str) -> Result<Loc, NoAnswer> {
    let parts: Vec<&str> = word.split(':').collect(alloc)?;
    match *parts.as_slice() {
        ["static", class, name, desc] => Ok(Loc::Static(read_sym(alloc, class, name, desc)?)),
        ["field", object, class, name, desc] => Ok(Loc::Field(
            number(object)?,
            read_sym(alloc, class, name, desc)?,
        )),
        [kind, array, index] => Ok(Loc::Elem(named(&KINDS, kind)?, number(array)?, number(index)?)),
        _ => Err(NoAnswer::Unreadable),
    }
}

/// The symbol with these names.
pub fn read_sym(alloc: Global, class: &str, name: &str, desc: &str) -> Result<Sym, NoAnswer> {
    Ok(Sym {
        class: read_name(alloc, class)?,
        name: read_name(alloc, name)?,
        desc: read_name(alloc, desc)?,
    })
}

/// The name that a text writes.
pub fn read_name(alloc: Global, text: &str) -> Result<Name, NoAnswer> {
    Ok(Name::new(alloc, &unescaped(alloc, text)?)?)
}

/// How a method ended, and the heap at its end.
pub fn outcome_text(alloc: Global, outcome: Outcome) -> Result<(String, Heap), NoAnswer> {
    Ok(match outcome {
        Outcome::Returned(value, heap) => (format!(in alloc; "Returned({value:?})")?, heap),
        Outcome::Threw(fault, heap) => (format!(in alloc; "Threw({fault:?})")?, heap),
    })
}
