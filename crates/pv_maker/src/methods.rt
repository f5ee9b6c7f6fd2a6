//! The lines of the methods that are made.

ghost use Rattle.std.specs.Prelude.{◌≡◌, ◌++◌, OnOk, IfOk};
ghost use Rattle.pv_maker.specs.declared.methods.Loop.TheVariants as turns;
ghost use Rattle.pv_maker.specs.Methods.{plain, load, store, bipush, product, sum, local_of, head_of, end_of, loop_start, loop_end, loop, add, turn, looping, body, title, method, listing};

use crate::draws::{Draw, Shape, next_draw};
use pv_list::Listed;
use pv_listing::{Line, Operands, Title};
use pv_token::push_decimal;
use pv_value::{Memory, Name};
use std::alloc::{AllocError, Global};

// Opcodes (JVMS 6.5).
const ICONST_0: u8 = 3;

const BIPUSH: u8 = 16;

const ILOAD: u8 = 21;

const ILOAD_0: u8 = 26;

const ISTORE: u8 = 54;

const ISTORE_0: u8 = 59;

const IADD: u8 = 96;

const IMUL: u8 = 104;

const IINC: u8 = 132;

const IF_ICMPGE: u8 = 162;

const GOTO: u8 = 167;

const IRETURN: u8 = 172;

/// The locals that have instructions of their own, as iload_0 to iload_3.
const SHORT_LOCALS: u8 = 4;

/// The parameters, and the local that is added to.
const A: u8 = 0;

const B: u8 = 1;

const S: u8 = 2;

/// The loops of a method.
#[derive(Clone, Copy)]
pub(crate) enum Loop {
    Outer,
    Inner,
}

impl Loop {
    // The local that counts the turns.
    fn local(self) -> u8
        ensures { result ≡ local_of self }
    {
        match self {
            Loop::Outer => 3,
            Loop::Inner => 4,
        }
    }

    // The label where a turn begins.
    fn head(self) -> &'static [u8]
        ensures { result.now ≡ head_of self }
    {
        match self {
            Loop::Outer => b"H",
            Loop::Inner => b"K",
        }
    }

    // The label where the loop ends.
    fn end(self) -> &'static [u8]
        ensures { result.now ≡ end_of self }
    {
        match self {
            Loop::Outer => b"E",
            Loop::Inner => b"L",
        }
    }
}

fn plain(op: u8) -> Line
    ensures { result ≡ plain op }
{
    Line::Instruction(op, Operands::Nothing)
}

fn load(local: u8) -> Line
    ensures { result ≡ load local }
{
    if local < SHORT_LOCALS {
        plain(ILOAD_0 + local)
    } else {
        Line::Instruction(ILOAD, Operands::Local(local))
    }
}

fn store(local: u8) -> Line
    ensures { result ≡ store local }
{
    if local < SHORT_LOCALS {
        plain(ISTORE_0 + local)
    } else {
        Line::Instruction(ISTORE, Operands::Local(local))
    }
}

fn bipush(constant: u8) -> Line
    ensures { result ≡ bipush constant }
{
    Line::Instruction(BIPUSH, Operands::Number(i16::from(constant)))
}

// The factor times a constant.
fn push_product(out: &mut Vec<Line>, factor: Line, constant: u8) -> Result<(), AllocError>
    ensures { OnOk result (out.new.items ≡ out.old.items ++ product factor constant) }
{
    out.push(factor)?;
    out.push(bipush(constant))?;
    out.push(plain(IMUL))?;
    Ok(())
}

// The sum of a term and a product, in one order or the other.
fn push_sum(
    out: &mut Vec<Line>,
    term_first: bool,
    term: Line,
    factor: Line,
    constant: u8,
) -> Result<(), AllocError>
    ensures { OnOk result (out.new.items ≡ out.old.items ++ sum term_first term factor constant) }
{
    if term_first {
        out.push(term)?;
        push_product(out, factor, constant)?;
        out.push(plain(IADD))?;
        Ok(())
    } else {
        push_product(out, factor, constant)?;
        out.push(term)?;
        out.push(plain(IADD))?;
        Ok(())
    }
}

// What stands before the body of a loop.
fn push_start(alloc: Global, out: &mut Vec<Line>, turns: Loop) -> Result<(), Memory>
    ensures { OnOk result (out.new.items ≡ out.old.items ++ loop_start turns) }
{
    let local = turns.local();
    let head = Name::new(alloc, turns.head())?;
    let end = Name::new(alloc, turns.end())?;
    out.push(plain(ICONST_0))?;
    out.push(store(local))?;
    out.push(Line::Label(head))?;
    out.push(load(local))?;
    out.push(load(B))?;
    out.push(Line::Instruction(IF_ICMPGE, Operands::Label(end)))?;
    Ok(())
}

// What stands after the body of a loop.
fn push_end(alloc: Global, out: &mut Vec<Line>, turns: Loop) -> Result<(), Memory>
    ensures { OnOk result (out.new.items ≡ out.old.items ++ loop_end turns) }
{
    let head = Name::new(alloc, turns.head())?;
    let end = Name::new(alloc, turns.end())?;
    out.push(Line::Instruction(IINC, Operands::Increment(turns.local(), 1)))?;
    out.push(Line::Instruction(GOTO, Operands::Label(head)))?;
    out.push(Line::Label(end))?;
    Ok(())
}

// Local 2 is its sum with the constant times the local that counts the turns.
fn push_add(out: &mut Vec<Line>, twin: bool, turns: Loop, constant: u8) -> Result<(), AllocError>
    ensures { OnOk result (out.new.items ≡ out.old.items ++ add twin turns constant) }
{
    push_sum(out, !twin, load(S), load(turns.local()), constant)?;
    out.push(store(S))?;
    Ok(())
}

// What the outer loop does in a turn.
fn push_turn(
    alloc: Global,
    out: &mut Vec<Line>,
    twin: bool,
    nested: bool,
    constant: u8,
) -> Result<(), Memory>
    ensures { OnOk result (out.new.items ≡ out.old.items ++ turn twin nested constant) }
{
    if nested {
        push_start(alloc, out, Loop::Inner)?;
        push_add(out, twin, Loop::Inner, constant)?;
        push_end(alloc, out, Loop::Inner)
    } else {
        push_add(out, twin, Loop::Outer, constant)?;
        Ok(())
    }
}

// The body of a method with one loop, or with a loop within a loop.
fn push_loops(
    alloc: Global,
    out: &mut Vec<Line>,
    twin: bool,
    nested: bool,
    constant: u8,
) -> Result<(), Memory>
    ensures { OnOk result (out.new.items ≡ out.old.items ++ looping (loop turns.Outer (turn twin nested constant))) }
{
    out.push(load(A))?;
    out.push(store(S))?;
    push_start(alloc, out, Loop::Outer)?;
    push_turn(alloc, out, twin, nested, constant)?;
    push_end(alloc, out, Loop::Outer)?;
    out.push(load(S))?;
    out.push(plain(IRETURN))?;
    Ok(())
}

// The lines between the head of a method and its end.
fn push_body(alloc: Global, out: &mut Vec<Line>, twin: bool, d: Draw) -> Result<(), Memory>
    ensures { OnOk result (out.new.items ≡ out.old.items ++ body twin d.shape d.constant) }
{
    match d.shape {
        Shape::Sum => {
            push_sum(out, twin, load(B), load(A), d.constant)?;
            out.push(plain(IRETURN))?;
            Ok(())
        }
        Shape::Loop => push_loops(alloc, out, twin, false, d.constant),
        Shape::Nested => push_loops(alloc, out, twin, true, d.constant),
    }
}

// The head of the method of a number.
fn title_line(alloc: Global, i: u32) -> Result<Line, Memory>
    ensures { IfOk result (λ line. line ≡ title i) }
{
    let mut name = Vec::from_slice(alloc, b"m")?;
    push_decimal(&mut name, i as usize)?;
    Ok(Line::Method(Title {
        is_static: true,
        name: Name::new(alloc, &name)?,
        desc: Name::new(alloc, b"(II)I")?,
        stack: 3,
        locals: 5,
    }))
}

// The lines of the method of a number.
fn push_method(
    alloc: Global,
    out: &mut Vec<Line>,
    twin: bool,
    i: u32,
    d: Draw,
) -> Result<(), Memory>
    ensures { OnOk result (out.new.items ≡ out.old.items ++ method twin i d) }
{
    let head = title_line(alloc, i)?;
    out.push(head)?;
    push_body(alloc, out, twin, d)?;
    out.push(Line::End)?;
    Ok(())
}

/// The listing of `count` random methods that the draws from a seed give, or of their twins, each of which adds in
/// the other order.
#[tactic(auto, using(crate::proofs::Steps::methods_next, crate::proofs::Steps::after_next))]
pub fn listing(alloc: Global, seed: u64, count: u32, twin: bool) -> Result<Listed<Line>, Memory>
    ensures { IfOk result (λ all. all ≡ listing seed count twin) }
{
    let name = Name::new(alloc, b"G")?;
    let mut out = Vec::new(alloc);
    out.push(Line::Class(name))?;
    let mut state = seed;
    for i in 0..count {
        let (d, next) = next_draw(state);
        push_method(alloc, &mut out, twin, i, d)?;
        state = next;
    }
    Ok(Listed::from(out))
}
