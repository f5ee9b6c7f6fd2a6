//! Sides of axioms, filled in.

ghost use Rattle.std.specs.Prelude.{◌≡◌, IfOk, map, option_map};
ghost use Rattle.pv_pattern.specs.Patterns.{over_each};
ghost use Rattle.pv_pattern.specs.Seen.{each_seen, listed, seen as pattern_seen};
ghost use Rattle.pv_heights.specs.Filled.{all_filled, constant_part, each_part, each_parts, filled, narrow, over0, over1, over2};
ghost use Rattle.pv_instances.specs.Seen.{params_seen, parts, seen};

use crate::params::Params;
use crate::side::{Filled, Hole};
use pv_graph::Op;
use pv_pattern::{Each, Pattern, op_number};
use pv_value::{JType, Memory, Num, ScalarOp};
use std::alloc::Global;

// An operation over nothing.
fn over0(alloc: Global, op: Op) -> Filled
    ensures { seen result ≡ over0 op }
{
    Filled::Of(op, Vec::new(alloc))
}

// An operation over one part.
fn over1(alloc: Global, op: Op, part: Filled) -> Result<Filled, Memory>
    ensures { IfOk result (λ f. seen f ≡ over1 op (seen part)) }
{
    Ok(Filled::Of(op, vec![in alloc; part]?))
}

// An operation over two parts.
fn over2(alloc: Global, op: Op, first: Filled, second: Filled) -> Result<Filled, Memory>
    ensures { IfOk result (λ f. seen f ≡ over2 op (seen first) (seen second)) }
{
    Ok(Filled::Of(op, vec![in alloc; first, second]?))
}

// A constant.
fn constant_part(alloc: Global, n: Num) -> Option<Filled>
    ensures { option_map seen result ≡ constant_part n }
{
    match n {
        Num::Int(c) => Some(over0(alloc, Op::Int(c))),
        Num::Long(c) => Some(over0(alloc, Op::Long(c))),
        Num::Ref(_) => None,
    }
}

// What a value of a type is narrowed to.
fn narrow(alloc: Global, t: JType, side: Filled) -> Result<Filled, Memory>
    ensures { IfOk result (λ f. seen f ≡ narrow t (seen side)) }
{
    match t {
        JType::Z => {
            let one = over0(alloc, Op::Int(1));
            over2(alloc, Op::Scalar(ScalarOp::Iand), side, one)
        }
        JType::B => over1(alloc, Op::Scalar(ScalarOp::I2b), side),
        JType::C => over1(alloc, Op::Scalar(ScalarOp::I2c), side),
        JType::S => over1(alloc, Op::Scalar(ScalarOp::I2s), side),
        _ => Ok(side),
    }
}

// What the operation of a family has in place of a kid.
fn each_part(alloc: Global, params: &Params, each: Each, i: u32) -> Result<Filled, Memory>
    ensures { IfOk result (λ f. seen f ≡ each_part (params_seen params.now) (each_seen each) i) }
{
    let kid = Filled::At(Hole::Kid(i));
    match each {
        Each::Bare => Ok(kid),
        Each::Shifted => over1(alloc, Op::Shift(params.depth), kid),
        Each::Evaluated(j) => {
            let count = Filled::At(Hole::Variable(j));
            over2(alloc, Op::Eval(params.depth), kid, count)
        }
    }
}

// What the operation of a family has in place of each of its kids.
fn each_parts(alloc: Global, params: &Params, each: Each, kids: u32) -> Result<Vec<Filled>, Memory>
    ensures { IfOk result (λ fs. parts (map seen fs.items) ≡ each_parts (params_seen params.now) (each_seen each) 0 kids) }
{
    let mut made = Vec::new(alloc);
    for i in 0..kids {
        made.push(each_part(alloc, params, each, i)?)?;
    }
    Ok(made)
}

// The operation of a family over its kids, where it has this number.
fn fill_family(
    alloc: Global,
    params: &Params,
    kids: u32,
    number: u32,
    each: Each,
) -> Result<Option<Filled>, Memory>
    ensures { IfOk result (λ o. option_map seen o ≡ filled (params_seen params.now) kids (over_each number (each_seen each))) }
{
    if op_number(&params.op) != number {
        return Ok(None);
    }
    let parts = each_parts(alloc, params, each, kids)?;
    let op = params.op.copy(alloc)?;
    Ok(Some(Filled::Of(op, parts)))
}

/// A side of an axiom with its names filled in, where its family has this many kids; `None` where a fold gives no
/// constant, a descriptor is of no type, or the operation isn't of the family.
#[cycle(fill)]
pub fn fill(
    alloc: Global,
    params: &Params,
    kids: u32,
    pattern: &Pattern,
) -> Result<Option<Filled>, Memory>
    ensures { IfOk result (λ o. option_map seen o ≡ filled (params_seen params.now) kids (pattern_seen pattern.now)) }
{
    match pattern {
        Pattern::Var(j) => Ok(Some(Filled::At(Hole::Variable(*j)))),
        Pattern::Constant(j) => Ok(constant_part(alloc, params.constant(*j))),
        Pattern::Fold(op, atoms) => match params.folded(*op, atoms) {
            Some(n) => Ok(constant_part(alloc, n)),
            None => Ok(None),
        },
        Pattern::Narrowed(by, inner) => match params.type_by(*by) {
            Some(t) => match fill(alloc, params, kids, inner)? {
                Some(side) => Ok(Some(narrow(alloc, t, side)?)),
                None => Ok(None),
            },
            None => Ok(None),
        },
        Pattern::Over(head, patterns) => match fill_all(alloc, params, kids, patterns)? {
            Some(parts) => Ok(Some(Filled::Of(params.head_op(alloc, *head)?, parts))),
            None => Ok(None),
        },
        Pattern::OverEach(number, each) => fill_family(alloc, params, kids, *number, *each),
    }
}

// Patterns with their names filled in, one after another.
#[cycle(fill)]
fn fill_all(
    alloc: Global,
    params: &Params,
    kids: u32,
    patterns: &[Pattern],
) -> Result<Option<Vec<Filled>>, Memory>
    ensures { IfOk result (λ o. option_map (λ fs. parts (map seen fs.items)) o ≡ all_filled (params_seen params.now) kids (listed (map pattern_seen patterns.now))) }
{
    let mut made = Vec::new(alloc);
    for pattern in patterns {
        match fill(alloc, params, kids, pattern)? {
            Some(side) => made.push(side)?,
            None => return Ok(None),
        }
    }
    Ok(Some(made))
}
