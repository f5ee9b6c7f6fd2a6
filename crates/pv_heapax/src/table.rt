//! The table of the heap axioms.

ghost use Rattle.std.specs.Prelude.{◌≡◌, IfOk, map};
ghost use Rattle.pv_pattern.specs.Seen.{axiom_seen};
ghost use Rattle.pv_heapax.specs.Table.{heap_axioms};

use By::{Kind, Symbol};
use Side::{ConstantsDiffer, KindsDiffer, NotByte, Settled, SymbolsDiffer};
use Term::{Constant, Narrowed, Var};
use pv_pattern::{Axiom, By, Head, Row, Side, Term, add_axioms};
use pv_value::Memory;
use std::alloc::Global;

// Symbols by number: s is 0, and t or u is 1; kinds: K is 0, and M is 1.
macro_rules! get_s {
    ($h:expr) => {
        Term::Over1(Head::GetStatic(0), &$h)
    };
}

macro_rules! put {
    ($s:expr, $h:expr, $v:expr) => {
        Term::Over2(Head::PutStatic($s), &$h, &$v)
    };
}

macro_rules! field_s {
    ($h:expr, $o:expr) => {
        Term::Over2(Head::GetField(0), &$h, &$o)
    };
}

macro_rules! put_field {
    ($s:expr, $h:expr, $o:expr, $v:expr) => {
        Term::Over3(Head::PutField($s), &$h, &$o, &$v)
    };
}

macro_rules! load_k {
    ($h:expr, $a:expr, $i:expr) => {
        Term::Over3(Head::Load(0), &$h, &$a, &$i)
    };
}

macro_rules! store {
    ($k:expr, $h:expr, $a:expr, $i:expr, $v:expr) => {
        Term::Over4(Head::Store($k), &$h, &$a, &$i, &$v)
    };
}

// The heap before the write.
const H: Term = Var(0);

// The other variables by the order of their first places in the left side.
static HEAP_AXIOMS: [Row; 15] = [
    Row(
        501,
        get_s!(put!(0, H, Var(1))),
        Narrowed(Symbol(0), &Var(1)),
        &[Settled(0)],
    ),
    Row(
        502,
        get_s!(put!(1, H, Var(1))),
        get_s!(H),
        &[SymbolsDiffer(0, 1), Settled(1)],
    ),
    Row(
        503,
        get_s!(put_field!(1, H, Var(1), Var(2))),
        get_s!(H),
        &[Settled(1), Settled(2)],
    ),
    Row(
        504,
        get_s!(store!(0, H, Var(1), Var(2), Var(3))),
        get_s!(H),
        &[Settled(1), Settled(2), Settled(3)],
    ),
    Row(
        505,
        field_s!(put_field!(0, H, Var(1), Var(2)), Var(1)),
        Narrowed(Symbol(0), &Var(2)),
        &[Settled(0), Settled(1)],
    ),
    Row(
        506,
        field_s!(put_field!(1, H, Var(1), Var(2)), Var(3)),
        field_s!(H, Var(3)),
        &[SymbolsDiffer(0, 1), Settled(1), Settled(2)],
    ),
    Row(
        507,
        field_s!(put!(1, H, Var(1)), Var(2)),
        field_s!(H, Var(2)),
        &[Settled(1)],
    ),
    Row(
        508,
        field_s!(store!(0, H, Var(1), Var(2), Var(3)), Var(4)),
        field_s!(H, Var(4)),
        &[Settled(1), Settled(2), Settled(3)],
    ),
    Row(
        509,
        load_k!(store!(0, H, Var(1), Var(2), Var(3)), Var(1), Var(2)),
        Narrowed(Kind(0), &Var(3)),
        &[NotByte(0), Settled(0), Settled(1), Settled(2)],
    ),
    Row(
        510,
        load_k!(store!(1, H, Var(1), Var(2), Var(3)), Var(4), Var(5)),
        load_k!(H, Var(4), Var(5)),
        &[KindsDiffer(0, 1), Settled(1), Settled(2), Settled(3)],
    ),
    Row(
        511,
        load_k!(put!(1, H, Var(1)), Var(2), Var(3)),
        load_k!(H, Var(2), Var(3)),
        &[Settled(1)],
    ),
    Row(
        512,
        load_k!(put_field!(1, H, Var(1), Var(2)), Var(3), Var(4)),
        load_k!(H, Var(3), Var(4)),
        &[Settled(1), Settled(2)],
    ),
    Row(
        513,
        load_k!(
            store!(0, H, Var(1), Constant(2), Var(3)),
            Var(1),
            Constant(4)
        ),
        load_k!(H, Var(1), Constant(4)),
        &[ConstantsDiffer(2, 4), Settled(3)],
    ),
    Row(
        514,
        put!(0, put!(0, H, Var(1)), Var(2)),
        put!(0, H, Var(2)),
        &[Settled(1)],
    ),
    Row(
        515,
        put_field!(0, put_field!(0, H, Var(1), Var(2)), Var(1), Var(3)),
        put_field!(0, H, Var(1), Var(3)),
        &[Settled(2)],
    ),
];

/// The heap axioms, in order of number.
pub fn heap_axioms(alloc: Global) -> Result<Vec<Axiom>, Memory>
    ensures { IfOk result (λ v. map axiom_seen v.items ≡ heap_axioms) }
{
    let mut axioms = Vec::new(alloc);
    add_axioms(alloc, &mut axioms, &HEAP_AXIOMS)?;
    Ok(axioms)
}
