//! The table of the axioms on numbers, choices and tokens.

ghost use Rattle.std.specs.Prelude.{◌≡◌, ◌++◌, IfOk, OnOk, map};
ghost use Rattle.pv_pattern.specs.Seen.{axiom_seen};
ghost use Rattle.pv_value.specs.Operations.{int, long};
ghost use Rattle.pv_scalar.specs.Table.{scalar_axioms, twins};

use Atom::{Named, Number};
use Head::{Aeq, Both, Int, Long, Null, Phi, This, Unit};
use ScalarOp::*;
use Side::Settled;
use Term::{Constant, Fold, Over0, Over1, Over2, Over3, Var};
use pv_pattern::{Atom, Axiom, Head, Row, Side, Term, add_axioms};
use pv_value::{Memory, Num, ScalarOp};
use std::alloc::Global;

// Variables by the order of their first places in the left side: x, y and z.
const X: Term = Var(0);

const Y: Term = Var(1);

const Z: Term = Var(2);

// Operations over one pattern, over two and over three.
macro_rules! sc1 {
    ($o:expr, $p:expr) => {
        Over1(Head::Scalar($o), &$p)
    };
}

macro_rules! sc2 {
    ($o:expr, $p:expr, $q:expr) => {
        Over2(Head::Scalar($o), &$p, &$q)
    };
}

macro_rules! phi {
    ($c:expr, $a:expr, $b:expr) => {
        Over3(Phi, &$c, &$a, &$b)
    };
}

macro_rules! both {
    ($a:expr, $b:expr) => {
        Over2(Both, &$a, &$b)
    };
}

macro_rules! aeq {
    ($a:expr, $b:expr) => {
        Over2(Aeq, &$a, &$b)
    };
}

// Constants: those of ints stand by themselves too, as counts of shifts and truths do.
macro_rules! lit {
    ($word:ident, $c:expr) => {
        Over0($word($c))
    };
}

const ZERO: Term = lit!(Int, 0);

const ONE: Term = lit!(Int, 1);

// Sums and differences, of ints or of longs, whose numbers begin above `$at`.
macro_rules! sums {
    ($at:expr, $word:ident, $add:ident, $sub:ident, $neg:ident) => {
        [
            Row($at + 1, sc2!($add, X, Y), sc2!($add, Y, X), &[]),
            Row($at + 2, sc2!($add, sc2!($add, X, Y), Z), sc2!($add, X, sc2!($add, Y, Z)), &[]),
            Row($at + 3, sc2!($add, X, lit!($word, 0)), X, &[]),
            Row($at + 4, sc2!($sub, X, Y), sc2!($add, X, sc1!($neg, Y)), &[]),
            Row($at + 5, sc1!($neg, sc1!($neg, X)), X, &[]),
            Row($at + 6, sc2!($add, X, sc1!($neg, X)), lit!($word, 0), &[Settled(0)]),
            Row(
                $at + 7,
                sc1!($neg, sc2!($add, X, Y)),
                sc2!($add, sc1!($neg, X), sc1!($neg, Y)),
                &[],
            ),
        ]
    };
}

// Products; a shift by a constant is one.
macro_rules! products {
    ($at:expr, $word:ident, $add:ident, $mul:ident, $neg:ident, $shl:ident) => {
        [
            Row($at + 8, sc2!($mul, X, Y), sc2!($mul, Y, X), &[]),
            Row($at + 9, sc2!($mul, sc2!($mul, X, Y), Z), sc2!($mul, X, sc2!($mul, Y, Z)), &[]),
            Row($at + 10, sc2!($mul, X, lit!($word, 1)), X, &[]),
            Row($at + 11, sc2!($mul, X, lit!($word, 0)), lit!($word, 0), &[Settled(0)]),
            Row(
                $at + 12,
                sc2!($mul, sc2!($add, X, Y), Z),
                sc2!($add, sc2!($mul, X, Z), sc2!($mul, Y, Z)),
                &[],
            ),
            Row($at + 13, sc2!($mul, X, lit!($word, -1)), sc1!($neg, X), &[]),
            Row(
                $at + 14,
                sc2!($shl, X, Constant(1)),
                sc2!($mul, X, Fold($shl, &[Number(Num::$word(1)), Named(1)])),
                &[],
            ),
        ]
    };
}

// Bits that both have.
macro_rules! ands {
    ($at:expr, $word:ident, $and:ident) => {
        [
            Row($at + 15, sc2!($and, X, Y), sc2!($and, Y, X), &[]),
            Row($at + 16, sc2!($and, sc2!($and, X, Y), Z), sc2!($and, X, sc2!($and, Y, Z)), &[]),
            Row($at + 17, sc2!($and, X, X), X, &[]),
            Row($at + 18, sc2!($and, X, lit!($word, 0)), lit!($word, 0), &[Settled(0)]),
            Row($at + 19, sc2!($and, X, lit!($word, -1)), X, &[]),
        ]
    };
}

// Bits that one has.
macro_rules! ors {
    ($at:expr, $word:ident, $or:ident) => {
        [
            Row($at + 20, sc2!($or, X, Y), sc2!($or, Y, X), &[]),
            Row($at + 21, sc2!($or, sc2!($or, X, Y), Z), sc2!($or, X, sc2!($or, Y, Z)), &[]),
            Row($at + 22, sc2!($or, X, X), X, &[]),
            Row($at + 23, sc2!($or, X, lit!($word, 0)), X, &[]),
            Row($at + 24, sc2!($or, X, lit!($word, -1)), lit!($word, -1), &[Settled(0)]),
        ]
    };
}

// Bits that differ.
macro_rules! xors {
    ($at:expr, $word:ident, $xor:ident) => {
        [
            Row($at + 25, sc2!($xor, X, Y), sc2!($xor, Y, X), &[]),
            Row($at + 26, sc2!($xor, sc2!($xor, X, Y), Z), sc2!($xor, X, sc2!($xor, Y, Z)), &[]),
            Row($at + 27, sc2!($xor, X, X), lit!($word, 0), &[Settled(0)]),
            Row($at + 28, sc2!($xor, X, lit!($word, 0)), X, &[]),
        ]
    };
}

// Division by 1 and -1.
macro_rules! quotients {
    ($at:expr, $word:ident, $div:ident, $rem:ident, $neg:ident) => {
        [
            Row($at + 29, sc2!($div, X, lit!($word, 1)), X, &[]),
            Row($at + 30, sc2!($rem, X, lit!($word, 1)), lit!($word, 0), &[Settled(0)]),
            Row($at + 31, sc2!($div, X, lit!($word, -1)), sc1!($neg, X), &[]),
        ]
    };
}

// Shifts by 0, where counts stay int.
macro_rules! shifts {
    ($at:expr, $shl:ident, $shr:ident, $ushr:ident) => {
        [
            Row($at + 32, sc2!($shl, X, ZERO), X, &[]),
            Row($at + 33, sc2!($shr, X, ZERO), X, &[]),
            Row($at + 34, sc2!($ushr, X, ZERO), X, &[]),
        ]
    };
}

static INT_SUMS: [Row; 7] = sums!(0, Int, Iadd, Isub, Ineg);

static INT_PRODUCTS: [Row; 7] = products!(0, Int, Iadd, Imul, Ineg, Ishl);

static INT_ANDS: [Row; 5] = ands!(0, Int, Iand);

static INT_ORS: [Row; 5] = ors!(0, Int, Ior);

static INT_XORS: [Row; 4] = xors!(0, Int, Ixor);

static INT_QUOTIENTS: [Row; 3] = quotients!(0, Int, Idiv, Irem, Ineg);

static INT_SHIFTS: [Row; 3] = shifts!(0, Ishl, Ishr, Iushr);

// The long twin has the number plus 100.
static LONG_SUMS: [Row; 7] = sums!(100, Long, Ladd, Lsub, Lneg);

static LONG_PRODUCTS: [Row; 7] = products!(100, Long, Ladd, Lmul, Lneg, Lshl);

static LONG_ANDS: [Row; 5] = ands!(100, Long, Land);

static LONG_ORS: [Row; 5] = ors!(100, Long, Lor);

static LONG_XORS: [Row; 4] = xors!(100, Long, Lxor);

static LONG_QUOTIENTS: [Row; 3] = quotients!(100, Long, Ldiv, Lrem, Lneg);

static LONG_SHIFTS: [Row; 3] = shifts!(100, Lshl, Lshr, Lushr);

// Without a long twin.
static INTS: [Row; 7] = [
    Row(37, sc2!(Ieq, X, Y), sc2!(Ieq, Y, X), &[]),
    Row(38, sc2!(Ieq, X, X), ONE, &[Settled(0)]),
    Row(39, sc2!(Ilt, X, X), ZERO, &[Settled(0)]),
    Row(40, sc1!(I2b, sc1!(I2b, X)), sc1!(I2b, X), &[]),
    Row(41, sc1!(I2c, sc1!(I2c, X)), sc1!(I2c, X), &[]),
    Row(42, sc1!(I2s, sc1!(I2s, X)), sc1!(I2s, X), &[]),
    Row(43, sc1!(L2i, sc1!(I2l, X)), X, &[]),
];

static REFS: [Row; 3] = [
    Row(44, aeq!(X, Y), aeq!(Y, X), &[]),
    Row(45, aeq!(X, X), ONE, &[Settled(0)]),
    Row(46, aeq!(Over0(This), Over0(Null)), ZERO, &[]),
];

static LONGS: [Row; 3] = [
    Row(137, sc2!(Leq, X, Y), sc2!(Leq, Y, X), &[]),
    Row(138, sc2!(Leq, X, X), ONE, &[Settled(0)]),
    Row(139, sc2!(Lcmp, X, X), ZERO, &[Settled(0)]),
];

// Folds of two constants and of one.
macro_rules! folded2 {
    ($n:expr, $o:ident) => {
        Row($n, sc2!($o, Constant(0), Constant(1)), Fold($o, &[Named(0), Named(1)]), &[])
    };
}

macro_rules! folded1 {
    ($n:expr, $o:ident) => {
        Row($n, sc1!($o, Constant(0)), Fold($o, &[Named(0)]), &[])
    };
}

static INT_FOLDS: [Row; 18] = [
    folded2!(60, Iadd),
    folded2!(61, Isub),
    folded2!(62, Imul),
    folded2!(63, Idiv),
    folded2!(64, Irem),
    folded2!(65, Ishl),
    folded2!(66, Ishr),
    folded2!(67, Iushr),
    folded2!(68, Iand),
    folded2!(69, Ior),
    folded2!(70, Ixor),
    folded2!(71, Ieq),
    folded2!(72, Ilt),
    folded1!(73, Ineg),
    folded1!(74, I2b),
    folded1!(75, I2c),
    folded1!(76, I2s),
    folded1!(77, I2l),
];

static LONG_FOLDS: [Row; 15] = [
    folded2!(160, Ladd),
    folded2!(161, Lsub),
    folded2!(162, Lmul),
    folded2!(163, Ldiv),
    folded2!(164, Lrem),
    folded2!(165, Lshl),
    folded2!(166, Lshr),
    folded2!(167, Lushr),
    folded2!(168, Land),
    folded2!(169, Lor),
    folded2!(170, Lxor),
    folded2!(171, Leq),
    folded2!(172, Lcmp),
    folded1!(173, Lneg),
    folded1!(174, L2i),
];

static CHOICES: [Row; 6] = [
    Row(201, phi!(ZERO, Var(0), Var(1)), Var(1), &[]),
    Row(202, phi!(ONE, Var(0), Var(1)), Var(0), &[]),
    Row(203, phi!(Var(0), Var(1), Var(1)), Var(1), &[Settled(0)]),
    Row(
        204,
        phi!(Var(0), phi!(Var(0), Var(1), Var(2)), Var(3)),
        phi!(Var(0), Var(1), Var(3)),
        &[],
    ),
    Row(
        205,
        phi!(Var(0), Var(1), phi!(Var(0), Var(2), Var(3))),
        phi!(Var(0), Var(1), Var(3)),
        &[],
    ),
    Row(
        206,
        phi!(phi!(Var(0), Var(1), Var(2)), Var(3), Var(4)),
        phi!(
            Var(0),
            phi!(Var(1), Var(3), Var(4)),
            phi!(Var(2), Var(3), Var(4))
        ),
        &[],
    ),
];

static TOKENS: [Row; 4] = [
    Row(210, both!(Var(0), Var(1)), both!(Var(1), Var(0)), &[]),
    Row(
        211,
        both!(both!(Var(0), Var(1)), Var(2)),
        both!(Var(0), both!(Var(1), Var(2))),
        &[],
    ),
    Row(212, both!(Var(0), Var(0)), Var(0), &[]),
    Row(213, both!(Over0(Unit), Var(0)), Var(0), &[]),
];

// Adds the axioms of sums, products, bits, quotients and shifts of ints.
fn add_int_twins(alloc: Global, axioms: &mut Vec<Axiom>) -> Result<(), Memory>
    ensures { OnOk result (map axiom_seen axioms.new.items ≡ map axiom_seen axioms.old.items ++ twins int) }
{
    add_axioms(alloc, axioms, &INT_SUMS)?;
    add_axioms(alloc, axioms, &INT_PRODUCTS)?;
    add_axioms(alloc, axioms, &INT_ANDS)?;
    add_axioms(alloc, axioms, &INT_ORS)?;
    add_axioms(alloc, axioms, &INT_XORS)?;
    add_axioms(alloc, axioms, &INT_QUOTIENTS)?;
    add_axioms(alloc, axioms, &INT_SHIFTS)?;
    Ok(())
}

// The same of longs.
fn add_long_twins(alloc: Global, axioms: &mut Vec<Axiom>) -> Result<(), Memory>
    ensures { OnOk result (map axiom_seen axioms.new.items ≡ map axiom_seen axioms.old.items ++ twins long) }
{
    add_axioms(alloc, axioms, &LONG_SUMS)?;
    add_axioms(alloc, axioms, &LONG_PRODUCTS)?;
    add_axioms(alloc, axioms, &LONG_ANDS)?;
    add_axioms(alloc, axioms, &LONG_ORS)?;
    add_axioms(alloc, axioms, &LONG_XORS)?;
    add_axioms(alloc, axioms, &LONG_QUOTIENTS)?;
    add_axioms(alloc, axioms, &LONG_SHIFTS)?;
    Ok(())
}

/// The axioms on numbers, choices and tokens, in order of number.
pub fn scalar_axioms(alloc: Global) -> Result<Vec<Axiom>, Memory>
    ensures { IfOk result (λ v. map axiom_seen v.items ≡ scalar_axioms) }
{
    let mut axioms = Vec::new(alloc);
    add_int_twins(alloc, &mut axioms)?;
    add_axioms(alloc, &mut axioms, &INTS)?;
    add_axioms(alloc, &mut axioms, &REFS)?;
    add_axioms(alloc, &mut axioms, &INT_FOLDS)?;
    add_long_twins(alloc, &mut axioms)?;
    add_axioms(alloc, &mut axioms, &LONGS)?;
    add_axioms(alloc, &mut axioms, &LONG_FOLDS)?;
    add_axioms(alloc, &mut axioms, &CHOICES)?;
    add_axioms(alloc, &mut axioms, &TOKENS)?;
    Ok(axioms)
}
