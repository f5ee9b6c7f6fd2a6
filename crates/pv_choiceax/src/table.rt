//! The table of the axioms on operations over choices, choices under choices, truths and conversions.

ghost use Rattle.std.specs.Prelude.{◌≡◌, IfOk, map};
ghost use Rattle.pv_pattern.specs.Seen.{axiom_seen};
ghost use Rattle.pv_choiceax.specs.Table.{choice_axioms};

use Head::{Aeq, GetField, GetStatic, Int, IsClear, Length, Load, Phi, Scalar, Succ, Thrown};
use ScalarOp::*;
use Term::{Over0, Over1, Over2, Over3, Var};
use pv_pattern::{Axiom, Head, Row, Term, add_axioms};
use pv_value::{Memory, ScalarOp};
use std::alloc::Global;

// Variables by the order of their first places in the left side.
const V0: Term = Var(0);

const V1: Term = Var(1);

const V2: Term = Var(2);

const V3: Term = Var(3);

const V4: Term = Var(4);

macro_rules! phi {
    ($c:expr, $a:expr, $b:expr) => {
        Over3(Phi, &$c, &$a, &$b)
    };
}

// An operation of one kid, over a choice.
macro_rules! choice_of_1 {
    ($n:expr, $h:expr) => {
        Row($n, Over1($h, &phi!(V0, V1, V2)), phi!(V0, Over1($h, &V1), Over1($h, &V2)), &[])
    };
}

// An operation of two kids, of which the first is a choice, and of which the second is one.
macro_rules! first_of_2 {
    ($n:expr, $h:expr) => {
        Row(
            $n,
            Over2($h, &phi!(V0, V1, V2), &V3),
            phi!(V0, Over2($h, &V1, &V3), Over2($h, &V2, &V3)),
            &[],
        )
    };
}

macro_rules! second_of_2 {
    ($n:expr, $h:expr) => {
        Row(
            $n,
            Over2($h, &V0, &phi!(V1, V2, V3)),
            phi!(V1, Over2($h, &V0, &V2), Over2($h, &V0, &V3)),
            &[],
        )
    };
}

// The same of operations on numbers.
macro_rules! single {
    ($n:expr, $o:ident) => {
        choice_of_1!($n, Scalar($o))
    };
}

macro_rules! first {
    ($n:expr, $o:ident) => {
        first_of_2!($n, Scalar($o))
    };
}

macro_rules! second {
    ($n:expr, $o:ident) => {
        second_of_2!($n, Scalar($o))
    };
}

static COUNTS_AND_FAULTS: [Row; 3] = [
    choice_of_1!(3140, Succ),
    choice_of_1!(3150, Thrown),
    choice_of_1!(3160, IsClear),
];

static INT_PAIRS: [Row; 26] = [
    first!(3300, Iadd),
    second!(3301, Iadd),
    first!(3310, Isub),
    second!(3311, Isub),
    first!(3320, Imul),
    second!(3321, Imul),
    first!(3330, Idiv),
    second!(3331, Idiv),
    first!(3340, Irem),
    second!(3341, Irem),
    first!(3350, Ishl),
    second!(3351, Ishl),
    first!(3360, Ishr),
    second!(3361, Ishr),
    first!(3370, Iushr),
    second!(3371, Iushr),
    first!(3380, Iand),
    second!(3381, Iand),
    first!(3390, Ior),
    second!(3391, Ior),
    first!(3400, Ixor),
    second!(3401, Ixor),
    first!(3410, Ieq),
    second!(3411, Ieq),
    first!(3420, Ilt),
    second!(3421, Ilt),
];

static INT_SINGLES: [Row; 5] = [
    single!(3430, Ineg),
    single!(3440, I2b),
    single!(3450, I2c),
    single!(3460, I2s),
    single!(3470, I2l),
];

static LONG_PAIRS: [Row; 26] = [
    first!(3500, Ladd),
    second!(3501, Ladd),
    first!(3510, Lsub),
    second!(3511, Lsub),
    first!(3520, Lmul),
    second!(3521, Lmul),
    first!(3530, Ldiv),
    second!(3531, Ldiv),
    first!(3540, Lrem),
    second!(3541, Lrem),
    first!(3550, Lshl),
    second!(3551, Lshl),
    first!(3560, Lshr),
    second!(3561, Lshr),
    first!(3570, Lushr),
    second!(3571, Lushr),
    first!(3580, Land),
    second!(3581, Land),
    first!(3590, Lor),
    second!(3591, Lor),
    first!(3600, Lxor),
    second!(3601, Lxor),
    first!(3610, Leq),
    second!(3611, Leq),
    first!(3620, Lcmp),
    second!(3621, Lcmp),
];

static LONG_SINGLES: [Row; 2] = [single!(3630, Lneg), single!(3640, L2i)];

// Equal references, and what is read of a heap or of an array.
static READS: [Row; 9] = [
    first_of_2!(3650, Aeq),
    second_of_2!(3651, Aeq),
    choice_of_1!(3700, GetStatic(0)),
    first_of_2!(3720, GetField(0)),
    second_of_2!(3721, GetField(0)),
    Row(
        3740,
        Over3(Load(0), &phi!(V0, V1, V2), &V3, &V4),
        phi!(
            V0,
            Over3(Load(0), &V1, &V3, &V4),
            Over3(Load(0), &V2, &V3, &V4)
        ),
        &[],
    ),
    Row(
        3741,
        Over3(Load(0), &V0, &phi!(V1, V2, V3), &V4),
        phi!(
            V1,
            Over3(Load(0), &V0, &V2, &V4),
            Over3(Load(0), &V0, &V3, &V4)
        ),
        &[],
    ),
    Row(
        3742,
        Over3(Load(0), &V0, &V1, &phi!(V2, V3, V4)),
        phi!(
            V2,
            Over3(Load(0), &V0, &V1, &V3),
            Over3(Load(0), &V0, &V1, &V4)
        ),
        &[],
    ),
    choice_of_1!(3760, Length),
];

macro_rules! sc1 {
    ($o:expr, $p:expr) => {
        Over1(Scalar($o), &$p)
    };
}

macro_rules! sc2 {
    ($o:expr, $p:expr, $q:expr) => {
        Over2(Scalar($o), &$p, &$q)
    };
}

macro_rules! int {
    ($c:expr) => {
        Over0(Int($c))
    };
}

// Whether a number is 0.
macro_rules! is_zero {
    ($t:expr) => {
        sc2!(Ieq, $t, int!(0))
    };
}

// A choice under another, and a choice by a test for 0.
static NESTED_CHOICES: [Row; 3] = [
    Row(
        4001,
        phi!(V0, V1, phi!(V2, V3, V4)),
        phi!(V0, V1, phi!(V2, phi!(V0, V1, V3), phi!(V0, V1, V4))),
        &[],
    ),
    Row(
        4002,
        phi!(V0, phi!(V1, V2, V3), V4),
        phi!(V0, phi!(V1, phi!(V0, V2, V4), phi!(V0, V3, V4)), V4),
        &[],
    ),
    Row(4003, phi!(is_zero!(V0), V1, V2), phi!(V0, V2, V1), &[]),
];

// Above 0 is not below 1, and below 0 is not above -1.
static BOUNDS: [Row; 2] = [
    Row(
        4004,
        sc2!(Ilt, int!(0), V0),
        is_zero!(sc2!(Ilt, V0, int!(1))),
        &[],
    ),
    Row(
        4005,
        sc2!(Ilt, V0, int!(0)),
        is_zero!(sc2!(Ilt, int!(-1), V0)),
        &[],
    ),
];

macro_rules! same_refs {
    () => {
        Over2(Aeq, &V0, &V1)
    };
}

// A truth is 0 exactly where the test of it for 0 isn't.
macro_rules! tested_twice {
    ($n:expr, $t:expr) => {
        Row($n, is_zero!(is_zero!($t)), $t, &[])
    };
}

// A truth has no bit but the lowest.
macro_rules! lowest_bit {
    ($n:expr, $t:expr) => {
        Row($n, sc2!(Iand, $t, int!(1)), $t, &[])
    };
}

static TRUTHS: [Row; 8] = [
    tested_twice!(4006, sc2!(Ieq, V0, V1)),
    tested_twice!(4007, sc2!(Ilt, V0, V1)),
    tested_twice!(4008, same_refs!()),
    tested_twice!(4009, sc2!(Leq, V0, V1)),
    lowest_bit!(4010, sc2!(Ieq, V0, V1)),
    lowest_bit!(4011, sc2!(Ilt, V0, V1)),
    lowest_bit!(4012, same_refs!()),
    lowest_bit!(4013, sc2!(Leq, V0, V1)),
];

// The low half of a long result is the result of the int operation on the low halves.
macro_rules! low_half {
    ($n:expr, $of_longs:ident, $of_ints:ident) => {
        Row(
            $n,
            sc1!(L2i, sc2!($of_longs, V0, V1)),
            sc2!($of_ints, sc1!(L2i, V0), sc1!(L2i, V1)),
            &[],
        )
    };
}

static LOW_HALVES: [Row; 7] = [
    low_half!(4014, Ladd, Iadd),
    low_half!(4015, Lsub, Isub),
    low_half!(4016, Lmul, Imul),
    low_half!(4017, Land, Iand),
    low_half!(4018, Lor, Ior),
    low_half!(4019, Lxor, Ixor),
    Row(
        4020,
        sc1!(L2i, sc1!(Lneg, V0)),
        sc1!(Ineg, sc1!(L2i, V0)),
        &[],
    ),
];

// A narrowing of the bits that it keeps.
static NARROWINGS: [Row; 4] = [
    Row(
        4021,
        sc1!(I2b, sc2!(Iand, V0, int!(255))),
        sc1!(I2b, V0),
        &[],
    ),
    Row(
        4022,
        sc1!(I2s, sc2!(Iand, V0, int!(65535))),
        sc1!(I2s, V0),
        &[],
    ),
    Row(
        4023,
        sc1!(I2c, sc2!(Iand, V0, int!(65535))),
        sc1!(I2c, V0),
        &[],
    ),
    Row(4024, sc1!(I2c, V0), sc2!(Iand, V0, int!(65535)), &[]),
];

// Choices between 1 and 0.
static CHOSEN_TRUTHS: [Row; 2] = [
    Row(
        4025,
        phi!(V0, int!(1), int!(0)),
        is_zero!(is_zero!(V0)),
        &[],
    ),
    Row(4026, phi!(V0, int!(0), int!(1)), is_zero!(V0), &[]),
];

/// The axioms on operations over choices, choices under choices, truths and conversions, in order of number.
pub fn choice_axioms(alloc: Global) -> Result<Vec<Axiom>, Memory>
    ensures { IfOk result (λ v. map axiom_seen v.items ≡ choice_axioms) }
{
    let mut axioms = Vec::new(alloc);
    add_axioms(alloc, &mut axioms, &COUNTS_AND_FAULTS)?;
    add_axioms(alloc, &mut axioms, &INT_PAIRS)?;
    add_axioms(alloc, &mut axioms, &INT_SINGLES)?;
    add_axioms(alloc, &mut axioms, &LONG_PAIRS)?;
    add_axioms(alloc, &mut axioms, &LONG_SINGLES)?;
    add_axioms(alloc, &mut axioms, &READS)?;
    add_axioms(alloc, &mut axioms, &NESTED_CHOICES)?;
    add_axioms(alloc, &mut axioms, &BOUNDS)?;
    add_axioms(alloc, &mut axioms, &TRUTHS)?;
    add_axioms(alloc, &mut axioms, &LOW_HALVES)?;
    add_axioms(alloc, &mut axioms, &NARROWINGS)?;
    add_axioms(alloc, &mut axioms, &CHOSEN_TRUTHS)?;
    Ok(axioms)
}
