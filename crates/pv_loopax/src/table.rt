//! The table of the loop axioms.

ghost use Rattle.std.specs.Prelude.{◌≡◌, ◌++◌, IfOk, OnOk, map};
ghost use Rattle.pv_pattern.specs.Seen.{axiom_seen};
ghost use Rattle.pv_pattern.specs.Tables.{axiom_written};
ghost use Rattle.pv_loopax.specs.Table.{evals, loop_axioms, shifts};

use Side::{NotFree, Settled};
use Term::{Over0, Over1, Over2, Over3, Var};
use pv_pattern::{Axiom, Each, Head, Pattern, Row, Side, Term, add_axioms};
use pv_value::{Memory, ScalarOp};
use std::alloc::{AllocError, Global};

// The forms of the table's sides.
macro_rules! theta {
    ($a:expr, $b:expr) => {
        Over2(Head::Theta, &$a, &$b)
    };
}

macro_rules! eval {
    ($a:expr, $p:expr) => {
        Over2(Head::Eval, &$a, &$p)
    };
}

macro_rules! pass {
    ($c:expr) => {
        Over1(Head::Pass, &$c)
    };
}

macro_rules! shift {
    ($a:expr) => {
        Over1(Head::Shift, &$a)
    };
}

macro_rules! succ {
    ($p:expr) => {
        Over1(Head::Succ, &$p)
    };
}

macro_rules! phi {
    ($c:expr, $p:expr, $q:expr) => {
        Over3(Head::Phi, &$c, &$p, &$q)
    };
}

macro_rules! sc1 {
    ($o:expr, $p:expr) => {
        Over1(Head::Scalar($o), &$p)
    };
}

macro_rules! sc2 {
    ($o:expr, $p:expr, $q:expr) => {
        Over2(Head::Scalar($o), &$p, &$q)
    };
}

const ZERO: Term = Over0(Head::Zero);

// An operation on two numbers over a theta and a kid that doesn't move with it.
macro_rules! inside {
    ($o:expr, $n:expr) => {
        Row(
            $n,
            sc2!($o, theta!(Var(0), Var(1)), Var(2)),
            theta!(sc2!($o, Var(0), Var(2)), sc2!($o, Var(1), Var(2))),
            &[NotFree(2)],
        )
    };
}

// Variables by the order of their first places in the left side.
static SINGLE: [Row; 12] = [
    Row(
        301,
        eval!(theta!(Var(0), Var(1)), ZERO),
        eval!(Var(0), ZERO),
        &[],
    ),
    Row(
        302,
        eval!(Var(0), Var(1)),
        Var(0),
        &[NotFree(0), Settled(1)],
    ),
    Row(303, shift!(theta!(Var(0), Var(1))), Var(1), &[]),
    Row(304, shift!(Var(0)), Var(0), &[NotFree(0)]),
    Row(
        306,
        eval!(Var(0), succ!(Var(1))),
        eval!(shift!(Var(0)), Var(1)),
        &[],
    ),
    Row(
        307,
        eval!(Var(0), phi!(Var(1), Var(2), Var(3))),
        phi!(Var(1), eval!(Var(0), Var(2)), eval!(Var(0), Var(3))),
        &[],
    ),
    Row(
        308,
        pass!(Var(0)),
        phi!(eval!(Var(0), ZERO), ZERO, succ!(pass!(shift!(Var(0))))),
        &[],
    ),
    inside!(ScalarOp::Imul, 309),
    inside!(ScalarOp::Lmul, 310),
    inside!(ScalarOp::Iadd, 311),
    inside!(ScalarOp::Ladd, 312),
    Row(
        313,
        sc1!(ScalarOp::I2l, theta!(Var(0), Var(1))),
        theta!(sc1!(ScalarOp::I2l, Var(0)), sc1!(ScalarOp::I2l, Var(1))),
        &[],
    ),
];

// The operations over which shift and eval go.
static FAMILY: [u8; 50] = [
    14, 15, 16, 17, 18, //
    30, 31, 32, 33, 34, 35, 36, 37, 38, 39, 40, 41, 42, 43, 44, 45, 46, 47, //
    50, 51, 52, 53, 54, 55, 56, 57, 58, 59, 60, 61, 62, 63, 64, 65, //
    70, 71, 72, 73, 74, 75, 76, //
    80, 81, 82, 83,
];

// The shift of operation n is operation n over the shifts of its kids.
fn shifts(alloc: Global, n: u8) -> Result<Axiom, AllocError>
    ensures { IfOk result (λ a. axiom_seen a ≡ shifts n) }
{
    let n = n as u32;
    let each = Pattern::OverEach(n, Each::Bare);
    Ok(Axiom {
        number: 1000 + n,
        left: Pattern::Over(Head::Shift, vec![in alloc; each]?),
        right: Pattern::OverEach(n, Each::Shifted),
        sides: Vec::new(alloc),
    })
}

// The eval of operation n at a count is operation n over the evals of its kids there.
fn evals(alloc: Global, n: u8) -> Result<Axiom, AllocError>
    ensures { IfOk result (λ a. axiom_seen a ≡ evals n) }
{
    let n = n as u32;
    let each = Pattern::OverEach(n, Each::Bare);
    Ok(Axiom {
        number: 2000 + n,
        left: Pattern::Over(Head::Eval, vec![in alloc; each, Pattern::Var(0)]?),
        right: Pattern::OverEach(n, Each::Evaluated(0)),
        sides: Vec::new(alloc),
    })
}

// Adds the axioms by which shift goes over these operations.
fn add_shifts(alloc: Global, axioms: &mut Vec<Axiom>, family: &[u8]) -> Result<(), Memory>
    ensures { OnOk result (map axiom_seen axioms.new.items ≡ map axiom_seen axioms.old.items ++ map shifts family.now) }
{
    for n in family {
        axioms.push(shifts(alloc, *n)?)?;
    }
    Ok(())
}

// Adds the axioms by which eval goes over these operations.
fn add_evals(alloc: Global, axioms: &mut Vec<Axiom>, family: &[u8]) -> Result<(), Memory>
    ensures { OnOk result (map axiom_seen axioms.new.items ≡ map axiom_seen axioms.old.items ++ map evals family.now) }
{
    for n in family {
        axioms.push(evals(alloc, *n)?)?;
    }
    Ok(())
}

/// The loop axioms, in order of number.
pub fn loop_axioms(alloc: Global) -> Result<Vec<Axiom>, Memory>
    ensures { IfOk result (λ v. map axiom_seen v.items ≡ loop_axioms) }
{
    let mut axioms = Vec::new(alloc);
    add_axioms(alloc, &mut axioms, &SINGLE)?;
    add_shifts(alloc, &mut axioms, &FAMILY)?;
    add_evals(alloc, &mut axioms, &FAMILY)?;
    Ok(axioms)
}
