//! The row of each instruction. Given are the token where the block begins, the heap, and its operands.

ghost use Rattle.std.specs.Prelude.{◌≡◌, IfOk};
ghost use Rattle.pv_value.specs.Operations as operation;
ghost use Rattle.pv_frame.specs.Effects.{sort_of_word};
ghost use Rattle.pv_block.specs.Rows as rows;

use crate::effects::{copy_sym, value_sort};
use crate::line::Kid::{Given, Made};
use crate::line::Kids::{One, Three, Two, WithHeap, Zero};
use crate::line::{Kid, Line};
use crate::row::Way::{Ends, Gives, Goes, GoesWith, Throws, ThrowsAfter};
use crate::row::{Row, Way, line_of, only, row_of};
use pv_frame::{Action, Comparison, Sort, Test};
use pv_graph::Op;
use pv_insn::Case;
use pv_types::{cast_text, fits_sym, is_sym, store_text};
use pv_value::{JType, Memory, Name, ScalarOp, Sym};
use std::alloc::Global;

// ---- actions that go on

// How two ints compare.
fn compares(comparison: Comparison, a: Kid, b: Kid) -> Line
    ensures { result ≡ rows.compares comparison a b }
{
    match comparison {
        Comparison::Eq | Comparison::Ne => line_of(Op::Scalar(ScalarOp::Ieq), Two(a, b)),
        Comparison::Lt | Comparison::Ge => line_of(Op::Scalar(ScalarOp::Ilt), Two(a, b)),
        Comparison::Gt | Comparison::Le => line_of(Op::Scalar(ScalarOp::Ilt), Two(b, a)),
    }
}

// The exits of a branch, which is taken where its test is true, or where it isn't.
fn ways(on_true: bool, target: u32, next: u32) -> [Way; 2]
    ensures { result ≡ rows.ways on_true target next }
{
    if on_true {
        [Goes(target), Goes(next)]
    } else {
        [Goes(next), Goes(target)]
    }
}

// Whether a branch is taken where the test of its comparison is true.
fn on_true(comparison: Comparison) -> bool
    ensures { result ≡ rows.on_true comparison }
{
    matches!(comparison, Comparison::Eq | Comparison::Lt | Comparison::Gt)
}

fn zero_branch(alloc: Global, comparison: Comparison, target: u32, next: u32) -> Result<Row, Memory>
    ensures { IfOk result (λ r. r ≡ rows.zero_branch comparison target next) }
{
    let lines = [
        line_of(Op::Int(0), Zero),
        compares(comparison, Given(2), Made(0)),
    ];
    row_of(
        alloc,
        lines,
        [Made(1)],
        ways(on_true(comparison), target, next),
    )
}

fn ints_branch(alloc: Global, comparison: Comparison, target: u32, next: u32) -> Result<Row, Memory>
    ensures { IfOk result (λ r. r ≡ rows.ints_branch comparison target next) }
{
    let lines = [compares(comparison, Given(2), Given(3))];
    row_of(
        alloc,
        lines,
        [Made(0)],
        ways(on_true(comparison), target, next),
    )
}

fn same_branch(alloc: Global, on_true: bool, target: u32, next: u32) -> Result<Row, Memory>
    ensures { IfOk result (λ r. r ≡ rows.same_branch on_true target next) }
{
    let lines = [line_of(Op::Aeq, Two(Given(2), Given(3)))];
    row_of(alloc, lines, [Made(0)], ways(on_true, target, next))
}

fn null_branch(alloc: Global, on_true: bool, target: u32, next: u32) -> Result<Row, Memory>
    ensures { IfOk result (λ r. r ≡ rows.null_branch on_true target next) }
{
    let lines = [
        line_of(Op::Null, Zero),
        line_of(Op::Aeq, Two(Given(2), Made(0))),
    ];
    row_of(alloc, lines, [Made(1)], ways(on_true, target, next))
}

fn branch(alloc: Global, test: Test, target: u32, next: u32) -> Result<Row, Memory>
    ensures { IfOk result (λ r. r ≡ rows.branch test target next) }
{
    match test {
        Test::Zero(comparison) => zero_branch(alloc, comparison, target, next),
        Test::Ints(comparison) => ints_branch(alloc, comparison, target, next),
        Test::Same => same_branch(alloc, true, target, next),
        Test::Other => same_branch(alloc, false, target, next),
        Test::Null => null_branch(alloc, true, target, next),
        Test::NonNull => null_branch(alloc, false, target, next),
    }
}

// A test for the key of each case.
fn switch(alloc: Global, default: u32, cases: &[Case]) -> Result<Row, Memory>
    ensures { IfOk result (λ r. r ≡ rows.switch default cases.now) }
{
    let mut lines = Vec::new(alloc);
    let mut tests = Vec::new(alloc);
    let mut exits = Vec::new(alloc);
    for case in cases {
        let key = lines.len();
        lines.push(line_of(Op::Int(case.key), Zero))?;
        let test = lines.len();
        lines.push(line_of(Op::Scalar(ScalarOp::Ieq), Two(Given(2), Made(key))))?;
        tests.push(Made(test))?;
        exits.push(Goes(case.target))?;
    }
    exits.push(Goes(default))?;
    Ok(Row {
        lines: lines.into(),
        tests: tests.into(),
        exits: exits.into(),
    })
}

// A divisor that is 0 throws, and else it goes on.
fn unless_zero(alloc: Global, sort: Sort, next: u32) -> Result<Row, Memory>
    ensures { IfOk result (λ r. r ≡ rows.unless_zero sort next) }
{
    let exits = [Throws(Made(2)), Goes(next)];
    match sort {
        Sort::Long => {
            let lines = [
                line_of(Op::Long(0), Zero),
                line_of(Op::Scalar(ScalarOp::Leq), Two(Given(3), Made(0))),
                line_of(Op::FArith, Zero),
            ];
            row_of(alloc, lines, [Made(1)], exits)
        }
        _ => {
            let lines = [
                line_of(Op::Int(0), Zero),
                line_of(Op::Scalar(ScalarOp::Ieq), Two(Given(3), Made(0))),
                line_of(Op::FArith, Zero),
            ];
            row_of(alloc, lines, [Made(1)], exits)
        }
    }
}

// Null throws, and else it goes on.
fn unless_null(alloc: Global, next: u32) -> Result<Row, Memory>
    ensures { IfOk result (λ r. r ≡ rows.unless_null next) }
{
    let lines = [
        line_of(Op::Null, Zero),
        line_of(Op::Aeq, Two(Given(2), Made(0))),
        line_of(Op::FNull, Zero),
    ];
    row_of(alloc, lines, [Made(1)], [Throws(Made(2)), Goes(next)])
}

// Null throws, and an index out of range.
fn within(alloc: Global, next: u32) -> Result<Row, Memory>
    ensures { IfOk result (λ r. r ≡ rows.within next) }
{
    let lines = [
        line_of(Op::Null, Zero),
        line_of(Op::Aeq, Two(Given(2), Made(0))),
        line_of(Op::Int(0), Zero),
        line_of(Op::Scalar(ScalarOp::Ilt), Two(Given(3), Made(2))),
        line_of(Op::Length, One(Given(2))),
        line_of(Op::Scalar(ScalarOp::Ilt), Two(Given(3), Made(4))),
        line_of(Op::FNull, Zero),
        line_of(Op::FIndex, Zero),
    ];
    let tests = [Made(1), Made(3), Made(5)];
    row_of(
        alloc,
        lines,
        tests,
        [
            Throws(Made(6)),
            Throws(Made(7)),
            Goes(next),
            Throws(Made(7)),
        ],
    )
}

// Null throws, an index out of range, and a reference that doesn't fit.
fn stores_ref(alloc: Global, next: u32) -> Result<Row, Memory>
    ensures { IfOk result (λ r. r ≡ rows.stores_ref next) }
{
    let lines = [
        line_of(Op::Null, Zero),
        line_of(Op::Aeq, Two(Given(2), Made(0))),
        line_of(Op::Int(0), Zero),
        line_of(Op::Scalar(ScalarOp::Ilt), Two(Given(3), Made(2))),
        line_of(Op::Length, One(Given(2))),
        line_of(Op::Scalar(ScalarOp::Ilt), Two(Given(3), Made(4))),
        line_of(Op::Scalar(ScalarOp::Ieq), Two(Made(5), Made(2))),
        line_of(Op::Aeq, Two(Given(4), Made(0))),
        line_of(Op::Heap0, Zero),
        line_of(
            Op::CallRes(fits_sym(alloc)?),
            Three(Made(8), Given(2), Given(4)),
        ),
        line_of(Op::FNull, Zero),
        line_of(Op::FIndex, Zero),
        line_of(Op::Literal(store_text(alloc)?), Zero),
        line_of(Op::Thrown, One(Made(12))),
    ];
    let tests = [Made(1), Made(3), Made(6), Made(7), Made(9)];
    let exits = [
        Throws(Made(10)),
        Throws(Made(11)),
        Throws(Made(11)),
        Goes(next),
        Goes(next),
        Throws(Made(13)),
    ];
    row_of(alloc, lines, tests, exits)
}

// Whether the first operand, an object, is of a class; what the world tells stands at this heap.
fn is_of(alloc: Global, class: &Name, start: Kid) -> Result<Line, Memory>
    ensures { IfOk result (λ l. l ≡ rows.is_of class.now start) }
{
    Ok(line_of(Op::CallRes(is_sym(alloc, class)?), Two(start, Given(2))))
}

// The object of a literal that is thrown by a cast.
fn cast_literal(alloc: Global) -> Result<Line, Memory>
    ensures { IfOk result (λ l. l ≡ rows.cast_literal) }
{
    Ok(line_of(Op::Literal(cast_text(alloc)?), Zero))
}

// A cast: null goes on, and an object of the class; else it throws.
fn unless_other(alloc: Global, class: &Name, next: u32) -> Result<Row, Memory>
    ensures { IfOk result (λ r. r ≡ rows.unless_other class.now next) }
{
    let of_class = is_of(alloc, class, Made(2))?;
    let literal = cast_literal(alloc)?;
    let lines = [
        line_of(Op::Null, Zero),
        line_of(Op::Aeq, Two(Given(2), Made(0))),
        line_of(Op::Heap0, Zero),
        of_class,
        literal,
        line_of(Op::Thrown, One(Made(4))),
    ];
    row_of(
        alloc,
        lines,
        [Made(1), Made(3)],
        [Goes(next), Goes(next), Throws(Made(5))],
    )
}

// A type test: it goes on with 0 for null, with 1 for an object of the class, and else with 0.
fn asks_class(alloc: Global, class: &Name, next: u32) -> Result<Row, Memory>
    ensures { IfOk result (λ r. r ≡ rows.asks_class class.now next) }
{
    let lines = [
        line_of(Op::Int(1), Zero),
        line_of(Op::Null, Zero),
        line_of(Op::Aeq, Two(Given(2), Made(1))),
        line_of(Op::Heap0, Zero),
        is_of(alloc, class, Made(3))?,
    ];
    row_of(
        alloc,
        lines,
        [Made(2), Made(4)],
        [Goes(next), GoesWith(next, Made(0)), Goes(next)],
    )
}

// A call goes on where it threw nothing.
fn unless_thrown(alloc: Global, f: &Sym, next: u32) -> Result<Row, Memory>
    ensures { IfOk result (λ r. r ≡ rows.unless_thrown f.now next) }
{
    let lines = [
        line_of(Op::CallFault(copy_sym(alloc, f)?), WithHeap),
        line_of(Op::IsClear, One(Made(0))),
    ];
    row_of(alloc, lines, [Made(1)], [Goes(next), ThrowsAfter(Made(0))])
}

// A call on a receiver: null throws before the call.
fn unless_null_or_thrown(alloc: Global, f: &Sym, next: u32) -> Result<Row, Memory>
    ensures { IfOk result (λ r. r ≡ rows.unless_null_or_thrown f.now next) }
{
    let lines = [
        line_of(Op::CallFault(copy_sym(alloc, f)?), WithHeap),
        line_of(Op::Null, Zero),
        line_of(Op::Aeq, Two(Given(2), Made(1))),
        line_of(Op::FNull, Zero),
        line_of(Op::IsClear, One(Made(0))),
    ];
    let exits = [Throws(Made(3)), Goes(next), ThrowsAfter(Made(0))];
    row_of(alloc, lines, [Made(2), Made(4)], exits)
}

// ---- actions that end the method

// A return of an int that is narrowed by this operation.
fn narrowed(alloc: Global, op: ScalarOp) -> Result<Row, Memory>
    ensures { IfOk result (λ r. r ≡ rows.narrowed op) }
{
    row_of(
        alloc,
        [line_of(Op::Scalar(op), One(Given(2)))],
        [],
        [Gives(Made(0))],
    )
}

// A return, of a value of the method's type or of none.
fn give(alloc: Global, gives: Option<JType>) -> Result<Row, Memory>
    ensures { IfOk result (λ r. r ≡ rows.give gives) }
{
    match gives {
        None => only(alloc, Ends),
        Some(JType::Z) => {
            let lines = [
                line_of(Op::Int(1), Zero),
                line_of(Op::Scalar(ScalarOp::Iand), Two(Given(2), Made(0))),
            ];
            row_of(alloc, lines, [], [Gives(Made(1))])
        }
        Some(JType::B) => narrowed(alloc, ScalarOp::I2b),
        Some(JType::C) => narrowed(alloc, ScalarOp::I2c),
        Some(JType::S) => narrowed(alloc, ScalarOp::I2s),
        Some(_) => only(alloc, Gives(Given(2))),
    }
}

// athrow of null throws another fault.
fn throw(alloc: Global) -> Result<Row, Memory>
    ensures { IfOk result (λ r. r ≡ rows.throw_row) }
{
    let lines = [
        line_of(Op::Null, Zero),
        line_of(Op::Aeq, Two(Given(2), Made(0))),
        line_of(Op::FNull, Zero),
        line_of(Op::Thrown, One(Given(2))),
    ];
    row_of(alloc, lines, [Made(1)], [Throws(Made(2)), Throws(Made(3))])
}

// ---- all actions

/// The row of an action; it goes on to the place `next`, or gives a value of the type `gives`.
pub(crate) fn row_for(
    alloc: Global,
    gives: Option<JType>,
    next: u32,
    action: &Action,
) -> Result<Row, Memory>
    ensures { IfOk result (λ r. r ≡ rows.row_for gives next action.now) }
{
    match action {
        Action::Branch(test, target) => branch(alloc, *test, *target, next),
        Action::Jump(target) => only(alloc, Goes(*target)),
        Action::Switch(default, cases) => switch(alloc, *default, cases.as_slice()),
        Action::Divide(op) => unless_zero(alloc, value_sort(*op), next),
        Action::GetField(_, _) | Action::PutField(_, _) | Action::Length => {
            unless_null(alloc, next)
        }
        Action::LoadElement(_) | Action::StoreElement(_) => within(alloc, next),
        Action::StoreRef => stores_ref(alloc, next),
        Action::Cast(class) => unless_other(alloc, class, next),
        Action::InstanceOf(class) => asks_class(alloc, class, next),
        Action::Call(_, f) => unless_thrown(alloc, f, next),
        Action::CallOn(_, f) => unless_null_or_thrown(alloc, f, next),
        Action::Give(_) => give(alloc, gives),
        Action::Throw => throw(alloc),
        _ => only(alloc, Goes(next)),
    }
}
