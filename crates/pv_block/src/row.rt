//! The tests and exits of an instruction as data.

ghost use Rattle.std.specs.Prelude.{◌≡◌, [], ◌∷◌, IfOk};
ghost use Rattle.pv_block.specs.Lines.{line};
ghost use Rattle.pv_block.specs.Rows.{only};

use crate::line::{Kid, Kids, Line};
use pv_graph::Op;
use pv_list::Listed;
use pv_value::Memory;
use std::alloc::Global;

/// How a block is left by an exit.
#[derive(Clone, Copy, Debug)]
pub(crate) enum Way {
    /// To a place, with what is held after the action.
    Goes(u32),
    /// To a place, with what is held after the action but for this int on top of the stack.
    GoesWith(u32, Kid),
    /// By a fault, with what is held before the action.
    Throws(Kid),
    /// By a fault, with what is held after the action.
    ThrowsAfter(Kid),
    /// By a return of this value.
    Gives(Kid),
    /// By a return of no value.
    Ends,
}

/// The tests and the exits of an instruction, over what it takes (`Kids`) and over what the lines make of it. There is one exit more than tests, as in `Ran`.
#[derive(Debug, Drop)]
pub(crate) struct Row {
    pub(crate) lines: Listed<Line>,
    pub(crate) tests: Listed<Kid>,
    pub(crate) exits: Listed<Way>,
}

pub(crate) fn line_of(op: Op, kids: Kids) -> Line
    ensures { result ≡ line op kids }
{
    Line { op, kids }
}

pub(crate) fn row_of<const L: usize, const T: usize, const E: usize>(
    alloc: Global,
    lines: [Line; L],
    tests: [Kid; T],
    exits: [Way; E],
) -> Result<Row, Memory>
    ensures { IfOk result (λ r. r ≡ record { lines = lines.entry; tests = tests.entry; exits = exits.entry }) }
{
    Ok(Row {
        lines: Vec::from_array(alloc, lines)?.into(),
        tests: Vec::from_array(alloc, tests)?.into(),
        exits: Vec::from_array(alloc, exits)?.into(),
    })
}

/// The row of an instruction that has no test.
pub(crate) fn only(alloc: Global, way: Way) -> Result<Row, Memory>
    ensures { IfOk result (λ r. r ≡ only way) }
{
    row_of(alloc, [], [], [way])
}
