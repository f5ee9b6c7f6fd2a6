//! What is held where a method begins.

ghost use Rattle.std.specs.Prelude.{◌≡◌, ◌++◌, ◌∷◌, [], IfOk, OnOk};
ghost use Rattle.pv_graph.specs.Graphs.{IsGraph};
ghost use Rattle.pv_terms.specs.Terms.{Grows};
ghost use Rattle.pv_runs.specs.Entries.{passed_ops, param_ops};
ghost use Rattle.pv_block.specs.Ran.{IsStateOf};
ghost use Rattle.pv_build.specs.States.{AreCellsOf, AreOpsOf, this_ops, IsFirstOp, StartCellsRead, ReadsStart};

use pv_block::{Cell, State};
use pv_frame::{Frame, Program, Sort};
use pv_graph::{Graph, Op, OpSort};
use pv_terms::over;
use pv_value::{JType, Memory};
use std::alloc::Global;

// The operations of the parameter of this number, local by local; nothing is known of a float or a double.
fn push_param(ops: &mut Vec<Op>, j: u32, t: JType) -> Result<(), Memory>
    ensures { OnOk result (ops.new.items ≡ ops.old.items ++ param_ops j (t ∷ [])) }
{
    match t {
        JType::J => {
            ops.push(Op::Param(j, OpSort::L))?;
            ops.push(Op::Unit)?;
        }
        JType::A => ops.push(Op::Param(j, OpSort::A))?,
        JType::D => {
            ops.push(Op::Unit)?;
            ops.push(Op::Unit)?;
        }
        JType::F => ops.push(Op::Unit)?,
        JType::Z | JType::B | JType::C | JType::S | JType::I => ops.push(Op::Param(j, OpSort::I))?,
    }
    Ok(())
}

// The operation of `this`, if there is one.
fn this_op(alloc: Global, instance: bool) -> Result<Vec<Op>, Memory>
    ensures { IfOk result (λ ops. ops.items ≡ this_ops instance) }
{
    let mut ops = Vec::new(alloc);
    if !instance {
        return Ok(ops);
    }
    ops.push(Op::This)?;
    Ok(ops)
}

// The operations of `this` and the parameters. 2^32 parameters count as out of memory.
fn passed(alloc: Global, program: &Program) -> Result<Vec<Op>, Memory>
    ensures { IfOk result (λ ops. ops.items ≡ passed_ops program.now.instance program.now.desc.params) }
{
    let mut ops = this_op(alloc, program.instance)?;
    for (j, t) in program.desc.params.as_slice().iter().enumerate() {
        if j > 0xFFFF_FFFF {
            return Err(Memory);
        }
        push_param(&mut ops, j as u32, *t)?;
    }
    Ok(ops)
}

// The operation of a local of this sort; where there is none, or the sort isn't known, unit.
fn first_op(alloc: Global, ops: &[Op], k: usize, sort: Sort) -> Result<Op, Memory>
    ensures { IfOk result (λ o. IsFirstOp ops.now k sort o) }
{
    match sort {
        Sort::Unknown => Ok(Op::Unit),
        Sort::Int | Sort::Long | Sort::Ref => {
            if k >= ops.len() {
                return Ok(Op::Unit);
            }
            ops[k].copy(alloc)
        }
    }
}

// The cells of the locals.
fn first_cells(
    alloc: Global,
    g: &mut Graph,
    ops: &[Op],
    sorts: &[Sort],
) -> Result<Vec<Cell>, Memory>
    requires graph { IsGraph g.old }
    requires ops { AreOpsOf ops.now sorts.now }
    ensures reads { IfOk result (λ cells. StartCellsRead g.new.nodes cells.items ops.now) }
    ensures sorts { IfOk result (λ cells. AreCellsOf g.new cells.items sorts.now) }
    ensures grows { Grows g.old g.new }
{
    let mut cells = Vec::with_capacity(alloc, sorts.len())?;
    for k in 0..sorts.len() {
        let sort = sorts[k];
        let op = first_op(alloc, ops, k, sort)?;
        let node = over(alloc, g, op, &[])?;
        cells.push(Cell { sort, node })?;
    }
    Ok(cells)
}

/// What is held where a method begins, whose first frame this is.
pub(crate) fn start(
    alloc: Global,
    g: &mut Graph,
    program: &Program,
    frame: &Frame,
) -> Result<State, Memory>
    requires graph { IsGraph g.old }
    requires ops { AreOpsOf (passed_ops program.now.instance program.now.desc.params) frame.now.locals }
    requires stack { frame.now.stack ≡ [] }
    ensures reads { IfOk result (λ c. ReadsStart g.new.nodes c program.now) }
    ensures sorts { IfOk result (λ c. IsStateOf g.new c frame.now) }
    ensures grows { Grows g.old g.new }
{
    let ops = passed(alloc, program)?;
    let token = over(alloc, g, Op::Unit, &[])?;
    let heap = over(alloc, g, Op::Heap0, &[])?;
    let locals = first_cells(alloc, g, &ops, frame.locals.as_slice())?;
    Ok(State {
        stack: Vec::new(alloc).into(),
        locals: locals.into(),
        heap,
        token,
    })
}
