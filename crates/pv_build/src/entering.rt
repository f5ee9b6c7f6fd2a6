//! What is held where a block begins, by the tree of the exits that lead to it.

ghost use Rattle.std.specs.Prelude.{◌≤◌, None, Some, length, IfOk, OnOk};
ghost use Rattle.pv_graph.specs.Graphs.{IsGraph};
ghost use Rattle.pv_terms.specs.Terms.{Grows};
ghost use Rattle.pv_block.specs.Ran.{IsCellOf, IsStateOf};
ghost use Rattle.pv_build.specs.Slots.{number};
ghost use Rattle.pv_build.specs.Sources.{IsTree, GivesOne, FoldsToOne, MaybeSorted, MaybeReads, IsSortedFold, IsReadFold};
ghost use Rattle.pv_build.specs.States.{AreCellsOf, CellGives, CellFoldsToOne, CellReadsFold, CellsGive, CellsFoldToSome, CellsReadFold, FrameGives, FrameFoldsToSome, ReadsFrame};

use crate::slot::{Part, Slot};
use crate::source::{Given, given_nodes};
use pv_block::{Cell, State};
use pv_fold::fold;
use pv_frame::{Frame, Sort};
use pv_graph::{Graph, NodeId, Op};
use pv_terms::over;
use pv_value::Memory;
use std::alloc::Global;

// The most nodes that a graph may have where a slot's tree is folded into it. The trees of a method can take far more: one for each slot
// at each block, with a node for each test on the way there.
const MOST_NODES: u32 = 4_194_304;

// Whether a slot's tree may be folded into a graph: out of memory where it has more nodes than that.
fn check_room(g: &Graph) -> Result<(), Memory>
    ensures { OnOk result (length g.now.nodes ≤ MOST_NODES) }
{
    if g.len() > MOST_NODES {
        return Err(Memory);
    }
    Ok(())
}

/// What a tree gives for a slot, where `dead` is what it gives from where no end is ahead.
pub(crate) fn fold_slot(
    alloc: Global,
    g: &mut Graph,
    given: &Given,
    slot: Slot,
    dead: Option<NodeId>,
) -> Result<Option<NodeId>, Memory>
    requires graph { IsGraph g.old }
    requires tree { IsTree given.now.nodes.items }
    requires gives { GivesOne g.old given.now (number slot) dead }
    ensures reads { IfOk result (λ r. MaybeReads g.old given.now (number slot) dead g.new r) }
    ensures sort { IfOk result (λ r. MaybeSorted g.old given.now (number slot) dead g.new r) }
    ensures grows { Grows g.old g.new }
{
    let nodes = given_nodes(alloc, &given.sources, slot)?;
    let made = fold(alloc, g, &given.nodes, &nodes, dead)?;
    Ok(made[given.nodes.len() - 1])
}

/// .. where it gives something. Out of memory also where the graph has more than 4194304 nodes already.
pub(crate) fn node_of(
    alloc: Global,
    g: &mut Graph,
    given: &Given,
    slot: Slot,
    dead: Option<NodeId>,
) -> Result<NodeId, Memory>
    requires graph { IsGraph g.old }
    requires tree { IsTree given.now.nodes.items }
    requires gives { GivesOne g.old given.now (number slot) dead }
    requires some { FoldsToOne g.old.nodes given.now (number slot) dead }
    ensures reads { IfOk result (λ n. IsReadFold g.old given.now (number slot) dead g.new n) }
    ensures sort { IfOk result (λ n. IsSortedFold g.old given.now (number slot) dead g.new n) }
    ensures grows { Grows g.old g.new }
{
    check_room(g)?;
    let made = fold_slot(alloc, g, given, slot, dead)?;
    match made {
        Some(n) => Ok(n),
        None => unreachable!(),
    }
}

// The cell of a slot of this sort: unit where the sort isn't known.
fn cell(alloc: Global, g: &mut Graph, given: &Given, slot: Slot, sort: Sort) -> Result<Cell, Memory>
    requires graph { IsGraph g.old }
    requires tree { IsTree given.now.nodes.items }
    requires gives { CellGives g.old given.now (number slot) sort }
    requires some { CellFoldsToOne g.old.nodes given.now (number slot) sort }
    ensures reads { IfOk result (λ c. CellReadsFold g.old given.now (number slot) sort g.new c) }
    ensures sort { IfOk result (λ c. IsCellOf g.new c sort) }
    ensures grows { Grows g.old g.new }
{
    match sort {
        Sort::Unknown => {
            let unit = over(alloc, g, Op::Unit, &[])?;
            Ok(Cell { sort, node: unit })
        }
        Sort::Int | Sort::Long | Sort::Ref => {
            let node = node_of(alloc, g, given, slot, None)?;
            Ok(Cell { sort, node })
        }
    }
}

// The cells of the locals or of the operand stack.
fn cells(
    alloc: Global,
    g: &mut Graph,
    given: &Given,
    part: Part,
    sorts: &[Sort],
) -> Result<Vec<Cell>, Memory>
    requires graph { IsGraph g.old }
    requires tree { IsTree given.now.nodes.items }
    requires gives { CellsGive g.old given.now part sorts.now }
    requires some { CellsFoldToSome g.old.nodes given.now part sorts.now }
    ensures reads { IfOk result (λ cells. CellsReadFold g.old given.now part sorts.now g.new cells.items) }
    ensures sorts { IfOk result (λ cells. AreCellsOf g.new cells.items sorts.now) }
    ensures grows { Grows g.old g.new }
{
    let mut cells = Vec::with_capacity(alloc, sorts.len())?;
    for i in 0..sorts.len() {
        let slot = part.slot(sorts.len(), i);
        let next = cell(alloc, g, given, slot, sorts[i])?;
        cells.push(next)?;
    }
    Ok(cells)
}

/// What is held where a block begins that has this frame: for each slot whose sort is known, what the tree
/// makes of it. From where no end is ahead the token is `never`.
pub(crate) fn enter(
    alloc: Global,
    g: &mut Graph,
    given: &Given,
    never: NodeId,
    frame: &Frame,
) -> Result<State, Memory>
    requires graph { IsGraph g.old }
    requires tree { IsTree given.now.nodes.items }
    requires gives { FrameGives g.old given.now never frame.now }
    requires some { FrameFoldsToSome g.old.nodes given.now never frame.now }
    ensures reads { IfOk result (λ c. ReadsFrame g.old given.now never frame.now g.new c) }
    ensures sorts { IfOk result (λ c. IsStateOf g.new c frame.now) }
    ensures grows { Grows g.old g.new }
{
    let token = node_of(alloc, g, given, Slot::Token, Some(never))?;
    let heap = node_of(alloc, g, given, Slot::Heap, None)?;
    let locals = cells(alloc, g, given, Part::Locals, frame.locals.as_slice())?;
    let stack = cells(alloc, g, given, Part::Stack, frame.stack.as_slice())?;
    Ok(State {
        stack: stack.into(),
        locals: locals.into(),
        heap,
        token,
    })
}
