//! The root of a method, by the trees of its ends.

ghost use Rattle.std.specs.Prelude.{◌≡◌, IfOk};
ghost use Rattle.pv_graph.specs.Graphs.{IsGraph};
ghost use Rattle.pv_graph.specs.declared.node.OpSort.TheVariants.{R};
ghost use Rattle.pv_terms.specs.Reads.{IsNoTheta};
ghost use Rattle.pv_terms.specs.Terms.{Grows, IsOfSort};
ghost use Rattle.pv_build.specs.Slots.{number};
ghost use Rattle.pv_build.specs.Sources.{IsTree};
ghost use Rattle.pv_build.specs.Ends.{default_of, GivesLike, ReadsOrElse, IsSortedOrElse, EndsGive, ReadsRoot};

use crate::entering::fold_slot;
use crate::slot::Slot;
use crate::source::Given;
use pv_graph::{Graph, NodeId, Op};
use pv_terms::over;
use pv_value::{JType, Memory};
use std::alloc::Global;

// A value of the type of the result, for a method that doesn't return.
fn no_result(of: Option<JType>) -> Op
    ensures { result ≡ default_of of }
{
    match of {
        None => Op::Unit,
        Some(JType::J) => Op::Long(0),
        Some(JType::A) => Op::Null,
        Some(_) => Op::Int(0),
    }
}

// What a tree gives for a slot, or else this operation.
fn at_end(
    alloc: Global,
    g: &mut Graph,
    given: &Given,
    slot: Slot,
    dead: Option<NodeId>,
    default: Op,
) -> Result<NodeId, Memory>
    requires graph { IsGraph g.old }
    requires tree { IsTree given.now.nodes.items }
    requires other { IsNoTheta default }
    requires gives { GivesLike g.old given.now (number slot) dead default }
    ensures reads { IfOk result (λ n. ReadsOrElse g.old given.now (number slot) dead default g.new n) }
    ensures sort { IfOk result (λ n. IsSortedOrElse g.old given.now (number slot) dead default g.new n) }
    ensures grows { Grows g.old g.new }
{
    let made = fold_slot(alloc, g, given, slot, dead)?;
    match made {
        Some(n) => Ok(n),
        None => over(alloc, g, default, &[]),
    }
}

/// The root over what holds at the ends of the method, where `ends` is the tree of all of them and
/// `returns` that of the returns. Where no end is ahead the token is `never`.
pub(crate) fn root(
    alloc: Global,
    g: &mut Graph,
    ends: &Given,
    returns: &Given,
    never: NodeId,
    of: Option<JType>,
) -> Result<NodeId, Memory>
    requires graph { IsGraph g.old }
    requires ends { IsTree ends.now.nodes.items }
    requires returns { IsTree returns.now.nodes.items }
    requires gives { EndsGive g.old ends.now returns.now never of }
    ensures reads { IfOk result (λ r. ReadsRoot g.old ends.now returns.now never of g.new r) }
    ensures sort { IfOk result (λ r. IsOfSort g.new r R) }
    ensures grows { Grows g.old g.new }
{
    let dead = Some(never);
    let token = at_end(alloc, g, ends, Slot::Token, dead, Op::Never)?;
    let fault = at_end(alloc, g, ends, Slot::Fault, None, Op::Clear)?;
    let given = at_end(alloc, g, returns, Slot::Result, None, no_result(of))?;
    let heap = at_end(alloc, g, ends, Slot::Heap, None, Op::Heap0)?;
    over(alloc, g, Op::Root, &[token, fault, given, heap])
}
