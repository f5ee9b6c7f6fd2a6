//! An order of the nodes of a reducible shape.

ghost use Rattle.std.specs.Prelude.{◌≡◌, ◌<◌, ◌^◌, ℕ, [], length, IfOk, OnOk, IfErr};
ghost use Rattle.pv_loops.specs.Shapes.{IsShape, IsReversed};
ghost use Rattle.pv_loops.specs.Steps.{Stuck, IsReducible};
ghost use Rattle.pv_loops.specs.Bodies.{IsOrder};
ghost use Rattle.pv_loops.specs.Faults.{OnIrreducible, OnDeep};

use crate::fault::LoopFault;
use crate::lists::Lists;
use crate::reduction::Reduction;
use crate::shape::Shape;
use crate::walk::others;
use std::alloc::Global;

/// All nodes in an order in which each but the entry has an edge from an earlier one, and the place of
/// each.
#[derive(Debug, Drop)]
pub struct Order {
    pub nodes: Vec<u32>,
    pub place: Vec<usize>,
}

/// Reduces a shape, whose edges have these sources, by T1 and T2 as far as steps apply.
pub fn ordered(alloc: Global, shape: &Shape, sources: &Lists) -> Result<Order, LoopFault>
    requires shape { IsShape shape.now }
    requires sources { IsReversed shape.now sources.now }
    ensures reducible { OnOk result (IsReducible shape.now) }
    ensures order { IfOk result (λ o. IsOrder sources.now o.nodes.items o.place.items) }
    ensures irreducible { IfErr result (λ e. OnIrreducible e (λ steps. Stuck shape.now steps)) }
    ensures deep { IfErr result (λ e. OnDeep e (λ _. ⊥)) }
{
    let others = others(alloc, shape)?;
    let (reduction, rest) = Reduction::collapse(alloc, shape.len(), sources, others)?;
    if !rest.is_empty() {
        let steps = reduction.into_stuck(sources, rest)?;
        return Err(LoopFault::Irreducible(steps));
    }
    let (nodes, place) = reduction.into_groups().into_order(alloc);
    Ok(Order { nodes, place })
}
