//! The loops of a shape, found from an order of its nodes.

ghost use Rattle.std.specs.Prelude.{◌≡◌, ◌+◌, IfOk, OnOk, IfErr};
ghost use Rattle.pv_loops.specs.Shapes.{IsShape};
ghost use Rattle.pv_loops.specs.Steps.{Stuck, IsReducible};
ghost use Rattle.pv_loops.specs.Forests.{IsForest, NestsUpTo, HasDepth};
ghost use Rattle.pv_loops.specs.Ranks.{IsOrdered, IsArranged, HasRanking};
ghost use Rattle.pv_loops.specs.Faults.{OnIrreducible, OnDeep};

use crate::fault::LoopFault;
use crate::forest::{Forest, MAX_DEPTH};
use crate::headers::Headers;
use crate::nest::Nest;
use crate::order::ordered;
use crate::outwards::rows_outwards;
use crate::shape::{Shape, sources};
use crate::together::{keys, sorted_by_key};
use std::alloc::Global;

/// The forest of the loops of a shape: `Irreducible` carries steps that are stuck with two or more
/// nodes, and comes only where some steps are. `Deep` carries 17, and comes only where the shape is
/// reducible and loops nest deeper than 16.
pub fn reduce(alloc: Global, shape: &Shape) -> Result<Forest, LoopFault>
    requires { IsShape shape.now }
    ensures reducible { OnOk result (IsReducible shape.now) }
    ensures forest { IfOk result (λ f. IsForest shape.now f) }
    ensures ordered { IfOk result (λ f. IsOrdered shape.now f) }
    ensures arranged { IfOk result (λ f. IsArranged f) }
    ensures ranked { IfOk result (λ f. HasRanking shape.now f) }
    ensures shallow { OnOk result (NestsUpTo shape.now MAX_DEPTH) }
    ensures irreducible { IfErr result (λ e. OnIrreducible e (λ steps. Stuck shape.now steps)) }
    ensures deep { IfErr result (λ e. OnDeep e (λ d. (d ≡ MAX_DEPTH + 1) × IsReducible shape.now × HasDepth shape.now d)) }
{
    let sources = sources(alloc, shape)?;
    let order = ordered(alloc, shape, &sources)?;
    let headers = Headers::find(alloc, shape.len(), &sources, &order.place)?;
    let mut nest = Nest::bare(alloc, &headers.nodes, shape.len() as usize)?;
    nest.fill(alloc, &sources, &order, &headers)?;
    let Nest { loops, home } = nest;
    let rows = rows_outwards(alloc, &loops, &home)?;
    let keys = keys(alloc, &loops, &order.place, &rows)?;
    Ok(Forest {
        loops,
        home,
        order: sorted_by_key(order.nodes, &keys),
        rows,
    })
}
