//! The blocks of a method and the forest of their loops.

ghost use Rattle.std.specs.Prelude.{◌≡◌, ◌<◌, ◌^◌, length, IfOk};
ghost use Rattle.pv_frame.specs.Frames.{AreFrames};
ghost use Rattle.pv_flow.specs.Edges.{edges_of};
ghost use Rattle.pv_frame.specs.Causes.{cause};
ghost use Rattle.pv_frame.specs.declared.cause.Refused.TheVariants as refused;
ghost use Rattle.pv_layout.specs.Reasons.{Structures};

use pv_flow::{Flow, blocks};
use pv_frame::{Cause, CauseKind, Refused, Typed};
use pv_loops::{Forest, LoopFault, Shape, reduce};
use pv_value::Memory;
use std::alloc::Global;

/// The blocks of a method that is structured, and the forest of their loops.
#[derive(Debug, Drop)]
pub struct Layout {
    pub flow: Flow,
    pub forest: Forest,
}

/// The blocks and the loops of a method with typed frames, or the first of these causes at 0: `Blocks`
/// where more than `MOST_BLOCKS` are reached, `Irreducible` where they make no reducible shape, and `Depth`
/// where loops nest deeper than 16.
pub fn laid_out(alloc: Global, typed: &Typed) -> Result<Layout, Refused>
    requires { AreFrames typed.now.program typed.now.frames }
    ensures { Structures typed.now.program result }
{
    let flow = blocks(alloc, typed)?;
    let shape = shape_of(alloc, &flow)?;
    match reduce(alloc, &shape) {
        Ok(forest) => Ok(Layout { flow, forest }),
        Err(LoopFault::Irreducible(_)) => Err(met(CauseKind::Irreducible)),
        Err(LoopFault::Deep(_)) => Err(met(CauseKind::Depth)),
        Err(LoopFault::Memory) => Err(Refused::Memory),
    }
}

// The edges of blocks as a shape.
fn shape_of(alloc: Global, flow: &Flow) -> Result<Shape, Memory>
    requires { length flow.now.blocks < 2 ^ 32 }
    ensures { IfOk result (λ shape. shape ≡ edges_of flow.now.blocks) }
{
    let edges = flow.edges(alloc)?;
    Ok(Shape::new(edges))
}

// A cause that is in no single instruction.
fn met(kind: CauseKind) -> Refused
    ensures { result ≡ refused.Cause (cause kind 0) }
{
    Refused::Cause(Cause { kind, at: 0 })
}
