//! What a graph keeps of its nodes once it is prepared.

ghost use Rattle.std.specs.Prelude.{◌<◌, ◌^◌, length, IfOk};
ghost use Rattle.pv_graph.specs.Reach.{AllKidsWithin};
ghost use Rattle.pv_graph.specs.Kept.{IsPrepared};

use crate::node::Node;
use crate::reach::{Look, left_out, marks_of, uses_of};
use std::alloc::{AllocError, Global};

// How deep loops nest.
const DEPTHS: u32 = 16;

// For each depth from 1 on the nodes in which it is free, and the nodes that aren't settled.
#[derive(Drop)]
pub(crate) struct Prepared {
    pub(crate) free: Vec<Vec<bool>>,
    pub(crate) unsettled: Vec<bool>,
}

// What is found of nodes.
pub(crate) fn prepared_of(alloc: Global, nodes: &[Node]) -> Result<Prepared, AllocError>
    requires few { length nodes.now < 2 ^ 32 }
    requires within { AllKidsWithin nodes.now (length nodes.now) }
    ensures { IfOk result (λ p. IsPrepared nodes.now p) }
{
    let out = left_out(alloc, nodes.len(), &[])?;
    let out = out.as_slice();
    let uses = uses_of(alloc, 0, nodes, out)?;
    let uses = uses.as_slice();
    let mut free = Vec::new(alloc);
    for d in 0..DEPTHS {
        let marks = marks_of(alloc, nodes, out, uses, Look::Free(d + 1))?;
        free.push(marks)?;
    }
    let unsettled = marks_of(alloc, nodes, out, uses, Look::All)?;
    Ok(Prepared { free, unsettled })
}
