//! The edges between blocks.

ghost use Rattle.std.specs.Prelude.{◌≡◌, map, IfOk};
ghost use Rattle.pv_flow.specs.Edges.{target_of, targets_of, edges_of};

use crate::block::{Exit, Flow};
use std::alloc::{AllocError, Global};

impl Exit {
    /// The block to which it goes, if it stays in the method.
    pub fn target(self) -> Option<u32>
        ensures { result ≡ target_of self }
    {
        match self {
            Exit::To(block) => Some(block),
            Exit::Return | Exit::Throw => None,
        }
    }
}

/// The blocks to which exits go.
fn targets_of(alloc: Global, exits: &[Exit]) -> Result<Vec<u32>, AllocError>
    ensures { IfOk result (λ targets. targets.items ≡ targets_of exits.now) }
{
    exits.iter().filter_map(|exit| exit.target()).collect(alloc)
}

impl Flow {
    /// For each block, in order, the numbers of the blocks to which its exits go, in their order.
    pub fn edges(&self, alloc: Global) -> Result<Vec<Vec<u32>>, AllocError>
        ensures { IfOk result (λ edges. map (λ v. v.items) edges.items ≡ edges_of self.now.blocks) }
    {
        let mut edges = Vec::new(alloc);
        for block in self.blocks.as_slice() {
            edges.push(targets_of(alloc, block.exits.as_slice())?)?;
        }
        Ok(edges)
    }
}
