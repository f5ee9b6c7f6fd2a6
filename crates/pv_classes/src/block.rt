//! Blocks of inductions.

ghost use Rattle.std.specs.Prelude.{◌≡◌, IfOk};
ghost use Rattle.pv_classes.specs.Blocks as model;

use crate::join::{Join, copy_joins};
use pv_graph::NodeId;
use pv_value::Memory;
use std::alloc::Global;
use std::marker::Model;

/// What an induction over the iterations of a depth rests on: its pairs, the joins inside it, in order, and the
/// blocks of the inductions inside it.
#[derive(Drop)]
pub struct Block {
    depth: u32,
    pairs: Vec<(NodeId, NodeId)>,
    joins: Vec<Join>,
    blocks: Vec<Block>,
}

impl Model for Block {
    ghost use Rattle.pv_classes.specs.Blocks as specs;
    ghost use Rattle.std.proofs.Common.{arith};

    ghost Value = { specs.Block };

    ghost coded = { specs.block_code };

    ghost view = { λ b. specs.block b.depth b.pairs.items b.joins.items (specs.blocks_of b.blocks.items) };

    ghost size = { specs.size_of };

    ghost size_decreases = { λ b h. Prim.omega (arith, specs.most_le-size b.blocks.items) };
}

impl Block {
    /// The block with these parts.
    pub fn new(
        depth: u32,
        pairs: Vec<(NodeId, NodeId)>,
        joins: Vec<Join>,
        blocks: Vec<Block>,
    ) -> Block
        ensures { result ≡ model.block depth pairs.items joins.items (model.blocks_of blocks.items) }
    {
        Block {
            depth,
            pairs,
            joins,
            blocks,
        }
    }

    /// The depth whose iterations the induction is over.
    pub fn depth(&self) -> u32
        ensures { result ≡ model.depth_of self.now }
    {
        self.depth
    }

    /// The pairs of thetas that the induction joins.
    pub fn pairs(&self) -> &[(NodeId, NodeId)]
        ensures { result.now ≡ model.pairs_of self.now }
    {
        &self.pairs
    }

    /// The joins inside the induction, in order.
    pub fn joins(&self) -> &[Join]
        ensures { result.now ≡ model.joins_of self.now }
    {
        &self.joins
    }

    /// The blocks of the inductions inside it, in order.
    pub fn blocks(&self) -> &[Block]
        ensures { model.blocks_of result.now ≡ model.inner_of self.now }
    {
        &self.blocks
    }
}

// Copies of pairs.
fn copy_pairs(alloc: Global, pairs: &[(NodeId, NodeId)]) -> Result<Vec<(NodeId, NodeId)>, Memory>
    ensures { IfOk result (λ copies. copies.items ≡ pairs.now) }
{
    Ok(Vec::from_slice(alloc, pairs)?)
}

impl Block {
    /// An equal block.
    #[cycle(copying)]
    pub fn copy(&self, alloc: Global) -> Result<Block, Memory>
        ensures { IfOk result (λ copy. copy ≡ self.now) }
    {
        Ok(Block {
            depth: self.depth,
            pairs: copy_pairs(alloc, &self.pairs)?,
            joins: copy_joins(alloc, &self.joins)?,
            blocks: copy_blocks(alloc, &self.blocks)?,
        })
    }
}

/// Copies of blocks.
#[cycle(copying)]
pub(crate) fn copy_blocks(alloc: Global, blocks: &[Block]) -> Result<Vec<Block>, Memory>
    ensures { IfOk result (λ copies. copies.items ≡ blocks.now) }
{
    let mut copies = Vec::new(alloc);
    for block in blocks {
        copies.push(block.copy(alloc)?)?;
    }
    Ok(copies)
}
