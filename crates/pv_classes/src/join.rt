//! Joins of nodes, each with its reason.

ghost use Rattle.std.specs.Prelude.{◌≡◌, IfOk};

use pv_graph::{Kids, NodeId};
use pv_value::Memory;
use std::alloc::Global;

/// Why two nodes are joined: they are the sides of the axiom with this number, under the substitution of
/// these nodes; they have one operation, and kids that earlier joins link; they are a pair of the induction
/// whose block has this number; or they are the pair with this number of the induction in whose block the join
/// stands. Blocks and pairs are counted from 0.
#[derive(Debug, Drop)]
pub enum Reason {
    Axiom(u32, Kids),
    Kids,
    Induction(u32),
    Pair(u32),
}

impl Reason {
    /// An equal reason.
    pub fn copy(&self, alloc: Global) -> Result<Reason, Memory>
        ensures { IfOk result (λ copy. copy ≡ self.now) }
    {
        Ok(match self {
            Reason::Axiom(number, nodes) => {
                Reason::Axiom(*number, Kids::new(alloc, nodes.as_slice())?)
            }
            Reason::Kids => Reason::Kids,
            Reason::Induction(block) => Reason::Induction(*block),
            Reason::Pair(pair) => Reason::Pair(*pair),
        })
    }
}

/// Two nodes that are joined, and why.
#[derive(Debug, Drop)]
pub struct Join {
    pub first: NodeId,
    pub second: NodeId,
    pub why: Reason,
}

impl Join {
    /// An equal join.
    pub fn copy(&self, alloc: Global) -> Result<Join, Memory>
        ensures { IfOk result (λ copy. copy ≡ self.now) }
    {
        Ok(Join {
            first: self.first,
            second: self.second,
            why: self.why.copy(alloc)?,
        })
    }
}

/// Copies of joins.
pub(crate) fn copy_joins(alloc: Global, joins: &[Join]) -> Result<Vec<Join>, Memory>
    ensures { IfOk result (λ copies. copies.items ≡ joins.now) }
{
    let mut copies = Vec::new(alloc);
    for join in joins {
        copies.push(join.copy(alloc)?)?;
    }
    Ok(copies)
}
