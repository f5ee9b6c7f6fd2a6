//! The forest of the loops of a shape.

ghost use Rattle.pv_loops.specs.Outwards.{AreRows};

use crate::lists::Lists;

/// How many loops may lie in one another.
pub const MAX_DEPTH: u32 = 16;

/// A loop of a shape.
#[derive(Debug, Drop)]
pub struct Loop {
    /// The node where the loop is entered.
    pub header: u32,
    /// How many loops have the header, this one included: from 1 to 16.
    pub depth: u32,
    /// The place of the next loop around this one in the list of loops.
    pub parent: Option<u32>,
    /// All nodes of the loop, those of inner loops too, ascending.
    pub members: Vec<u32>,
}

/// The loops of a shape, by ascending header, and for each node the place of the innermost loop that
/// has it.
#[derive(Debug, Drop)]
pub struct Forest {
    pub loops: Vec<Loop>,
    pub home: Vec<Option<u32>>,
    /// All nodes, each once, node 0 first. Each edge leads to a later node, but for edges back to the
    /// header of a loop that has the node that they leave. The nodes of a loop stand together, its header
    /// first.
    pub order: Vec<u32>,
    // For each node the places of the loops around it, the innermost first.
    pub(crate) rows: Lists,
    ghost outwards: { AreRows loops.items home.items rows },
}

impl Forest {
    ghost use Rattle.std.specs.Prelude.{◌≡◌, ◌<◌, length, map};
    ghost use Rattle.std.specs.List.{All};
    ghost use Rattle.pv_loops.specs.Outwards.{header_at};
    ghost use Rattle.pv_loops.specs.Ranks.{around};

    /// The places of the loops around a node, the innermost first.
    pub fn around(&self, node: u32) -> &[u32]
        requires { node < length self.now.home.items }
        ensures headers { map (header_at self.now.loops.items) result.now ≡ around self.now node }
        ensures within { All (λ i. i < length self.now.loops.items) result.now }
    {
        self.rows.get(node)
    }
}
