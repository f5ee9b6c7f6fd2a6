//! Shapes of control flow.

ghost use Rattle.std.specs.Prelude.{◌≡◌, ◌<◌, ◌^◌, [], length, map, slice_index_or, IfOk, OnOk};
ghost use Rattle.std.specs.List.{All};
ghost use Rattle.pv_loops.specs.Shapes.{targets, IsShape, IsReversed, AddsSources};

use crate::lists::Lists;
use std::alloc::{AllocError, Global};
use std::marker::Model;

/// The edges out of each node of a control flow, seen as the list of these lists. Node 0 is the
/// entry. Edges count as a set: an edge may stand twice.
#[derive(Debug, Drop)]
pub struct Shape {
    edges: Lists,
}

impl Model for Shape {
    ghost use Rattle.std.specs.Prelude.{List, ℕ, ◌<◌, ◌^◌, length};

    ghost Value = { List (List ℕ) };

    ghost view = { λ s. s.edges };

    ghost invariant = { λ s. length s.edges < 2 ^ 32 };
}

impl Shape {
    /// The shape with these lists of targets, one for each node.
    pub fn new(edges: Vec<Vec<u32>>) -> Shape
        requires small { length edges.items < 2 ^ 32 }
        ensures { result ≡ map (λ v. v.items) edges.items }
    {
        Shape {
            edges: Lists::new(edges),
        }
    }

    /// How many nodes there are.
    pub fn len(&self) -> u32
        ensures { result ≡ length self.now }
    {
        self.edges.len() as u32
    }

    /// The nodes that the edges out of a node go to.
    pub fn targets(&self, n: u32) -> &[u32]
        requires { n < length self.now }
        ensures { result.now ≡ targets self.now n }
    {
        self.edges.get(n)
    }
}

/// For each node of a shape the nodes with an edge to it.
pub fn sources(alloc: Global, shape: &Shape) -> Result<Lists, AllocError>
    requires { IsShape shape.now }
    ensures { IfOk result (λ sources. IsReversed shape.now sources) }
{
    let mut sources = Lists::empty(alloc, shape.len() as usize)?;
    for n in 0..shape.len() {
        add_sources(&mut sources, n, shape.targets(n))?;
    }
    Ok(sources)
}

// Adds the edges out of a node.
fn add_sources(sources: &mut Lists, n: u32, targets: &[u32]) -> Result<(), AllocError>
    requires { All (λ t. t < length sources.old) targets.now }
    ensures { OnOk result (AddsSources sources.old sources.new n targets.now) }
{
    for t in targets {
        sources.push(*t, n)?;
    }
    Ok(())
}
