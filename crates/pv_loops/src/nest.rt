//! The loops of a shape and the homes of its nodes, filled header by header.

ghost use Rattle.std.specs.Prelude.{◌≡◌, ◌<◌, ◌+◌, ℕ, List, None, length, replicate, IfOk, OnOk, IfErr, slice_index};
ghost use Rattle.pv_loops.specs.Shapes.{IsShape, IsReversed};
ghost use Rattle.pv_loops.specs.Bodies.{IsOrder};
ghost use Rattle.pv_loops.specs.Forests.{HasDepth};
ghost use Rattle.pv_loops.specs.Faults.{OnIrreducible, OnDeep};

use crate::body::body;
use crate::fault::LoopFault;
use crate::forest::{Loop, MAX_DEPTH};
use crate::headers::Headers;
use crate::lists::Lists;
use crate::order::Order;
use std::alloc::{AllocError, Global};

/// The loops so far, by ascending header, and for each node the place of the innermost loop that has it.
#[derive(Debug, Drop)]
pub struct Nest {
    pub loops: Vec<Loop>,
    pub home: Vec<Option<u32>>,
}

impl Nest {
    ghost use Rattle.pv_loops.specs.Nests.{AreHeaders, IsNested};

    /// A loop without nodes for each header, and no homes of these `count` nodes.
    pub fn bare(alloc: Global, headers: &[u32], count: usize) -> Result<Nest, AllocError>
        ensures { IfOk result (λ n. (sources : List (List ℕ)) (place : List ℕ) → length sources ≡ count → IsNested sources place headers.now MAX_DEPTH 0 n) }
    {
        let mut loops = Vec::new(alloc);
        for h in headers {
            loops.push(Loop {
                header: *h,
                depth: 0,
                parent: None,
                members: Vec::new(alloc),
            })?;
        }
        let home = no_homes(alloc, count)?;
        Ok(Nest { loops, home })
    }

    /// Fills the loops, header by header in the order.
    pub fn fill(
        &mut self,
        alloc: Global,
        sources: &Lists,
        order: &Order,
        headers: &Headers,
    ) -> Result<(), LoopFault>
        requires shape { IsShape sources.now }
        requires order { IsOrder sources.now order.now.nodes.items order.now.place.items }
        requires headers { AreHeaders sources.now order.now.place.items headers.now }
        requires bare { IsNested sources.now order.now.place.items headers.now.nodes.items MAX_DEPTH 0 self.old }
        ensures filled { OnOk result (IsNested sources.now order.now.place.items headers.now.nodes.items MAX_DEPTH (length order.now.nodes.items) self.new) }
        ensures irreducible { IfErr result (λ e. OnIrreducible e (λ _. ⊥)) }
        ensures deep { IfErr result (λ e. OnDeep e (λ d. (d ≡ MAX_DEPTH + 1) × ((s : List (List ℕ)) → IsReversed s sources.now → HasDepth s d))) }
    {
        for h in &order.nodes {
            self.nest(alloc, sources, order, headers, *h)?;
        }
        Ok(())
    }

    // Fills the loop of `h`, where `h` is a header. The next loop around it is the home of `h` so far.
    fn nest(
        &mut self,
        alloc: Global,
        sources: &Lists,
        order: &Order,
        headers: &Headers,
        h: u32,
    ) -> Result<(), LoopFault>
        requires shape { IsShape sources.now }
        requires order { IsOrder sources.now order.now.nodes.items order.now.place.items }
        requires headers { AreHeaders sources.now order.now.place.items headers.now }
        requires node { h < length sources.now }
        requires nested { IsNested sources.now order.now.place.items headers.now.nodes.items MAX_DEPTH (slice_index order.now.place.items h) self.old }
        ensures nested { OnOk result (IsNested sources.now order.now.place.items headers.now.nodes.items MAX_DEPTH (slice_index order.now.place.items h + 1) self.new) }
        ensures irreducible { IfErr result (λ e. OnIrreducible e (λ _. ⊥)) }
        ensures deep { IfErr result (λ e. OnDeep e (λ d. (d ≡ MAX_DEPTH + 1) × ((s : List (List ℕ)) → IsReversed s sources.now → HasDepth s d))) }
    {
        let Some(i) = headers.at[h as usize] else {
            return Ok(());
        };
        let parent = self.home[h as usize];
        let depth = match parent {
            None => 1,
            Some(p) => self.loops[p as usize].depth + 1,
        };
        let mut members = body(alloc, sources, order, &mut self.home, h, i)?;
        if depth > MAX_DEPTH {
            return Err(LoopFault::Deep(depth));
        }
        members.sort_unstable();
        let filled = Loop {
            header: h,
            depth,
            parent,
            members,
        };
        self.loops[i as usize] = filled;
        Ok(())
    }
}

// No home for each of `count` nodes.
fn no_homes(alloc: Global, count: usize) -> Result<Vec<Option<u32>>, AllocError>
    ensures { IfOk result (λ home. home.items ≡ replicate count None) }
{
    vec![in alloc; None; count]
}
