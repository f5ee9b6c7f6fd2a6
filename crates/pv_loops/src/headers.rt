//! The headers of loops.

ghost use Rattle.std.specs.Prelude.{◌≡◌, ◌≤◌, ◌^◌, ◌<◌, ◌↔◌, ℕ, IsTrue, IfOk, length, slice_index};
ghost use Rattle.std.specs.List.{All, Contains};
ghost use Rattle.pv_loops.specs.Shapes.{IsShape};
ghost use Rattle.pv_loops.specs.Nests.{AreHeaders};

use crate::lists::Lists;
use std::alloc::{AllocError, Global};

/// The headers of loops, ascending, and for each node its place among them.
#[derive(Debug, Drop)]
pub struct Headers {
    pub nodes: Vec<u32>,
    pub at: Vec<Option<u32>>,
}

impl Headers {
    /// The nodes with an edge back to them, where `place` has the place of each node in an order.
    pub fn find(
        alloc: Global,
        count: u32,
        sources: &Lists,
        place: &[usize],
    ) -> Result<Headers, AllocError>
        requires shape { IsShape sources.now }
        requires count { count ≡ length sources.now }
        requires places { length place.now ≡ length sources.now }
        ensures { IfOk result (λ h. AreHeaders sources.now place.now h) }
    {
        let mut headers = Headers {
            nodes: Vec::new(alloc),
            at: Vec::new(alloc),
        };
        for n in 0..count {
            if is_header(sources.get(n), place, n) {
                headers.at.push(Some(headers.nodes.len() as u32))?;
                headers.nodes.push(n)?;
            } else {
                headers.at.push(None)?;
            }
        }
        Ok(headers)
    }
}

// Whether one of its sources isn't before `h` in the order.
fn is_header(sources: &[u32], place: &[usize], h: u32) -> bool
    requires header { h < length place.now }
    requires sources { All (λ x. x < length place.now) sources.now }
    ensures { IsTrue result ↔ ((w : ℕ) × Contains sources.now w × (slice_index place.now h ≤ slice_index place.now w)) }
{
    sources
        .iter()
        .any(|w| place[h as usize] <= place[*w as usize])
}
