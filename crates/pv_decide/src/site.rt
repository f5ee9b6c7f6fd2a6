//! Blocks as walks see them.

ghost use Rattle.std.specs.Prelude.{◌<◌, length};
ghost use Rattle.std.specs.Bool.{Decides};
ghost use Rattle.pv_decide.specs.Sites.{IsAround};

use pv_flow::Exit;

/// A block: the headers of the loops around it, the innermost first, and its exits in the order of their
/// tests.
#[derive(Debug, Drop)]
pub(crate) struct Site {
    pub(crate) around: Vec<u32>,
    pub(crate) exits: Vec<Exit>,
}

/// Whether the loop with the header h has the block b.
pub(crate) fn is_around(sites: &[Site], b: u32, h: u32) -> bool
    requires { b < length sites.now }
    ensures { Decides result (IsAround sites.now b h) }
{
    sites[b as usize].around.contains(&h)
}
