//! Where an exit gets to, and what a walk makes of it.

ghost use Rattle.std.specs.Prelude.{◌≡◌, ◌<◌, length};
ghost use Rattle.std.specs.Bool.{Decides};
ghost use Rattle.pv_decide.specs.Sites.{IsInRange, Inside};
ghost use Rattle.pv_decide.specs.Landings.{IsLanding, verdict_end, verdict_of};

use crate::aim::{Aim, Scope};
use crate::site::{Site, is_around};
use crate::tree::Target;
use pv_flow::Exit;

/// Where an exit gets to.
#[derive(Clone, Copy, Debug, PartialEq, Eq)]
pub(crate) enum Landing {
    /// A later block of the region.
    On(u32),
    /// The header of an inner loop that has the block of the exit.
    Again,
    /// The header of the region's loop.
    Header,
    /// A block outside the region.
    Gone,
    /// A return.
    Returns,
    /// An end by an exception.
    Throws,
}

/// What a walk makes of an exit.
#[derive(Clone, Copy, Debug, PartialEq, Eq)]
pub(crate) enum Verdict {
    /// It is one that is looked for.
    Leaf,
    /// It goes on at this block.
    Goes(u32),
    /// It gives nothing.
    Nothing,
}

/// Whether a block is in a region.
pub(crate) fn is_inside(sites: &[Site], scope: Scope, b: u32) -> bool
    requires { b < length sites.now }
    ensures { Decides result (Inside sites.now scope b) }
{
    match scope {
        Scope::Whole => true,
        Scope::Loop(h) => is_around(sites, b, h),
    }
}

/// Where an exit of the block b gets to.
pub(crate) fn lands(sites: &[Site], scope: Scope, b: u32, exit: Exit) -> Landing
    requires block { b < length sites.now }
    requires exit { IsInRange sites.now exit }
    ensures { IsLanding sites.now scope b exit result }
{
    match exit {
        Exit::Return => Landing::Returns,
        Exit::Throw => Landing::Throws,
        Exit::To(m) => {
            if !is_inside(sites, scope, m) {
                Landing::Gone
            } else if !is_around(sites, b, m) {
                Landing::On(m)
            } else if scope == Scope::Loop(m) {
                Landing::Header
            } else {
                Landing::Again
            }
        }
    }
}

// What a walk makes of an end of the method that it looks for: only the whole method ends.
fn answer_end(scope: Scope) -> Verdict
    ensures { result ≡ verdict_end scope }
{
    match scope {
        Scope::Whole => Verdict::Leaf,
        Scope::Loop(_) => Verdict::Nothing,
    }
}

/// What a walk makes of an exit that gets there.
pub(crate) fn answer(aim: Aim, landing: Landing) -> Verdict
    ensures { result ≡ verdict_of aim.scope aim.target landing }
{
    match landing {
        Landing::On(m) => match aim.target {
            Target::Node(n) => {
                if m == n {
                    Verdict::Leaf
                } else {
                    Verdict::Goes(m)
                }
            }
            Target::Back | Target::Exit | Target::Return | Target::Leave => Verdict::Goes(m),
        },
        Landing::Again => Verdict::Nothing,
        Landing::Header => match aim.target {
            Target::Back | Target::Leave => Verdict::Leaf,
            Target::Node(_) | Target::Exit | Target::Return => Verdict::Nothing,
        },
        Landing::Gone => match aim.target {
            Target::Leave => Verdict::Leaf,
            Target::Node(_) | Target::Back | Target::Exit | Target::Return => Verdict::Nothing,
        },
        Landing::Returns => match aim.target {
            Target::Leave => Verdict::Leaf,
            Target::Exit | Target::Return => answer_end(aim.scope),
            Target::Node(_) | Target::Back => Verdict::Nothing,
        },
        Landing::Throws => match aim.target {
            Target::Leave => Verdict::Leaf,
            Target::Exit => answer_end(aim.scope),
            Target::Node(_) | Target::Back | Target::Return => Verdict::Nothing,
        },
    }
}
