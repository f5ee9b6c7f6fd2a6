//! What a walk looks for, and where.

ghost use Rattle.std.specs.Prelude.{◌≡◌};
ghost use Rattle.pv_decide.specs.Sites.{first_of};

use crate::tree::Target;

/// The whole method, or the loop with this header.
#[derive(Clone, Copy, Debug, PartialEq, Eq)]
pub enum Scope {
    Whole,
    Loop(u32),
}

impl Scope {
    /// The block in which a walk begins.
    pub(crate) fn first(self) -> u32
        ensures { result ≡ first_of self }
    {
        match self {
            Scope::Whole => 0,
            Scope::Loop(h) => h,
        }
    }
}

/// What a walk looks for, and where.
#[derive(Clone, Copy, Debug, PartialEq, Eq)]
pub(crate) struct Aim {
    pub(crate) scope: Scope,
    pub(crate) target: Target,
}
