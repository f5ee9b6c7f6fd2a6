//! Why an instruction has no action, and a method no frames.

ghost use Rattle.std.specs.Prelude.{◌≡◌};
ghost use Rattle.pv_frame.specs.declared.stop.Stop.TheVariants as stop;
ghost use Rattle.pv_frame.specs.declared.stop.Untyped.TheVariants as untyped;
ghost use Rattle.pv_frame.specs.Stops.{refused_at};

use crate::cause::{Cause, CauseKind, Refused};
use pv_value::Memory;
use std::alloc::{AllocError, AllocFailed};

/// Why an instruction has no action.
#[derive(Clone, Copy, Debug)]
pub(crate) enum Stop {
    Cause(CauseKind),
    Memory,
}

impl From<CauseKind> for Stop {
    ghost from_gives = { λ kind e. e ≡ stop.Cause kind };

    fn from(kind: CauseKind) -> Stop {
        Stop::Cause(kind)
    }
}

impl From<Memory> for Stop {
    ghost from_gives = { λ _ e. e ≡ stop.Memory };

    fn from(_e: Memory) -> Stop {
        Stop::Memory
    }
}

impl From<AllocError> for Stop {
    ghost from_gives = { λ _ e. e ≡ stop.Memory };

    fn from(_e: AllocError) -> Stop {
        Stop::Memory
    }
}

impl<T: Drop> From<AllocFailed<T>> for Stop {
    ghost from_gives = { λ _ e. e ≡ stop.Memory };

    fn from(_e: AllocFailed<T>) -> Stop {
        Stop::Memory
    }
}

/// Why no frames were inferred.
#[derive(Clone, Copy, Debug)]
pub(crate) enum Untyped {
    /// No frames agree.
    Types,
    Memory,
}

impl From<Memory> for Untyped {
    ghost from_gives = { λ _ e. e ≡ untyped.Memory };

    fn from(_e: Memory) -> Untyped {
        Untyped::Memory
    }
}

impl From<AllocError> for Untyped {
    ghost from_gives = { λ _ e. e ≡ untyped.Memory };

    fn from(_e: AllocError) -> Untyped {
        Untyped::Memory
    }
}

impl<T: Drop> From<AllocFailed<T>> for Untyped {
    ghost from_gives = { λ _ e. e ≡ untyped.Memory };

    fn from(_e: AllocFailed<T>) -> Untyped {
        Untyped::Memory
    }
}

impl Stop {
    /// What it says of a method, at an instruction with this address.
    pub(crate) fn at(self, at: u32) -> Refused
        ensures { result ≡ refused_at at self }
    {
        match self {
            Stop::Cause(kind) => Refused::Cause(Cause { kind, at }),
            Stop::Memory => Refused::Memory,
        }
    }
}
