//! Why a method is refused.

ghost use Rattle.std.specs.Prelude.{◌≡◌};
ghost use Rattle.pv_frame.specs.declared.cause.Refused.TheVariants as refused;

use pv_value::Memory;
use std::alloc::{AllocError, AllocFailed};

/// The kinds of causes, in the words of the report.
#[derive(Clone, Copy, Debug, PartialEq, Eq)]
pub enum CauseKind {
    Handler,
    Monitor,
    LongCode,
    Slots,
    Float,
    Code,
    Subroutine,
    Dynamic,
    Allocation,
    Constant,
    Types,
    Blocks,
    Irreducible,
    Depth,
}

/// Why a method is refused, and the address of the instruction for which it is, in bytes from the
/// code's start; 0 where it is for no single instruction.
#[derive(Clone, Copy, Debug, PartialEq, Eq)]
pub struct Cause {
    pub kind: CauseKind,
    pub at: u32,
}

/// Why a method got no typed frames.
#[derive(Clone, Copy, Debug, PartialEq, Eq)]
pub enum Refused {
    /// The method is refused for this cause.
    Cause(Cause),
    /// Out of memory, which says nothing of the method.
    Memory,
}

impl From<Cause> for Refused {
    ghost from_gives = { λ cause e. e ≡ refused.Cause cause };

    fn from(cause: Cause) -> Refused {
        Refused::Cause(cause)
    }
}

impl From<Memory> for Refused {
    ghost from_gives = { λ _ e. e ≡ refused.Memory };

    fn from(_e: Memory) -> Refused {
        Refused::Memory
    }
}

impl From<AllocError> for Refused {
    ghost from_gives = { λ _ e. e ≡ refused.Memory };

    fn from(_e: AllocError) -> Refused {
        Refused::Memory
    }
}

impl<T: Drop> From<AllocFailed<T>> for Refused {
    ghost from_gives = { λ _ e. e ≡ refused.Memory };

    fn from(_e: AllocFailed<T>) -> Refused {
        Refused::Memory
    }
}
