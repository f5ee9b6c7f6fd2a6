//! Why a listing has no class.

use std::alloc::{AllocError, AllocFailed};
use thiserror::Error;

/// Why a listing has no class.
#[derive(Clone, Copy, Debug, PartialEq, Eq, Error)]
pub enum AsmFault {
    /// The first line that has no reading, counted from 1.
    #[error("no reading of line {0}")]
    Line(usize),
    /// There is no memory; this says nothing of the listing.
    #[error("out of memory")]
    Memory,
}

impl From<AllocError> for AsmFault {
    ghost use Rattle.std.specs.Prelude.{◌≡◌};
    ghost use Rattle.pv_asm.specs.declared.fault.AsmFault.TheVariants as fault;

    ghost from_gives = { λ _ e. e ≡ fault.Memory };

    fn from(_e: AllocError) -> AsmFault {
        AsmFault::Memory
    }
}

impl<T: Drop> From<AllocFailed<T>> for AsmFault {
    ghost use Rattle.std.specs.Prelude.{◌≡◌};
    ghost use Rattle.pv_asm.specs.declared.fault.AsmFault.TheVariants as fault;

    ghost from_gives = { λ _ e. e ≡ fault.Memory };

    fn from(_e: AllocFailed<T>) -> AsmFault {
        AsmFault::Memory
    }
}

impl From<pv_value::Memory> for AsmFault {
    ghost use Rattle.std.specs.Prelude.{◌≡◌};
    ghost use Rattle.pv_asm.specs.declared.fault.AsmFault.TheVariants as fault;

    ghost from_gives = { λ _ e. e ≡ fault.Memory };

    fn from(_e: pv_value::Memory) -> AsmFault {
        AsmFault::Memory
    }
}
