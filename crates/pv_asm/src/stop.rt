//! Why a line adds nothing.

use std::alloc::{AllocError, AllocFailed};

/// Why a line adds nothing to a class: it has no reading, or memory ran out.
#[derive(Clone, Copy, Debug)]
pub(crate) enum Stop {
    NoReading,
    Memory,
}

impl From<AllocError> for Stop {
    ghost use Rattle.std.specs.Prelude.{◌≡◌};
    ghost use Rattle.pv_asm.specs.declared.stop.Stop.TheVariants as stop;

    ghost from_gives = { λ _ e. e ≡ stop.Memory };

    fn from(_e: AllocError) -> Stop {
        Stop::Memory
    }
}

impl<T: Drop> From<AllocFailed<T>> for Stop {
    ghost use Rattle.std.specs.Prelude.{◌≡◌};
    ghost use Rattle.pv_asm.specs.declared.stop.Stop.TheVariants as stop;

    ghost from_gives = { λ _ e. e ≡ stop.Memory };

    fn from(_e: AllocFailed<T>) -> Stop {
        Stop::Memory
    }
}

impl From<pv_value::Memory> for Stop {
    ghost use Rattle.std.specs.Prelude.{◌≡◌};
    ghost use Rattle.pv_asm.specs.declared.stop.Stop.TheVariants as stop;

    ghost from_gives = { λ _ e. e ≡ stop.Memory };

    fn from(_e: pv_value::Memory) -> Stop {
        Stop::Memory
    }
}
