//! Why a reader has no value.

use pv_value::Memory;
use std::alloc::{AllocError, AllocFailed};

/// Why reading stops: the bytes have a fault, or memory ran out.
#[derive(Clone, Copy, Debug)]
pub enum Stopped<F> {
    Failed(F),
    Memory,
}

impl<F> From<AllocError> for Stopped<F> {
    ghost use Rattle.std.specs.Prelude.{◌≡◌};
    ghost use Rattle.pv_format.specs.declared.stopped.Stopped.TheVariants as stopped;

    ghost from_gives = { λ _ e. e ≡ stopped.Memory };

    fn from(_e: AllocError) -> Stopped<F> {
        Stopped::Memory
    }
}

impl<T: Drop, F> From<AllocFailed<T>> for Stopped<F> {
    ghost use Rattle.std.specs.Prelude.{◌≡◌};
    ghost use Rattle.pv_format.specs.declared.stopped.Stopped.TheVariants as stopped;

    ghost from_gives = { λ _ e. e ≡ stopped.Memory };

    fn from(_e: AllocFailed<T>) -> Stopped<F> {
        Stopped::Memory
    }
}

impl<F> From<Memory> for Stopped<F> {
    ghost use Rattle.std.specs.Prelude.{◌≡◌};
    ghost use Rattle.pv_format.specs.declared.stopped.Stopped.TheVariants as stopped;

    ghost from_gives = { λ _ e. e ≡ stopped.Memory };

    fn from(_e: Memory) -> Stopped<F> {
        Stopped::Memory
    }
}
