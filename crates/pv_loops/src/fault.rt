//! Steps of the reduction, and why a shape has no forest of loops.

ghost use Rattle.std.specs.Prelude.{◌≡◌};
ghost use Rattle.pv_loops.specs.declared.fault.LoopFault.TheVariants.{Memory};

use std::alloc::{AllocError, AllocFailed};

/// A step of interval reduction (Hecht and Ullman).
#[derive(Clone, Copy, Debug, PartialEq, Eq)]
pub enum TStep {
    /// Drops the edge from a node to itself.
    T1(u32),
    /// Merges a node, other than the entry, with exactly one predecessor into that predecessor: the
    /// node and then the predecessor.
    T2(u32, u32),
}

/// Why a shape has no forest of loops.
#[derive(Debug, Drop)]
pub enum LoopFault {
    /// These steps lead to two or more nodes to which no step applies.
    Irreducible(Vec<TStep>),
    /// Loops nest deeper than 16; the depth is 17.
    Deep(u32),
    /// Out of memory.
    Memory,
}

impl From<AllocError> for LoopFault {
    ghost from_gives = { λ _ e. e ≡ Memory };

    fn from(_e: AllocError) -> LoopFault {
        LoopFault::Memory
    }
}

impl<T: Drop> From<AllocFailed<T>> for LoopFault {
    ghost from_gives = { λ _ e. e ≡ Memory };

    fn from(_e: AllocFailed<T>) -> LoopFault {
        LoopFault::Memory
    }
}
