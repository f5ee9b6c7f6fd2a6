//! What each piece of a parallel phase passes before its work on an item.

use std::hint;
use std::sync::atomic::{AtomicBool, AtomicU64, Ordering};

/// What each piece of a parallel phase passes before its work on an item. It changes no answer.
pub trait Gate: Sync {
    fn enter(&self, piece: usize);
}

/// A gate that is always open.
#[derive(Clone, Copy, Debug)]
pub struct OpenGate;

impl Gate for OpenGate {
    fn enter(&self, _piece: usize) {}
}

// How often a call that waits for its partner looks for it.
const TURNS: u32 = 100_000_000;

/// A gate that shows that two threads ran at once.
///
/// The calls of `enter` are numbered from 1, in the order in which they come. Each of the first meetings takes two of them: the call
/// with the odd number spins until the next has come, or 100,000,000 turns are done. No call spins any more once one has looked in
/// vain. What it counts is no part of any contract.
#[derive(Drop)]
pub struct MeetGate {
    meetings: u32,
    calls: AtomicU64,
    missed: AtomicBool,
}

impl MeetGate {
    /// A gate for this many meetings of two calls each.
    pub fn new(meetings: u32) -> MeetGate {
        MeetGate {
            meetings,
            calls: AtomicU64::new(0),
            missed: AtomicBool::new(false),
        }
    }

    /// How many calls of `enter` came.
    pub fn calls(&self) -> u64 {
        self.calls.load(Ordering::SeqCst)
    }

    /// Whether no call has looked for its partner in vain.
    pub fn met(&self) -> bool {
        !self.missed.load(Ordering::SeqCst)
    }

    // Whether the call of this number spins.
    fn waits(&self, number: u64) -> bool {
        number % 2 == 1 && number < 2 * u64::from(self.meetings) && self.met()
    }

    // Spins until a call has come after the one of this number.
    fn spin(&self, number: u64) {
        for _ in 0..TURNS {
            if self.calls() > number {
                return;
            }
            hint::spin_loop();
        }
        self.missed.store(true, Ordering::SeqCst);
    }
}

impl Gate for MeetGate {
    fn enter(&self, _piece: usize) {
        let number = self.calls.fetch_add(1, Ordering::SeqCst).wrapping_add(1);
        if self.waits(number) {
            self.spin(number);
        }
    }
}
