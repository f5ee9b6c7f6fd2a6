//! A gate that counts how often it is passed as piece 0.

use pv_base::Gate;
use std::sync::atomic::AtomicU64;
use std::sync::atomic::Ordering::SeqCst;

#[derive(Drop)]
pub(crate) struct CountingGate {
    count: AtomicU64,
}

impl CountingGate {
    /// A gate that wasn't passed.
    pub(crate) fn new() -> CountingGate {
        CountingGate {
            count: AtomicU64::new(0),
        }
    }

    /// How often it was passed as piece 0.
    pub(crate) fn count(&self) -> u64 {
        self.count.load(SeqCst)
    }
}

impl Gate for CountingGate {
    fn enter(&self, piece: usize) {
        if piece == 0 {
            self.count.fetch_add(1, SeqCst);
        }
    }
}
