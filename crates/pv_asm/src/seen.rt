//! What may stand once: signatures in a class, and labels in a method.

ghost use Rattle.std.specs.Prelude.{◌≡◌, []};
ghost use Rattle.pv_asm.specs.Listings.{put_signature, put_label};
ghost use Rattle.pv_asm.specs.Stopping.{Yields};

use crate::stop::Stop;
use indexmap::IndexSet;
use pv_value::Name;
use std::alloc::Global;
use std::marker::Model;

/// The most methods of a class (JVMS 4.1).
const MOST_METHODS: usize = 65535;

/// The name and the descriptor of a method. No two methods of a class have the same (JVMS 4.6).
#[derive(Debug, Drop, PartialEq, Eq, Hash)]
pub(crate) struct Signature {
    pub name: Name,
    pub desc: Name,
}

/// Signatures in order, of which no two are the same.
#[derive(Debug, Drop)]
pub(crate) struct Signatures {
    seen: IndexSet<Signature>,
}

impl Model for Signatures {
    ghost use Rattle.std.specs.Prelude.{List};
    ghost use Rattle.pv_asm.specs.declared.seen.Signature.{Signature};

    ghost Value = { List Signature };

    ghost view = { λ s. s.seen.keys };
}

impl Signatures {
    /// No signature.
    pub(crate) fn new(alloc: Global) -> Signatures
        ensures { result ≡ [] }
    {
        Signatures {
            seen: IndexSet::new(alloc),
        }
    }

    /// Adds one that is new, if there are fewer than the most methods of a class.
    pub(crate) fn put(&mut self, signature: Signature) -> Result<(), Stop>
        ensures { Yields (λ u. self.new) result (put_signature self.old signature) }
    {
        if self.seen.len() >= MOST_METHODS {
            return Err(Stop::NoReading);
        }
        if self.seen.insert(signature)? {
            Ok(())
        } else {
            Err(Stop::NoReading)
        }
    }
}

/// The labels of a method in order, of which no two are the same.
#[derive(Debug, Drop)]
pub(crate) struct SeenLabels {
    seen: IndexSet<Name>,
}

impl Model for SeenLabels {
    ghost use Rattle.std.specs.Prelude.{List, ℕ};

    ghost Value = { List (List ℕ) };

    ghost view = { λ s. s.seen.keys };
}

impl SeenLabels {
    /// No label.
    pub(crate) fn new(alloc: Global) -> SeenLabels
        ensures { result ≡ [] }
    {
        SeenLabels {
            seen: IndexSet::new(alloc),
        }
    }

    /// Adds one that is new.
    pub(crate) fn put(&mut self, label: Name) -> Result<(), Stop>
        ensures { Yields (λ u. self.new) result (put_label self.old label) }
    {
        if self.seen.insert(label)? {
            Ok(())
        } else {
            Err(Stop::NoReading)
        }
    }
}
