//! Signatures, with their places.

ghost use Rattle.std.specs.Prelude.{◌≡◌, ◌∷◌, ◌++◌, [], not, IfOk};
ghost use Rattle.std.specs.List.{list_any, position};
ghost use Rattle.pv_class.specs.Deciding.{alike};
ghost use Rattle.pv_class.specs.Reading.{Puts};

use crate::signature::Signature;
use indexmap::IndexSet;
use pv_value::Memory;
use std::alloc::Global;
use std::marker::Model;

/// Signatures in order, of which no two are the same.
#[derive(Debug, Drop)]
pub(crate) struct Seen {
    signatures: IndexSet<Signature>,
}

impl Model for Seen {
    ghost use Rattle.std.specs.Prelude.{List};
    ghost use Rattle.pv_class.specs.declared.signature.Signature.{Signature};

    ghost Value = { List Signature };

    ghost view = { λ s. s.signatures.keys };
}

impl Seen {
    /// No signature.
    pub(crate) fn new(alloc: Global) -> Seen
        ensures { result ≡ [] }
    {
        Seen {
            signatures: IndexSet::new(alloc),
        }
    }

    /// Adds a signature at the end where it is new, and says whether it is.
    pub(crate) fn put(&mut self, signature: Signature) -> Result<bool, Memory>
        ensures { IfOk result (λ is_new. Puts self.old self.new signature is_new) }
    {
        Ok(self.signatures.insert(signature)?)
    }

    /// The place of a signature.
    pub(crate) fn place(&self, signature: &Signature) -> Option<usize>
        ensures { result ≡ position (alike signature.now) self.now }
    {
        self.signatures.get_index_of(signature)
    }
}
