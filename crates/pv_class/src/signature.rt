//! What no two methods of a class share.

ghost use Rattle.std.specs.Cmp.Rules.{hashing};
ghost use Rattle.std.specs.Hash as fed;
ghost use Rattle.std.proofs.Common.{rules};

use pv_value::Name;
use std::hash::{Hash, Hasher};

/// The name and the descriptor of a method. No two methods of a class have the same (JVMS 4.6).
#[derive(Debug, Drop, PartialEq, Eq)]
pub(crate) struct Signature {
    pub name: Name,
    pub desc: Name,
}

impl Hash for Signature {
    ghost use Rattle.std.specs.Prelude.{◌++◌};

    ghost hash_input = { λ s. fed.slice fed.u8 s.name ++ fed.slice fed.u8 s.desc };

    ghost respects_eq = { Prim.search (hashing, rules) };

    fn hash<H: Hasher>(&self, state: &mut H) {
        self.name.bytes().hash(state);
        self.desc.bytes().hash(state);
    }
}
