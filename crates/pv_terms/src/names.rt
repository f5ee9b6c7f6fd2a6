//! The names of thetas.

ghost use Rattle.std.specs.Prelude.{◌≡◌, [], ◌∷◌, ◌++◌, OnOk, OnErr};
ghost use Rattle.pv_terms.specs.declared.names.Named.{Named};

use pv_graph::NodeId;
use pv_value::Memory;
use std::alloc::Global;
use std::marker::Model;

/// The theta of a carried slot at the header of a loop, and its node.
#[derive(Clone, Copy, Debug, PartialEq, Eq)]
pub struct Named {
    pub header: u32,
    pub slot: u32,
    pub node: NodeId,
}

/// The names so far, seen as their list.
#[derive(Debug, Drop)]
pub struct Names {
    items: Vec<Named>,
}

impl Model for Names {
    ghost use Rattle.std.specs.Prelude.{List};
    ghost use Rattle.pv_terms.specs.declared.names.Named.{Named};

    ghost Value = { List Named };

    ghost view = { λ names. names.items.items };
}

impl Names {
    /// No names.
    pub fn new(alloc: Global) -> Names
        ensures { result ≡ [] }
    {
        Names {
            items: Vec::new(alloc),
        }
    }

    /// The names in the order in which they were begun.
    pub fn as_slice(&self) -> &[Named]
        ensures { result.now ≡ self.now }
    {
        &self.items
    }

    // One name more.
    pub(crate) fn push(&mut self, name: Named) -> Result<(), Memory>
        ensures ok { OnOk result (self.new ≡ self.old ++ name ∷ []) }
        ensures err { OnErr result (self.new ≡ self.old) }
    {
        self.items.push(name)?;
        Ok(())
    }
}
