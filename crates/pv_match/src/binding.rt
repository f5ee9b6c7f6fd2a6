//! Bindings: what some names and variables stand for.

ghost use Rattle.std.specs.Prelude.{◌≡◌, ◌++◌, ◌∷◌, [], ◌<◌, false, length, IfOk, IfSome, MatchOption};
ghost use Rattle.pv_graph.specs.Walks.{In};
ghost use Rattle.pv_pattern.specs.Found.{same_name};
ghost use Rattle.pv_match.specs.Bindings.{IsEmpty, IsPlace, bound, named};
ghost use Rattle.pv_match.specs.Parameters.{is_among};

use pv_graph::NodeId;
use pv_pattern::NameId;
use pv_value::Memory;
use std::alloc::Global;

/// A name, and a node that shows what it stands for.
#[derive(Clone, Copy)]
pub(crate) struct Named {
    pub(crate) name: NameId,
    pub(crate) node: NodeId,
}

/// Nodes for some names, and the classes of the first variables.
#[derive(Drop)]
pub(crate) struct Binding {
    pub(crate) names: Vec<Named>,
    pub(crate) vars: Vec<u32>,
}

pub(crate) fn is_same(a: NameId, b: NameId) -> bool
    ensures { result ≡ same_name a b }
{
    match (a, b) {
        (NameId::Depth, NameId::Depth) => true,
        (NameId::Symbol(s), NameId::Symbol(t)) => s == t,
        (NameId::Kind(k), NameId::Kind(l)) => k == l,
        (NameId::Constant(j), NameId::Constant(k)) => j == k,
        (NameId::Operation, NameId::Operation) => true,
        _ => false,
    }
}

impl Binding {
    // Of nothing.
    pub(crate) fn empty(alloc: Global) -> Binding
        ensures { IsEmpty result }
    {
        Binding {
            names: Vec::new(alloc),
            vars: Vec::new(alloc),
        }
    }

    // An equal binding.
    pub(crate) fn copy(&self, alloc: Global) -> Result<Binding, Memory>
        ensures names { IfOk result (λ copy. copy.names.items ≡ self.now.names.items) }
        ensures vars { IfOk result (λ copy. copy.vars.items ≡ self.now.vars.items) }
    {
        Ok(Binding {
            names: Vec::from_slice(alloc, &self.names)?,
            vars: Vec::from_slice(alloc, &self.vars)?,
        })
    }

    // The node at which a name is bound.
    pub(crate) fn place(&self, name: NameId) -> Option<NodeId>
        ensures { MatchOption result (is_among (bound self.now) name ≡ false) (λ n. IsPlace self.now name n) }
    {
        for named in &self.names {
            if is_same(named.name, name) {
                return Some(named.node);
            }
        }
        None
    }

    // One more name.
    pub(crate) fn with_name(
        &self,
        alloc: Global,
        name: NameId,
        node: NodeId,
    ) -> Result<Binding, Memory>
        ensures names { IfOk result (λ b. b.names.items ≡ self.now.names.items ++ named name node ∷ []) }
        ensures vars { IfOk result (λ b. b.vars.items ≡ self.now.vars.items) }
    {
        let mut b = self.copy(alloc)?;
        b.names.push(Named { name, node })?;
        Ok(b)
    }

    // One more variable.
    pub(crate) fn with_var(&self, alloc: Global, class: u32) -> Result<Binding, Memory>
        ensures names { IfOk result (λ b. b.names.items ≡ self.now.names.items) }
        ensures vars { IfOk result (λ b. b.vars.items ≡ self.now.vars.items ++ class ∷ []) }
    {
        let mut b = self.copy(alloc)?;
        b.vars.push(class)?;
        Ok(b)
    }
}
