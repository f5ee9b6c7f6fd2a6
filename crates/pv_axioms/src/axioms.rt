//! The tables of axioms, and the axiom with a number.

ghost use Rattle.std.specs.List.{find};
ghost use Rattle.std.specs.Option.{option_copied};
ghost use Rattle.std.specs.Prelude.{◌≡◌, ◌↔◌, ◌==◌, IfOk, IsTrue, MatchOption, map};
ghost use Rattle.pv_pattern.specs.Seen.{axiom_seen};
ghost use Rattle.pv_axioms.specs.Entries.{HasNone, Instance, IsEntry, OpenInstance, axioms, tables};

use pv_choiceax::choice_axioms;
use pv_graph::{Graph, NodeId};
use pv_heapax::heap_axioms;
use pv_loopax::loop_axioms;
use pv_pattern::{Axiom, instance, open_instance};
use pv_scalar::scalar_axioms;
use pv_value::Memory;
use std::alloc::Global;
use std::marker::Model;

/// The axioms of all tables.
#[derive(Drop)]
pub struct Axioms {
    scalar: Vec<Axiom>,
    loops: Vec<Axiom>,
    heap: Vec<Axiom>,
    choices: Vec<Axiom>,
}

impl Model for Axioms {
    ghost use Rattle.pv_axioms.specs.Tables.{AreTables};

    ghost Value = { Unit {0} };

    ghost view = { λ a. tt };

    ghost invariant = { λ a. AreTables a.scalar.items a.loops.items a.heap.items a.choices.items };
}

// The first axiom of a table that has this number.
fn entry(table: &[Axiom], number: u32) -> Option<&Axiom>
    ensures { option_copied result ≡ find (λ a. a.number == number) table.now }
{
    table.iter().find(|axiom| axiom.number == number)
}

impl Axioms {
    /// The tables.
    pub fn new(alloc: Global) -> Result<Axioms, Memory> {
        Ok(Axioms {
            scalar: scalar_axioms(alloc)?,
            loops: loop_axioms(alloc)?,
            heap: heap_axioms(alloc)?,
            choices: choice_axioms(alloc)?,
        })
    }

    /// The axioms, table by table.
    pub fn tables(&self) -> [&[Axiom]; 4]
        ensures { map (λ table. map axiom_seen table.now) result ≡ tables }
    {
        [&self.scalar, &self.loops, &self.heap, &self.choices]
    }

    /// The axiom with a number, or `None` where no table has one.
    pub fn axiom(&self, number: u32) -> Option<&Axiom>
        ensures { MatchOption result (HasNone axioms number) (λ a. IsEntry axioms number (axiom_seen a.now)) }
    {
        let scalar = entry(&self.scalar, number);
        let loops = entry(&self.loops, number);
        let heap = entry(&self.heap, number);
        let choices = entry(&self.choices, number);
        scalar.or(loops.or(heap)).or(choices)
    }

    /// Whether two nodes are the sides of an instance of the axiom with a number: under a substitution, and
    /// with some nodes assumed to end.
    pub fn instance_of(
        &self,
        alloc: Global,
        graph: &Graph,
        assumed: &[NodeId],
        number: u32,
        subst: &[NodeId],
        left: NodeId,
        right: NodeId,
    ) -> Result<bool, Memory>
        ensures { IfOk result (λ yes. IsTrue yes ↔ Instance graph.now assumed.now number subst.now left right) }
    {
        match self.axiom(number) {
            Some(axiom) => instance(alloc, graph, assumed, axiom, subst, left, right),
            None => Ok(false),
        }
    }

    /// The same whatever stands for the variables of the graph, if only settled nodes may stand for those that are
    /// assumed to end.
    pub fn open_instance_of(
        &self,
        alloc: Global,
        graph: &Graph,
        assumed: &[NodeId],
        number: u32,
        subst: &[NodeId],
        left: NodeId,
        right: NodeId,
    ) -> Result<bool, Memory>
        ensures { IfOk result (λ yes. IsTrue yes ↔ OpenInstance graph.now assumed.now number subst.now left right) }
    {
        match self.axiom(number) {
            Some(axiom) => open_instance(alloc, graph, assumed, axiom, subst, left, right),
            None => Ok(false),
        }
    }
}
