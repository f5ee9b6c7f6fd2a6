//! The rules of a section.

use crate::lemmas::Lemmas;
use pv_axioms::Axioms;
use pv_check::Rules;
use pv_graph::{Graph, NodeId};
use pv_lemmas::Place;
use pv_value::Memory;
use std::alloc::Global;

/// The rules of a section: the axioms, and the accepted ones of these lemmas (`ByLemmas`).
#[derive(Clone, Copy)]
pub struct SectionRules<'a, 'l> {
    pub axioms: &'a Axioms,
    pub lemmas: &'a Lemmas<'l>,
}

impl Rules for SectionRules<'_, '_> {
    ghost use Rattle.pv_lemmas.specs.Lemmas.{ByLemmas};
    ghost use Rattle.pv_lemmas.proofs.Cited.{by_lemmas_prepared};

    ghost instances = { λ r. ByLemmas r.lemmas.now };

    ghost prepared = { λ r. by_lemmas_prepared r.lemmas.now };

    fn is_axiom(
        &self,
        alloc: Global,
        graph: &Graph,
        assumed: &[NodeId],
        number: u32,
        nodes: &[NodeId],
        a: NodeId,
        b: NodeId,
    ) -> Result<bool, Memory> {
        self.axioms
            .instance_of(alloc, graph, assumed, number, nodes, a, b)
    }

    fn is_lemma(
        &self,
        alloc: Global,
        graph: &Graph,
        assumed: &[NodeId],
        number: u32,
        nodes: &[NodeId],
        a: NodeId,
        b: NodeId,
    ) -> Result<bool, Memory> {
        let at = Place {
            graph,
            assumed,
            nodes,
            left: a,
            right: b,
        };
        self.lemmas.all().is_use(alloc, number, &at)
    }
}
