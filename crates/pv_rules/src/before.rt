//! The first lemmas of a certificate, with what is known of each.

ghost use Rattle.std.specs.Prelude.{◌≡◌, ◌↔◌, IfOk, IsTrue, MatchOption, reverse};
ghost use Rattle.pv_lemmas.specs.Lemmas.{Uses};
ghost use Rattle.pv_rules.specs.Known.{AreKnown, IsFound, NoneUses};

use pv_lemmas::{Known, Place};
use pv_steps::Lemma;
use pv_value::Memory;
use std::alloc::Global;
use std::marker::Model;

/// Lemmas, each with its graph if those before it accept it. Lemmas are counted from 1.
#[derive(Drop)]
pub(crate) struct Before<'a> {
    lemmas: &'a [Lemma],
    known: &'a [Option<Known<'a>>],
}

impl<'a> Model for Before<'a> {
    ghost use Rattle.std.specs.Prelude.{List, reverse};
    ghost use Rattle.pv_steps.specs.declared.step.Lemma.{Lemma};
    ghost use Rattle.pv_rules.specs.Known.{AreKnown};

    ghost Value = { List Lemma };

    ghost view = { λ b. b.lemmas.now };

    ghost invariant = { λ b. AreKnown (reverse b.lemmas.now) (reverse b.known.now) };
}

impl<'a> Before<'a> {
    /// These lemmas, of which this is known.
    pub(crate) fn new(lemmas: &'a [Lemma], known: &'a [Option<Known<'a>>]) -> Before<'a>
        requires { AreKnown (reverse lemmas.now) (reverse known.now) }
        ensures { result ≡ lemmas.now }
    {
        Before { lemmas, known }
    }

    // The lemma with a number, if it is accepted.
    fn accepted(&self, number: u32) -> Option<&Known<'a>>
        ensures { MatchOption result (NoneUses (reverse self.now) number) (λ known. IsFound (reverse self.now) number known.now) }
    {
        if number == 0 {
            return None;
        }
        match self.known.get(number as usize - 1) {
            Some(known) => known.as_ref(),
            None => None,
        }
    }

    /// Whether two nodes are the sides of the accepted lemma with a number.
    pub(crate) fn is_use(&self, alloc: Global, number: u32, at: &Place) -> Result<bool, Memory>
        ensures { IfOk result (λ yes. IsTrue yes ↔ Uses (reverse self.now) at.now.graph.now at.now.assumed.now number at.now.nodes.now at.now.left at.now.right) }
    {
        match self.accepted(number) {
            Some(known) => known.is_used(alloc, at),
            None => Ok(false),
        }
    }
}
