//! The lemmas of a certificate, tested.

ghost use Rattle.std.specs.Prelude.{◌≡◌, ◌↔◌, ◌≤◌, IfOk, IsTrue, length};
ghost use Rattle.pv_lemmas.specs.Lemmas.{Accepts};

use crate::before::Before;
use crate::inside::accept;
use pv_axioms::Axioms;
use pv_base::Gate;
use pv_lemmas::Known;
use pv_pieces::Workers;
use pv_steps::Lemma;
use pv_value::Memory;
use std::alloc::Global;
use std::marker::Model;
use std::thread::Threads;

/// The lemmas of a certificate, of each of which it is known whether it is accepted. Lemmas are counted from 1.
#[derive(Drop)]
pub struct Lemmas<'a> {
    lemmas: &'a [Lemma],
    known: Vec<Option<Known<'a>>>,
}

impl<'a> Model for Lemmas<'a> {
    ghost use Rattle.std.specs.Prelude.{List, reverse};
    ghost use Rattle.pv_steps.specs.declared.step.Lemma.{Lemma};
    ghost use Rattle.pv_rules.specs.Known.{AreKnown};

    ghost Value = { List Lemma };

    ghost view = { λ l. l.lemmas.now };

    ghost invariant = { λ l. AreKnown (reverse l.lemmas.now) (reverse l.known.items) };
}

impl<'a> Lemmas<'a> {
    /// Tests the lemmas, each with those before it. Workers change no answer. Out of memory is the one error.
    pub fn new<T: Threads + Sync, G: Gate>(
        workers: &Workers<T, G>,
        alloc: Global,
        axioms: &Axioms,
        lemmas: &'a [Lemma],
    ) -> Result<Lemmas<'a>, Memory>
        ensures { IfOk result (λ r. r ≡ lemmas.now) }
    {
        let mut so_far = Vec::new(alloc);
        for (k, lemma) in lemmas.iter().enumerate() {
            let before = Before::new(&lemmas[..k], so_far.as_slice());
            let known = accept(workers, alloc, axioms, &before, lemma)?;
            so_far.push(known)?;
        }
        Ok(Lemmas {
            lemmas,
            known: so_far,
        })
    }

    /// Whether lemma n is accepted (`Accepts`). It takes no memory.
    pub fn accepted(&self, n: usize) -> bool
        requires first { 1 ≤ n }
        requires last { n ≤ length self.now }
        ensures { IsTrue result ↔ Accepts self.now n }
    {
        self.known[n - 1].is_some()
    }

    // All of them, as those before a step of a section.
    pub(crate) fn all(&self) -> Before<'_>
        ensures { result ≡ self.now }
    {
        Before::new(self.lemmas, self.known.as_slice())
    }
}
