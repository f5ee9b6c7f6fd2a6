//! The axioms and the lemmas of a certificate as rules, by which `pv_check` checks its sections.
//!
//! This layer stands on `pv_axioms`, which tests instances of axioms, on `pv_lemmas`, which tests uses of accepted lemmas, and
//! on `pv_check`, which checks steps by rules (`Rules`). The definition that it meets is that of `pv_lemmas`: a lemma is accepted
//! (`Accepts` of `specs/Lemmas`) where none of its steps opens or closes a block, all of them are right by the rules inside it,
//! its two sides are nodes of the graph after them, and they show that these are equal. Those rules are the axioms whatever stands for its variables, and the
//! accepted ones of the lemmas before it: no lemma rests on itself or on a later one.
//!
//! `Lemmas` tests all lemmas of a certificate, in their order. It keeps the graph of each that is accepted (`Known`), and of each other
//! one that there is none (`specs/Known`, `AreKnown`). `inside` tests a lemma: it checks the steps with `Checker`, over the
//! graph of its variables and by `LemmaRules`. `before` finds the lemma with a number, and tests a use of it.
//!
//! The layers above use `Lemmas`, which contracts see as the list of lemmas: `new` takes those of a certificate, and `accepted` is
//! yes exactly where the lemma with a number is accepted. They check a section by `SectionRules`, whose rules are the axioms and the accepted
//! lemmas (`ByLemmas`), and the law `Sound` of `pv_lemmas` says that these are sound. `proofs/Cited` passes on that law, that a
//! section is accepted by more rules too (`derives_more`), and that one accepted by the axioms alone is so by them and no lemmas (`without_lemmas`).
#![tactic(auto)]

mod before;
mod inside;
mod lemmas;
mod section;

pub use lemmas::Lemmas;
pub use section::SectionRules;
