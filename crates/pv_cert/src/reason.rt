//! Facts and reasons as words.

ghost use Rattle.std.specs.Prelude.{◌≡◌, ◌++◌, OnOk};
ghost use Rattle.pv_cert.specs.Reasons.{read_reason, spelled_reason};

use pv_format::cut_at;
use pv_steps::{Fact, Reason};
use pv_token::{Number, Token};
use std::alloc::AllocError;

/// Facts: K.J.
pub struct FactWord;

impl Token for FactWord {
    ghost use Rattle.pv_cert.specs.Reasons.{fact_token};

    type Value = Fact;

    ghost token = { fact_token };

    fn read(word: &[u8]) -> Option<Fact> {
        let (step, place) = cut_at(b'.', word)?;
        let step = Number::read(step)?;
        let place = Number::read(place)?;
        Some(Fact { step, place })
    }

    fn push(out: &mut Vec<u8>, value: Fact) -> Result<(), AllocError> {
        Number::push(out, value.step)?;
        out.extend_from_slice(b".")?;
        Number::push(out, value.place)
    }
}

// The reason that a word spells outside of a set.
fn read_reason(word: &[u8]) -> Option<Reason>
    ensures { result ≡ read_reason word.now }
{
    if word == b"=".as_slice() {
        return Some(Reason::Same);
    }
    match FactWord::read(word) {
        None => None,
        Some(fact) => Some(Reason::By(fact)),
    }
}

// Adds a reason at the end.
fn push_reason(out: &mut Vec<u8>, reason: Reason) -> Result<(), AllocError>
    ensures { OnOk result (out.new.items ≡ out.old.items ++ spelled_reason reason) }
{
    match reason {
        Reason::Same => out.extend_from_slice(b"="),
        Reason::By(fact) => FactWord::push(out, fact),
        Reason::Pair(j) => {
            out.extend_from_slice(b"s")?;
            Number::push(out, j)
        }
    }
}

/// Reasons: `=` or K.J.
pub struct ReasonWord;

impl Token for ReasonWord {
    ghost use Rattle.pv_cert.specs.Sets.{reason_token};

    type Value = Reason;

    ghost token = { reason_token };

    fn read(word: &[u8]) -> Option<Reason> {
        read_reason(word)
    }

    fn push(out: &mut Vec<u8>, value: Reason) -> Result<(), AllocError> {
        push_reason(out, value)
    }
}

/// Reasons in a set: `=`, K.J or sJ.
pub struct SetReasonWord;

impl Token for SetReasonWord {
    ghost use Rattle.pv_cert.specs.Sets.{set_reason_token};

    type Value = Reason;

    ghost token = { set_reason_token };

    fn read(word: &[u8]) -> Option<Reason> {
        match word {
            [] => None,
            [b's', pair @ ..] => match Number::read(pair) {
                None => None,
                Some(j) => Some(Reason::Pair(j)),
            },
            _ => read_reason(word),
        }
    }

    fn push(out: &mut Vec<u8>, value: Reason) -> Result<(), AllocError> {
        push_reason(out, value)
    }
}
