//! Axioms as constants of a table, and the axioms made of them.

ghost use Rattle.std.specs.Prelude.{◌≡◌, ◌++◌, IfOk, OnOk, map};
ghost use Rattle.pv_pattern.specs.Seen.{axiom_seen, seen};
ghost use Rattle.pv_pattern.specs.Tables.{axiom_written, written};

use crate::pattern::{Atom, Axiom, By, Each, Head, Pattern, Side};
use pv_value::{Memory, ScalarOp};
use std::alloc::{AllocError, Global};

/// A pattern as a constant: `Over2` is `Over` with two patterns, and the others alike.
pub enum Term {
    Var(u32),
    Constant(u32),
    Fold(ScalarOp, &'static [Atom]),
    Narrowed(By, &'static Term),
    Over0(Head),
    Over1(Head, &'static Term),
    Over2(Head, &'static Term, &'static Term),
    Over3(Head, &'static Term, &'static Term, &'static Term),
    Over4(Head, &'static Term, &'static Term, &'static Term, &'static Term),
    OverEach(u32, Each),
}

/// An axiom as a constant: its number, its two sides and its conditions.
pub struct Row(pub u32, pub Term, pub Term, pub &'static [Side]);

// The pattern that a constant writes.
fn pattern_of(alloc: Global, term: &Term) -> Result<Pattern, AllocError>
    ensures { IfOk result (λ p. seen p ≡ written term.now) }
{
    match term {
        Term::Var(j) => Ok(Pattern::Var(*j)),
        Term::Constant(j) => Ok(Pattern::Constant(*j)),
        Term::Fold(op, atoms) => Ok(Pattern::Fold(*op, Vec::from_slice(alloc, atoms)?)),
        Term::Narrowed(by, inner) => {
            let inner = pattern_of(alloc, inner)?;
            Ok(Pattern::Narrowed(*by, Box::new(alloc, inner)?))
        }
        Term::Over0(head) => Ok(Pattern::Over(*head, Vec::new(alloc))),
        Term::Over1(head, p) => {
            let p = pattern_of(alloc, p)?;
            Ok(Pattern::Over(*head, vec![in alloc; p]?))
        }
        Term::Over2(head, p, q) => {
            let p = pattern_of(alloc, p)?;
            let q = pattern_of(alloc, q)?;
            Ok(Pattern::Over(*head, vec![in alloc; p, q]?))
        }
        Term::Over3(head, p, q, r) => {
            let p = pattern_of(alloc, p)?;
            let q = pattern_of(alloc, q)?;
            let r = pattern_of(alloc, r)?;
            Ok(Pattern::Over(*head, vec![in alloc; p, q, r]?))
        }
        Term::Over4(head, p, q, r, s) => {
            let p = pattern_of(alloc, p)?;
            let q = pattern_of(alloc, q)?;
            let r = pattern_of(alloc, r)?;
            let s = pattern_of(alloc, s)?;
            Ok(Pattern::Over(*head, vec![in alloc; p, q, r, s]?))
        }
        Term::OverEach(n, each) => Ok(Pattern::OverEach(*n, *each)),
    }
}

// The axiom that a row writes.
fn axiom_of(alloc: Global, row: &Row) -> Result<Axiom, AllocError>
    ensures { IfOk result (λ a. axiom_seen a ≡ axiom_written row.now) }
{
    Ok(Axiom {
        number: row.0,
        left: pattern_of(alloc, &row.1)?,
        right: pattern_of(alloc, &row.2)?,
        sides: Vec::from_slice(alloc, row.3)?,
    })
}

/// Adds the axioms that the rows of a table write, in order.
pub fn add_axioms(alloc: Global, axioms: &mut Vec<Axiom>, rows: &[Row]) -> Result<(), Memory>
    ensures { OnOk result (map axiom_seen axioms.new.items ≡ map axiom_seen axioms.old.items ++ map axiom_written rows.now) }
{
    for row in rows {
        axioms.push(axiom_of(alloc, row)?)?;
    }
    Ok(())
}
