//! What the left side of an axiom has: its variables, the operation of its family, and its names.

ghost use Rattle.std.specs.Prelude.{◌≡◌, ◌∷◌, [], IfOk, OnOk, map};
ghost use Rattle.pv_pattern.specs.Binding.{atoms_names, by_name, each_names, listed_name, names, names_in};
ghost use Rattle.pv_pattern.specs.Found.{head_name, same_name};
ghost use Rattle.pv_pattern.specs.Patterns.{variables, variables_of};
ghost use Rattle.pv_pattern.specs.Seen.{atom_seen, by_seen, each_seen, head_seen, listed, seen};
ghost use Rattle.pv_pattern.specs.declared.names.NameId.TheVariants as name;
ghost use Rattle.pv_match.specs.Parameters.{is_among, once_more};
ghost use Rattle.pv_saturate.specs.Told.{families_in, family_in};

use pv_pattern::{Atom, By, Each, Head, NameId, Pattern, head_name};
use pv_value::Memory;
use std::alloc::Global;

// How many variables a pattern has.
#[cycle(variables)]
pub(crate) fn variables(pattern: &Pattern) -> usize
    ensures { result ≡ variables (seen pattern.now) }
{
    match pattern {
        Pattern::Var(j) | Pattern::Constant(j) => *j as usize + 1,
        Pattern::Fold(_, _) => 0,
        Pattern::Narrowed(_, inner) => variables(inner),
        Pattern::Over(_, patterns) => variables_of(patterns),
        Pattern::OverEach(_, Each::Evaluated(j)) => *j as usize + 1,
        Pattern::OverEach(_, _) => 0,
    }
}

// How many variables patterns have.
#[cycle(variables)]
fn variables_of(patterns: &[Pattern]) -> usize
    ensures { result ≡ variables_of (listed (map seen patterns.now)) }
{
    let mut most = 0;
    for pattern in patterns {
        most = most.max(variables(pattern));
    }
    most
}

// The number of the operation of the pattern's family; `other` where it is of none.
#[cycle(family)]
pub(crate) fn family(pattern: &Pattern, other: u32) -> u32
    ensures { result ≡ family_in other (seen pattern.now) }
{
    match pattern {
        Pattern::OverEach(number, _) => *number,
        Pattern::Over(_, patterns) => family_of(patterns, other),
        Pattern::Narrowed(_, inner) => family(inner, other),
        _ => other,
    }
}

// The same of patterns.
#[cycle(family)]
fn family_of(patterns: &[Pattern], other: u32) -> u32
    ensures { result ≡ families_in other (listed (map seen patterns.now)) }
{
    let mut number = other;
    for pattern in patterns {
        number = family(pattern, number);
    }
    number
}

fn is_same(a: NameId, b: NameId) -> bool
    ensures { result ≡ same_name a b }
{
    match (a, b) {
        (NameId::Depth, NameId::Depth) => true,
        (NameId::Symbol(s), NameId::Symbol(t)) => s == t,
        (NameId::Kind(k), NameId::Kind(l)) => k == l,
        (NameId::Constant(j), NameId::Constant(k)) => j == k,
        (NameId::Operation, NameId::Operation) => true,
        _ => false,
    }
}

fn is_among(known: &[NameId], name: NameId) -> bool
    ensures { result ≡ is_among known.now name }
{
    for other in known {
        if is_same(*other, name) {
            return true;
        }
    }
    false
}

// Adds a name, where it isn't there yet.
fn add_name(known: &mut Vec<NameId>, name: NameId) -> Result<(), Memory>
    ensures { OnOk result (known.new.items ≡ once_more known.old.items (name ∷ [])) }
{
    if !is_among(known, name) {
        known.push(name)?;
    }
    Ok(())
}

// Adds what an operation names.
fn add_head(known: &mut Vec<NameId>, head: Head) -> Result<(), Memory>
    ensures { OnOk result (known.new.items ≡ once_more known.old.items (listed_name (head_name (head_seen head)))) }
{
    match head_name(head) {
        Some(found) => add_name(known, found),
        None => Ok(()),
    }
}

// Adds what a narrowing names.
fn add_by(known: &mut Vec<NameId>, by: By) -> Result<(), Memory>
    ensures { OnOk result (known.new.items ≡ once_more known.old.items (by_name (by_seen by) ∷ [])) }
{
    match by {
        By::Symbol(s) => add_name(known, NameId::Symbol(s)),
        By::Kind(k) => add_name(known, NameId::Kind(k)),
    }
}

// Adds what a fold names.
fn add_atoms(known: &mut Vec<NameId>, atoms: &[Atom]) -> Result<(), Memory>
    ensures { OnOk result (known.new.items ≡ once_more known.old.items (atoms_names (map atom_seen atoms.now))) }
{
    for atom in atoms {
        if let Atom::Named(j) = atom {
            add_name(known, NameId::Constant(*j))?;
        }
    }
    Ok(())
}

// Adds what a family names.
fn add_family(known: &mut Vec<NameId>, each: Each) -> Result<(), Memory>
    ensures { OnOk result (known.new.items ≡ once_more known.old.items (name.Operation ∷ each_names (each_seen each))) }
{
    add_name(known, NameId::Operation)?;
    match each {
        Each::Bare => Ok(()),
        Each::Shifted | Each::Evaluated(_) => add_name(known, NameId::Depth),
    }
}

// Adds what a pattern names.
#[cycle(names)]
fn add_names(known: &mut Vec<NameId>, pattern: &Pattern) -> Result<(), Memory>
    ensures { OnOk result (known.new.items ≡ once_more known.old.items (names (seen pattern.now))) }
{
    match pattern {
        Pattern::Var(_) => Ok(()),
        Pattern::Constant(j) => add_name(known, NameId::Constant(*j)),
        Pattern::Fold(_, atoms) => add_atoms(known, atoms),
        Pattern::Narrowed(by, inner) => {
            add_by(known, *by)?;
            add_names(known, inner)
        }
        Pattern::Over(head, patterns) => {
            add_head(known, *head)?;
            add_all_names(known, patterns)
        }
        Pattern::OverEach(_, each) => add_family(known, *each),
    }
}

// Adds what patterns name, one after another.
#[cycle(names)]
fn add_all_names(known: &mut Vec<NameId>, patterns: &[Pattern]) -> Result<(), Memory>
    ensures { OnOk result (known.new.items ≡ once_more known.old.items (names_in (listed (map seen patterns.now)))) }
{
    for pattern in patterns {
        add_names(known, pattern)?;
    }
    Ok(())
}

// What a pattern names, each name once, in the order of first places.
pub(crate) fn names_of(alloc: Global, pattern: &Pattern) -> Result<Vec<NameId>, Memory>
    ensures { IfOk result (λ known. known.items ≡ once_more [] (names (seen pattern.now))) }
{
    let mut known = Vec::new(alloc);
    add_names(&mut known, pattern)?;
    Ok(known)
}
