//! Where the labels of a method stand.

ghost use Rattle.std.specs.Prelude.{◌≡◌, ◌+◌, [], IfOk, IfSome, OnOk};
ghost use Rattle.pv_asm.specs.Labels.{padding, switch_size, size_at, address_of, put, labels_from};

use crate::opcode::{BIPUSH, GOTO_W, LDC};
use indexmap::IndexMap;
use pv_listing::{Line, Operands};
use pv_value::{Memory, Name};
use std::alloc::Global;
use std::marker::Model;

/// How many bytes stand between the opcode of a switch at an address and its numbers.
pub(crate) fn padding(at: usize) -> usize
    ensures { result ≡ padding at }
{
    3 - at % 4
}

// How many bytes a switch with n numbers has; None where that is no usize.
fn switch_size(at: usize, n: usize) -> Option<usize>
    ensures { IfSome result (λ size. size ≡ switch_size at n) }
{
    n.checked_mul(4)?.checked_add(1 + padding(at))
}

// How many bytes an instruction at an address has; None where that is no usize.
fn size_at(at: usize, op: u8, operands: &Operands) -> Option<usize>
    ensures { IfSome result (λ size. size ≡ size_at at op operands.now) }
{
    match operands {
        Operands::Nothing => Some(1),
        Operands::Number(_) => Some(if op == BIPUSH { 2 } else { 3 }),
        Operands::Int(_) => Some(if op == LDC { 2 } else { 3 }),
        Operands::Label(_) => Some(if op == GOTO_W { 5 } else { 3 }),
        Operands::Local(_) => Some(2),
        Operands::Increment(..) | Operands::Long(_) | Operands::Member(_) => Some(3),
        Operands::Table(_, _, labels) => {
            switch_size(at, labels.as_slice().len().checked_add(3)?)
        }
        Operands::Lookup(_, pairs) => {
            switch_size(at, pairs.as_slice().len().checked_mul(2)?.checked_add(2)?)
        }
    }
}

// The address after an instruction.
fn address_after(at: usize, op: u8, operands: &Operands) -> Result<usize, Memory>
    ensures { IfOk result (λ n. n ≡ at + size_at at op operands.now) }
{
    let Some(size) = size_at(at, op, operands) else {
        return Err(Memory);
    };
    match at.checked_add(size) {
        Some(next) => Ok(next),
        None => Err(Memory),
    }
}

/// Labels, each with the address where it stands first; seen as their list.
#[derive(Debug, Drop)]
pub(crate) struct Labels {
    addresses: IndexMap<Name, usize>,
}

impl Model for Labels {
    ghost use Rattle.std.specs.Prelude.{List, ℕ};

    ghost Value = { List (List ℕ × ℕ) };

    ghost view = { λ l. l.addresses.entries };
}

impl Labels {
    // No label.
    fn new(alloc: Global) -> Labels
        ensures { result ≡ [] }
    {
        Labels {
            addresses: IndexMap::new(alloc),
        }
    }

    /// The address of a label.
    pub(crate) fn address_of(&self, label: &Name) -> Option<usize>
        ensures { result ≡ address_of label.now self.now }
    {
        self.addresses.get(label).copied()
    }

    // A label stands at an address.
    fn put(&mut self, label: &Name, at: usize) -> Result<(), Memory>
        ensures { OnOk result (self.new ≡ put self.old label.now at) }
    {
        if self.address_of(label).is_some() {
            return Ok(());
        }
        self.addresses.insert(label.clone()?, at)?;
        Ok(())
    }
}

/// The labels of the method whose lines these are, up to its end.
pub(crate) fn labels_of(alloc: Global, lines: &[Option<Line>]) -> Result<Labels, Memory>
    ensures { IfOk result (λ labels. labels ≡ labels_from [] 0 lines.now) }
{
    let mut labels = Labels::new(alloc);
    let mut at = 0;
    for line in lines {
        match line {
            Some(Line::End) => return Ok(labels),
            Some(Line::Label(label)) => labels.put(label, at)?,
            Some(Line::Instruction(op, operands)) => at = address_after(at, *op, operands)?,
            _ => {}
        }
    }
    Ok(labels)
}
