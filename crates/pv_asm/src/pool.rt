//! The constant pool of a listing, which grows as its lines need entries.

ghost use Rattle.std.specs.Prelude.{◌≡◌, ◌∷◌, ◌++◌, [], Some, IfOk, OnOk};
ghost use Rattle.std.specs.Int.{w32, w64, cast_unsigned};
ghost use Rattle.std.specs.List.{flat_map};
ghost use Rattle.pv_pool.specs.declared.entry.Entry.TheVariants as entry;
ghost use Rattle.pv_pool.specs.Entries.{entry_text};
ghost use Rattle.pv_asm.specs.Needs.{width, after, index_from, pool_text, needed, need_bytes, need, need_text, need_class, need_named, need_member};
ghost use Rattle.pv_asm.specs.Stopping.{Yields};

use crate::opcode::INVOKESTATIC;
use crate::stop::Stop;
use indexmap::IndexMap;
use pv_value::{Memory, Name, Sym};
use std::alloc::{AllocError, Global};
use std::marker::Model;

// Tags (JVMS table 4.4-A).
const UTF8: u8 = 1;

const INTEGER: u8 = 3;

const LONG: u8 = 5;

const CLASS: u8 = 7;

const FIELDREF: u8 = 9;

const METHODREF: u8 = 10;

const NAME_AND_TYPE: u8 = 12;

/// The greatest constant_pool_count.
const MOST: usize = 65535;

/// The bytes of an entry: its tag, and what comes after it.
fn spelled(alloc: Global, tag: u8, front: &[u8], back: &[u8]) -> Result<Name, Memory>
    ensures { IfOk result (λ text. text ≡ tag ∷ (front.now ++ back.now)) }
{
    let mut text = Vec::new(alloc);
    text.push(tag)?;
    text.extend_from_slice(front)?;
    text.extend_from_slice(back)?;
    Ok(Name::new(alloc, &text)?)
}

/// How many indices the entry of these bytes takes (JVMS 4.4.5).
fn width(text: &[u8]) -> usize
    ensures { result ≡ width text.now }
{
    match text {
        [LONG, ..] => 2,
        _ => 1,
    }
}

/// The entries that were needed so far, seen as the bytes of each.
#[derive(Debug, Drop)]
pub(crate) struct Pool {
    /// The bytes of each entry, with its index.
    entries: IndexMap<Name, u16>,
    /// constant_pool_count.
    count: u16,
}

impl Model for Pool {
    ghost use Rattle.std.specs.Prelude.{◌≡◌, List, ℕ};
    ghost use Rattle.indexmap.specs.IndexMap.{keys};
    ghost use Rattle.pv_asm.specs.Numbered.{numbered};
    ghost use Rattle.pv_asm.specs.Needs.{after};

    ghost Value = { List (List ℕ) };

    ghost view = { λ p. keys p.entries };

    ghost invariant = { λ p. (p.entries.entries ≡ numbered 1 (keys p.entries)) × (p.count ≡ after 1 (keys p.entries)) };
}

impl Pool {
    /// No entry.
    pub(crate) fn new(alloc: Global) -> Pool
        ensures { result ≡ [] }
    {
        Pool {
            entries: IndexMap::new(alloc),
            count: 1,
        }
    }

    // constant_pool_count.
    fn count(&self) -> u16
        ensures { result ≡ after 1 self.now }
    {
        self.count
    }

    // The entries are put after other bytes.
    fn push_entries(&self, out: &mut Vec<u8>) -> Result<(), AllocError>
        ensures { OnOk result (out.new.items ≡ out.old.items ++ flat_map (λ e. e) self.now) }
    {
        for (text, _) in &self.entries {
            out.extend_from_slice(text.bytes())?;
        }
        Ok(())
    }

    /// constant_pool_count and the entries are put after other bytes.
    pub(crate) fn push(&self, out: &mut Vec<u8>) -> Result<(), AllocError>
        ensures { OnOk result (out.new.items ≡ out.old.items ++ pool_text self.now) }
    {
        out.extend_from_slice(&self.count().to_be_bytes())?;
        self.push_entries(out)
    }

    /// The index of the entry of these bytes.
    fn find(&self, text: &Name) -> Option<u16>
        ensures { result ≡ index_from 1 self.now text.now }
    {
        self.entries.get(text).copied()
    }

    /// The index of the entry of these bytes, which is put after the others where it is new.
    fn need(&mut self, text: Name) -> Result<u16, Stop>
        ensures { Yields (λ i. needed i self.new) result (need_bytes self.old text) }
    {
        if let Some(index) = self.find(&text) {
            return Ok(index);
        }
        let index = self.count;
        let count = usize::from(index) + width(text.bytes());
        if count > MOST {
            return Err(Stop::NoReading);
        }
        self.entries.insert(text, index)?;
        self.count = count as u16;
        Ok(index)
    }

    /// The index of a text.
    pub(crate) fn need_text(&mut self, alloc: Global, text: &[u8]) -> Result<u16, Stop>
        ensures { Yields (λ i. needed i self.new) result (need_text self.old text.now) }
    {
        let Ok(len) = u16::try_from(text.len()) else {
            return Err(Stop::NoReading);
        };
        self.need(spelled(alloc, UTF8, &len.to_be_bytes(), text)?)
    }

    /// The index of an int.
    pub(crate) fn need_int(&mut self, alloc: Global, value: i32) -> Result<u16, Stop>
        ensures { Yields (λ i. needed i self.new) result (need self.old (entry.Integer (cast_unsigned w32 value))) }
    {
        self.need(spelled(alloc, INTEGER, &value.to_be_bytes(), &[])?)
    }

    /// The index of a long.
    pub(crate) fn need_long(&mut self, alloc: Global, value: i64) -> Result<u16, Stop>
        ensures { Yields (λ i. needed i self.new) result (need self.old (entry.Long (cast_unsigned w64 value))) }
    {
        self.need(spelled(alloc, LONG, &value.to_be_bytes(), &[])?)
    }

    /// The index of a class.
    pub(crate) fn need_class(&mut self, alloc: Global, name: &[u8]) -> Result<u16, Stop>
        ensures { Yields (λ i. needed i self.new) result (need_class self.old name.now) }
    {
        let name = self.need_text(alloc, name)?;
        self.need(spelled(alloc, CLASS, &name.to_be_bytes(), &[])?)
    }

    // The index of a name with a descriptor.
    fn need_named(&mut self, alloc: Global, name: &[u8], desc: &[u8]) -> Result<u16, Stop>
        ensures { Yields (λ i. needed i self.new) result (need_named self.old name.now desc.now) }
    {
        let name = self.need_text(alloc, name)?;
        let desc = self.need_text(alloc, desc)?;
        self.need(spelled(
            alloc,
            NAME_AND_TYPE,
            &name.to_be_bytes(),
            &desc.to_be_bytes(),
        )?)
    }

    /// The index of the member that an instruction names.
    pub(crate) fn need_member(&mut self, alloc: Global, op: u8, sym: &Sym) -> Result<u16, Stop>
        ensures { Yields (λ i. needed i self.new) result (need_member self.old op sym.now) }
    {
        let class = self.need_class(alloc, sym.class.bytes())?;
        let named = self.need_named(alloc, sym.name.bytes(), sym.desc.bytes())?;
        let tag = if op == INVOKESTATIC {
            METHODREF
        } else {
            FIELDREF
        };
        self.need(spelled(alloc, tag, &class.to_be_bytes(), &named.to_be_bytes())?)
    }
}
