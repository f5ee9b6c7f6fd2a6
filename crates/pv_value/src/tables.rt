//! The tables of a world that stand for themselves: lengths, boolean arrays, homes and literals.

ghost use Rattle.std.specs.Prelude.{◌≡◌, ℕ, OnOk, OnErr, pos};
ghost use Rattle.std.specs.Option.{unwrap_or, option_copied};
ghost use Rattle.std.specs.FinMap as map;
ghost use Rattle.std.specs.FinSet as set;

use crate::memory::Memory;
use crate::name::{Name, Sym};
use std::alloc::Global;
use std::collections::{BTreeMap, BTreeSet};
use std::marker::Model;

/// The length of each array, by its reference.
#[derive(Drop)]
pub struct Lengths {
    entries: BTreeMap<u64, i32>,
}

impl Model for Lengths {
    ghost use Rattle.std.specs.Prelude.{ℤ};
    ghost use Rattle.std.specs.FinMap as map;
    ghost use Rattle.std.specs.Ordering.{nat_cmp};
    ghost use Rattle.std.specs.Coded.{coded_ℕ, coded_ℤ};

    ghost Value = { map.FinMap nat_cmp ℤ };

    ghost coded = { map.code coded_ℕ coded_ℤ };

    ghost view = { λ t. map.from_entries t.entries.entries };
}

impl Lengths {
    pub(crate) fn new(alloc: Global) -> Lengths
        ensures { result ≡ map.empty }
    {
        Lengths {
            entries: BTreeMap::new(alloc),
        }
    }

    /// The length of an array, 0 where it has none here.
    pub fn get(&self, r: u64) -> i32
        ensures { result ≡ unwrap_or (map.get self.now r) (pos 0) }
    {
        self.entries.get(&r).copied().unwrap_or(0)
    }

    /// Sets the length of an array. After `Memory` the table is as it was.
    pub(crate) fn set(&mut self, r: u64, n: i32) -> Result<(), Memory>
        ensures ok { OnOk result (self.new ≡ map.insert self.old r n) }
        ensures err { OnErr result (self.new ≡ self.old) }
    {
        self.entries.insert(r, n)?;
        Ok(())
    }
}

/// The references of boolean arrays.
#[derive(Drop)]
pub struct Booleans {
    refs: BTreeSet<u64>,
}

impl Model for Booleans {
    ghost use Rattle.std.specs.FinSet as set;
    ghost use Rattle.std.specs.Ordering.{nat_cmp};
    ghost use Rattle.std.specs.Coded.{coded_ℕ};

    ghost Value = { set.FinSet nat_cmp };

    ghost coded = { set.code coded_ℕ };

    ghost view = { λ t. set.from_list t.refs.keys };
}

impl Booleans {
    pub(crate) fn new(alloc: Global) -> Booleans
        ensures { result ≡ set.empty }
    {
        Booleans {
            refs: BTreeSet::new(alloc),
        }
    }

    /// The array is one of booleans.
    pub fn contains(&self, r: u64) -> bool
        ensures { result ≡ set.contains self.now r }
    {
        self.refs.contains(&r)
    }

    /// Adds an array. After `Memory` the table is as it was.
    pub(crate) fn add(&mut self, r: u64) -> Result<(), Memory>
        ensures ok { OnOk result (self.new ≡ set.insert self.old r) }
        ensures err { OnErr result (self.new ≡ self.old) }
    {
        self.refs.insert(r)?;
        Ok(())
    }
}

/// The home class of each field symbol.
#[derive(Drop)]
pub struct Homes {
    entries: BTreeMap<Sym, Name>,
}

impl Model for Homes {
    ghost use Rattle.std.specs.Prelude.{List, ℕ};
    ghost use Rattle.std.specs.FinMap as map;
    ghost use Rattle.std.specs.Coded.{coded_ℕ, coded_list};
    ghost use Rattle.pv_value.specs.Order.{sym_cmp, coded_sym};

    ghost Value = { map.FinMap sym_cmp (List ℕ) };

    ghost coded = { map.code coded_sym (coded_list coded_ℕ) };

    ghost view = { λ t. map.from_entries t.entries.entries };
}

impl Homes {
    pub(crate) fn new(alloc: Global) -> Homes
        ensures { result ≡ map.empty }
    {
        Homes {
            entries: BTreeMap::new(alloc),
        }
    }

    /// The home class of a field symbol, if it has one here.
    pub fn get(&self, s: &Sym) -> Option<&Name>
        ensures { option_copied result ≡ map.get self.now s.now }
    {
        self.entries.get(s)
    }

    /// Sets the home class of a field symbol. After `Memory` the table is as it was.
    pub(crate) fn set(&mut self, s: Sym, class: Name) -> Result<(), Memory>
        ensures ok { OnOk result (self.new ≡ map.insert self.old s class) }
        ensures err { OnErr result (self.new ≡ self.old) }
    {
        self.entries.insert(s, class)?;
        Ok(())
    }
}

/// The reference of each string literal, by its text.
#[derive(Drop)]
pub struct Literals {
    entries: BTreeMap<Name, u64>,
}

impl Model for Literals {
    ghost use Rattle.std.specs.Prelude.{ℕ};
    ghost use Rattle.std.specs.FinMap as map;
    ghost use Rattle.std.specs.Coded.{coded_ℕ, coded_list};
    ghost use Rattle.pv_value.specs.Order.{name_cmp};

    ghost Value = { map.FinMap name_cmp ℕ };

    ghost coded = { map.code (coded_list coded_ℕ) coded_ℕ };

    ghost view = { λ t. map.from_entries t.entries.entries };
}

impl Literals {
    pub(crate) fn new(alloc: Global) -> Literals
        ensures { result ≡ map.empty }
    {
        Literals {
            entries: BTreeMap::new(alloc),
        }
    }

    /// The reference of a string literal, null where it has none here.
    pub fn get(&self, text: &Name) -> u64
        ensures { result ≡ unwrap_or (map.get self.now text.now) 0 }
    {
        self.entries.get(text).copied().unwrap_or(0)
    }

    /// Sets the reference of a string literal. After `Memory` the table is as it was.
    pub(crate) fn set(&mut self, text: Name, r: u64) -> Result<(), Memory>
        ensures ok { OnOk result (self.new ≡ map.insert self.old text r) }
        ensures err { OnErr result (self.new ≡ self.old) }
    {
        self.entries.insert(text, r)?;
        Ok(())
    }
}
