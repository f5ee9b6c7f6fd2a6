//! What a line says of a world and of a heap.
//!
//! | Step | Says |
//! |---|---|
//! | `length ARRAY LENGTH`, `boolean ARRAY` | the length of an array; that it is one of booleans |
//! | `home CLASS NAME DESCRIPTOR HOME` | the home class of a field |
//! | `literal TEXT REFERENCE` | the reference of a string literal |
//! | `put PLACE NUMBER` | the number at a place of the heap |
//! | `throws CLASS NAME DESCRIPTOR REFERENCE ARGUMENT ..` | that a call with these arguments at the heap so far throws this, and leaves the heap |
//! | `returns CLASS NAME DESCRIPTOR NUMBER PLACE LEFT ARGUMENT ..` | that such a call returns this number, `-` for none, and leaves the heap with the number LEFT at this place |
//!
//! `values` says how numbers and places are written, with `%3B` for a semicolon in a descriptor.

ghost use Rattle.std.specs.Prelude.{IsTrue};
ghost use Rattle.pv_value.specs.Inputs.{IsOfResult};

use cases_words::answers::NoAnswer;
use cases_words::bench::number;
use cases_words::values::{read_name, read_num, read_nums, read_place, read_sym};
use pv_value::{Fault, Heap, JType, Num, Outcome, Sym, World, read_descriptor};
use std::alloc::Global;

/// A world and a heap.
#[derive(Drop)]
pub struct Setting {
    pub world: World,
    pub heap: Heap,
}

impl Setting {
    /// Of which nothing is said.
    pub fn new(alloc: Global) -> Setting {
        Setting {
            world: World::new(alloc),
            heap: Heap::new(alloc),
        }
    }

    /// Takes in what a step says.
    pub fn take(&mut self, alloc: Global, step: &[&str]) -> Result<(), NoAnswer> {
        match *step {
            ["put", place, n] => self.heap.put(read_place(alloc, place)?, number(n)?)?,
            ["throws", class, name, desc, thrown, ref args @ ..] => {
                let sym = read_sym(alloc, class, name, desc)?;
                self.throws(alloc, sym, number(thrown)?, args)?;
            }
            ["returns", class, name, desc, n, place, left, ref args @ ..] => {
                let sym = read_sym(alloc, class, name, desc)?;
                self.returns(alloc, sym, n, [place, left], args)?;
            }
            ["length", array, length] => {
                let length: u16 = number(length)?;
                self.world.set_length(number(array)?, i32::from(length))?;
            }
            ["boolean", array] => self.world.set_boolean(number(array)?)?,
            ["home", class, name, desc, home] => {
                let home = read_name(alloc, home)?;
                self.world
                    .set_home(read_sym(alloc, class, name, desc)?, home)?;
            }
            ["literal", text, reference] => {
                self.world
                    .set_literal(read_name(alloc, text)?, number(reference)?)?;
            }
            _ => return Err(NoAnswer::Unreadable),
        }
        Ok(())
    }

    // A call that throws a reference and leaves the heap.
    fn throws(
        &mut self,
        alloc: Global,
        sym: Sym,
        thrown: u64,
        args: &[&str],
    ) -> Result<(), NoAnswer> {
        let left = self.heap.copy()?;
        left.law_ranges();
        let reply = Outcome::Threw(Fault::Thrown(thrown), left);
        let args = read_nums(alloc, args)?;
        self.world.add_call(sym, self.heap.copy()?, args, reply)?;
        Ok(())
    }

    // A call that returns a number and leaves another at a place of the heap.
    fn returns(
        &mut self,
        alloc: Global,
        sym: Sym,
        n: &str,
        change: [&str; 2],
        args: &[&str],
    ) -> Result<(), NoAnswer> {
        let value = read_value(n)?;
        let Some(desc) = read_descriptor(alloc, sym.desc.bytes())? else {
            return Err(NoAnswer::Unreadable);
        };
        if !is_of_result(desc.result, value) {
            return Err(NoAnswer::Unreadable);
        }
        let [place, left] = change;
        let mut after = self.heap.copy()?;
        after.put(read_place(alloc, place)?, number(left)?)?;
        after.law_ranges();
        let reply = Outcome::Returned(value, after);
        let args = read_nums(alloc, args)?;
        self.world.add_call(sym, self.heap.copy()?, args, reply)?;
        Ok(())
    }
}

// A number, or `-` for none.
fn read_value(word: &str) -> Result<Option<Num>, NoAnswer> {
    if word == "-" {
        return Ok(None);
    }
    Ok(Some(read_num(word)?))
}

// Whether a value is of the sort of a result.
fn is_of_result(sort: Option<JType>, value: Option<Num>) -> bool
    ensures { IsTrue result → IsOfResult sort value }
{
    match (sort, value) {
        (None, None) => true,
        (Some(JType::J), Some(Num::Long(_))) => true,
        (Some(JType::A), Some(Num::Ref(_))) => true,
        (Some(JType::F | JType::D | JType::J | JType::A), _) => false,
        (Some(_), Some(Num::Int(_))) => true,
        _ => false,
    }
}
