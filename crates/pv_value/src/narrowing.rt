//! How values are kept in the heap, read from it, and returned, by their types (JVMS 2.3.4, 2.11.1,
//! 6.5): a boolean keeps the lowest bit of an int, byte and short its low bits with their sign, and
//! char its low bits without one.

ghost use Rattle.std.specs.Prelude.{◌≡◌, Some, None, IfOk, OnErr, if◌then◌else◌};
ghost use Rattle.std.specs.Bool.{OnFalse};
ghost use Rattle.pv_value.specs.Narrowing.{narrowed, as_type, heap_number, kept, shown, read_as, written_as, element_type, static_place, field_place};

use crate::descriptor::JType;
use crate::heap::{Heap, Kind, Loc};
use crate::memory::Memory;
use crate::name::Sym;
use crate::number::Num;
use crate::world::World;
use crate::{int, long};

impl JType {
    /// An int as a value of the type; None where the type is no kind of int. It takes no memory.
    pub fn narrow(self, n: i32) -> Option<i32>
        ensures { result ≡ narrowed self n }
    {
        match self {
            JType::Z => Some(n.rem_euclid(2)),
            JType::B => Some(i32::from(int::low_byte(n))),
            JType::C => Some(n.rem_euclid(0x1_0000)),
            JType::S => Some(i32::from(int::low_short(n))),
            JType::I => Some(n),
            JType::J | JType::F | JType::D | JType::A => None,
        }
    }
}

impl Num {
    /// The number as a value of a type; None where it is of another sort. It takes no memory.
    pub fn as_type(self, t: JType) -> Option<Num>
        ensures { result ≡ as_type t self }
    {
        match (self, t) {
            (Num::Int(n), _) => Some(Num::Int(t.narrow(n)?)),
            (Num::Long(_), JType::J) | (Num::Ref(_), JType::A) => Some(self),
            _ => None,
        }
    }
}

// The heap's number for a number: a reference is the number with the same bits.
fn heap_number(n: Num) -> i64
    ensures { result ≡ heap_number n }
{
    match n {
        Num::Int(n) => i64::from(n),
        Num::Long(n) => n,
        Num::Ref(r) => r.cast_signed(),
    }
}

// What is read as a type where the heap has this number.
fn shown(t: JType, n: i64) -> Option<Num>
    ensures { result ≡ shown t n }
{
    match t {
        JType::J => Some(Num::Long(n)),
        JType::A => Some(Num::Ref(n.cast_unsigned())),
        _ => Some(Num::Int(t.narrow(long::to_int(n))?)),
    }
}

impl Heap {
    /// Reads a value of a type at a place: the number there, cut to the bits of the type's sort and
    /// narrowed. None where the type is float or double. It takes no memory.
    pub fn read_as(&self, t: JType, at: &Loc) -> Option<Num>
        ensures { result ≡ read_as t self.now at.now }
    {
        shown(t, self.get(at))
    }

    /// Writes a number as a value of a type at a place, narrowed. False, and the heap is as it was,
    /// where the number is of another sort than the type. After `Memory` the heap is as it was.
    pub fn write_as(&mut self, t: JType, at: Loc, n: Num) -> Result<bool, Memory>
        ensures ok { IfOk result (λ written. written_as t self.old at n ≡ (if written then Some self.new else None)) }
        ensures other_sort { IfOk result (λ written. OnFalse written (self.new ≡ self.old)) }
        ensures err { OnErr result (self.new ≡ self.old) }
    {
        let Some(value) = n.as_type(t) else {
            return Ok(false);
        };
        self.put(at, heap_number(value))?;
        Ok(true)
    }
}

impl World {
    /// The type of the elements of an array: a byte of a boolean array is a boolean (JVMS 6.5,
    /// baload and bastore). It takes no memory.
    pub fn element_type(&self, kind: Kind, array: u64) -> JType
        ensures { result ≡ element_type self.now kind array }
    {
        match kind {
            Kind::Int => JType::I,
            Kind::Long => JType::J,
            Kind::Ref => JType::A,
            Kind::Byte if self.boolean(array) => JType::Z,
            Kind::Byte => JType::B,
            Kind::Char => JType::C,
            Kind::Short => JType::S,
        }
    }

    /// The place of a static field.
    pub fn static_place(&self, s: &Sym) -> Result<Loc, Memory>
        ensures { IfOk result (λ at. at ≡ static_place self.now s.now) }
    {
        Ok(Loc::Static(self.at_home(s)?))
    }

    /// The place of a field of an object.
    pub fn field_place(&self, object: u64, s: &Sym) -> Result<Loc, Memory>
        ensures { IfOk result (λ at. at ≡ field_place self.now object s.now) }
    {
        Ok(Loc::Field(object, self.at_home(s)?))
    }
}
