//! The operations that read and write the heap.

ghost use Rattle.std.specs.Prelude.{Some};
ghost use Rattle.pv_value.specs.Spelled.{bind, field_type};
ghost use Rattle.pv_value.specs.Narrowing.{read_as, written_as};
ghost use Rattle.pv_graph.specs.declared.node.Op.TheVariants as op;
ghost use Rattle.pv_denote.specs.Denote.{strict};
ghost use Rattle.pv_denote.specs.Given.{Gives};

use crate::setting::Setting;
use crate::stop::Stop;
use pv_value::{Heap, JType, Kind, Loc, Num, Sym, Val, read_field_type};

/// The type of a field.
fn field_type(s: &Sym) -> Result<JType, Stop>
    ensures { Gives result (field_type s.now.desc) }
{
    match read_field_type(s.desc.bytes()) {
        Some(t) => Ok(t),
        None => Err(Stop::NoValue),
    }
}

/// What is read as a type at a place.
fn read(t: JType, heap: &Heap, at: &Loc) -> Result<Val, Stop>
    ensures { Gives result (bind (read_as t heap.now at.now) (λ n. Some (Val.Num n))) }
{
    match heap.read_as(t, at) {
        Some(n) => Ok(Val::Num(n)),
        None => Err(Stop::NoValue),
    }
}

/// The heap after a number is written as a type at a place.
fn write(t: JType, heap: &Heap, at: Loc, n: Num) -> Result<Val, Stop>
    ensures { Gives result (bind (written_as t heap.now at n) (λ m. Some (Val.Heap m))) }
{
    let mut after = heap.copy()?;
    if after.write_as(t, at, n)? {
        Ok(Val::Heap(after))
    } else {
        Err(Stop::NoValue)
    }
}

impl Setting<'_> {
    /// Reads a static field.
    #[tactic(auto, unfolding(crate::specs::Denote::strict))]
    pub fn get_static(&self, s: &Sym, values: &[Val]) -> Result<Val, Stop>
        ensures { Gives result (strict self.now.world.now self.now.input.now (op.GetStatic s.now) values.now) }
    {
        match values {
            [Val::Heap(h)] => read(field_type(s)?, h, &self.world.static_place(s)?),
            _ => Err(Stop::NoValue),
        }
    }

    /// Writes a static field.
    #[tactic(auto, unfolding(crate::specs::Denote::strict))]
    pub fn put_static(&self, s: &Sym, values: &[Val]) -> Result<Val, Stop>
        ensures { Gives result (strict self.now.world.now self.now.input.now (op.PutStatic s.now) values.now) }
    {
        match values {
            [Val::Heap(h), Val::Num(n)] => {
                write(field_type(s)?, h, self.world.static_place(s)?, *n)
            }
            _ => Err(Stop::NoValue),
        }
    }

    /// Reads a field of an object, also of null.
    #[tactic(auto, unfolding(crate::specs::Denote::strict))]
    pub fn get_field(&self, s: &Sym, values: &[Val]) -> Result<Val, Stop>
        ensures { Gives result (strict self.now.world.now self.now.input.now (op.GetField s.now) values.now) }
    {
        match values {
            [Val::Heap(h), Val::Num(Num::Ref(r))] => {
                read(field_type(s)?, h, &self.world.field_place(*r, s)?)
            }
            _ => Err(Stop::NoValue),
        }
    }

    /// Writes a field of an object, also of null.
    #[tactic(auto, unfolding(crate::specs::Denote::strict))]
    pub fn put_field(&self, s: &Sym, values: &[Val]) -> Result<Val, Stop>
        ensures { Gives result (strict self.now.world.now self.now.input.now (op.PutField s.now) values.now) }
    {
        match values {
            [Val::Heap(h), Val::Num(Num::Ref(r)), Val::Num(n)] => {
                write(field_type(s)?, h, self.world.field_place(*r, s)?, *n)
            }
            _ => Err(Stop::NoValue),
        }
    }

    /// Reads an element of an array, also of null and out of range.
    #[tactic(auto, unfolding(crate::specs::Denote::strict))]
    pub fn load(&self, kind: Kind, values: &[Val]) -> Result<Val, Stop>
        ensures { Gives result (strict self.now.world.now self.now.input.now (op.Load kind) values.now) }
    {
        match values {
            [Val::Heap(h), Val::Num(Num::Ref(r)), Val::Num(Num::Int(i))] => {
                let t = self.world.element_type(kind, *r);
                read(t, h, &Loc::Elem(kind, *r, *i))
            }
            _ => Err(Stop::NoValue),
        }
    }

    /// Writes an element of an array, also of null and out of range.
    #[tactic(auto, unfolding(crate::specs::Denote::strict))]
    pub fn store(&self, kind: Kind, values: &[Val]) -> Result<Val, Stop>
        ensures { Gives result (strict self.now.world.now self.now.input.now (op.Store kind) values.now) }
    {
        match values {
            [
                Val::Heap(h),
                Val::Num(Num::Ref(r)),
                Val::Num(Num::Int(i)),
                Val::Num(n),
            ] => {
                let t = self.world.element_type(kind, *r);
                write(t, h, Loc::Elem(kind, *r, *i), *n)
            }
            _ => Err(Stop::NoValue),
        }
    }
}
