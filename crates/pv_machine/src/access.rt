//! Fields and arrays.

ghost use Rattle.std.specs.Prelude.{◌≡◌, [], ◌∷◌, FitsSigned, IfSome, IfOk, IsOk};
ghost use Rattle.std.specs.Int.{w32};
ghost use Rattle.pv_machine.specs.Steps.{IsQuiet};
ghost use Rattle.pv_machine.specs.Machine.{element_fault};
ghost use Rattle.pv_machine.specs.Doing.{IsAccess, KeepsHeap, element_of, element_and_number_of, Reads, Accesses};

use crate::effect::Effect;
use pv_frame::Action;
use pv_value::{Fault, Heap, JType, Kind, Loc, Memory, Num, Sym, World};

/// Why an access of an element throws: on null, else where the index isn't in 0 to length - 1.
pub(crate) fn element_fault(world: &World, array: u64, index: i32) -> Option<Fault>
    ensures { result ≡ element_fault world.now array index }
{
    if array == 0 {
        return Some(Fault::Null);
    }
    if index < 0 || index >= world.length(array) {
        return Some(Fault::Index);
    }
    None
}

// Reads an element, or throws.
fn read_element(world: &World, heap: &Heap, kind: Kind, array: u64, index: i32) -> Option<Effect>
    ensures reads { Reads world.now heap.now (Action.LoadElement kind) (Num.Ref array ∷ Num.Int index ∷ []) result }
    ensures keeps { IfSome result KeepsHeap }
{
    if let Some(fault) = element_fault(world, array, index) {
        return Some(Effect::Throw(fault));
    }
    let n = heap.read_as(
        world.element_type(kind, array),
        &Loc::Elem(kind, array, index),
    )?;
    Some(Effect::Push(n))
}

// Writes an element, or throws.
fn write_element(world: &World, kind: Kind, array: u64, index: i32, n: Num) -> Effect
    ensures { Accesses world.now (Action.StoreElement kind) (Num.Ref array ∷ Num.Int index ∷ n ∷ []) (Some result) }
{
    match element_fault(world, array, index) {
        Some(fault) => Effect::Throw(fault),
        None => {
            let t = world.element_type(kind, array);
            Effect::Write(t, Loc::Elem(kind, array, index), n)
        }
    }
}

// An array and an index.
fn element(operands: &[Num]) -> Option<(u64, i32)>
    ensures element { result ≡ element_of operands.now }
    ensures range { IfSome result (λ e. FitsSigned w32 e.1) }
{
    match operands {
        [Num::Ref(array), Num::Int(index)] => Some((*array, *index)),
        _ => None,
    }
}

// An array, an index and a number.
fn element_and_number(operands: &[Num]) -> Option<(u64, i32, Num)>
    ensures element { result ≡ element_and_number_of operands.now }
    ensures range { IfSome result (λ e. FitsSigned w32 e.1) }
{
    match operands {
        [Num::Ref(array), Num::Int(index), n] => Some((*array, *index, *n)),
        _ => None,
    }
}

// What a read of an element does with its operands.
fn load_element(world: &World, heap: &Heap, kind: Kind, operands: &[Num]) -> Option<Effect>
    ensures reads { Reads world.now heap.now (Action.LoadElement kind) operands.now result }
    ensures keeps { IfSome result KeepsHeap }
{
    let (array, index) = element(operands)?;
    read_element(world, heap, kind, array, index)
}

// What a write of an element does with its operands.
fn store_element(world: &World, kind: Kind, operands: &[Num]) -> Option<Effect>
    ensures { Accesses world.now (Action.StoreElement kind) operands.now result }
{
    let (array, index, n) = element_and_number(operands)?;
    Some(write_element(world, kind, array, index, n))
}

// The value of a static field.
fn get_static(
    world: &World,
    heap: &Heap,
    t: JType,
    f: &Sym,
    operands: &[Num],
) -> Result<Option<Effect>, Memory>
    ensures { IfOk result (λ e. Reads world.now heap.now (Action.GetStatic t f.now) operands.now e) }
{
    match operands {
        [] => {
            let at = world.static_place(f)?;
            Ok(heap.read_as(t, &at).map(Effect::Push))
        }
        _ => Ok(None),
    }
}

// A write of a static field.
fn put_static(world: &World, t: JType, f: &Sym, operands: &[Num]) -> Result<Option<Effect>, Memory>
    ensures { IfOk result (λ e. Accesses world.now (Action.PutStatic t f.now) operands.now e) }
{
    match operands {
        [n] => Ok(Some(Effect::Write(t, world.static_place(f)?, *n))),
        _ => Ok(None),
    }
}

// The value of a field of an object; a throw on null.
fn get_field(
    world: &World,
    heap: &Heap,
    t: JType,
    f: &Sym,
    operands: &[Num],
) -> Result<Option<Effect>, Memory>
    ensures { IfOk result (λ e. Reads world.now heap.now (Action.GetField t f.now) operands.now e) }
{
    match operands {
        [Num::Ref(0)] => Ok(Some(Effect::Throw(Fault::Null))),
        [Num::Ref(object)] => {
            let at = world.field_place(*object, f)?;
            Ok(heap.read_as(t, &at).map(Effect::Push))
        }
        _ => Ok(None),
    }
}

// A write of a field of an object; a throw on null.
fn put_field(world: &World, t: JType, f: &Sym, operands: &[Num]) -> Result<Option<Effect>, Memory>
    ensures { IfOk result (λ e. Accesses world.now (Action.PutField t f.now) operands.now e) }
{
    match operands {
        [Num::Ref(0), _] => Ok(Some(Effect::Throw(Fault::Null))),
        [Num::Ref(object), n] => Ok(Some(Effect::Write(t, world.field_place(*object, f)?, *n))),
        _ => Ok(None),
    }
}

// The length of an array; a throw on null.
fn array_length(world: &World, operands: &[Num]) -> Option<Effect>
    ensures accesses { Accesses world.now Action.Length operands.now result }
    ensures keeps { IfSome result KeepsHeap }
{
    match operands {
        [Num::Ref(0)] => Some(Effect::Throw(Fault::Null)),
        [Num::Ref(array)] => Some(Effect::Push(Num::Int(world.length(*array)))),
        _ => None,
    }
}

/// What an access of a field or an array does with its operands.
pub(crate) fn access(
    world: &World,
    heap: &Heap,
    action: &Action,
    operands: &[Num],
) -> Result<Option<Effect>, Memory>
    requires { IsAccess action.now }
    ensures reads { IfOk result (λ e. Reads world.now heap.now action.now operands.now e) }
    ensures quiet { IsQuiet action.now → IsOk result }
    ensures keeps { IsQuiet action.now → IfOk result (λ e. IfSome e KeepsHeap) }
{
    match action {
        Action::GetStatic(t, f) => get_static(world, heap, *t, f, operands),
        Action::PutStatic(t, f) => put_static(world, *t, f, operands),
        Action::GetField(t, f) => get_field(world, heap, *t, f, operands),
        Action::PutField(t, f) => put_field(world, *t, f, operands),
        Action::LoadElement(kind) => Ok(load_element(world, heap, *kind, operands)),
        Action::StoreElement(kind) => Ok(store_element(world, *kind, operands)),
        Action::Length => Ok(array_length(world, operands)),
        _ => Ok(None),
    }
}
