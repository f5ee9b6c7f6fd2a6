//! Casts, type tests and stores of references, by what the world tells of types.

ghost use Rattle.std.specs.Prelude.{◌≡◌, [], ◌∷◌, FitsSigned, IfSome, IfOk};
ghost use Rattle.std.specs.Int.{w32};
ghost use Rattle.pv_machine.specs.Machine.{store_fault};
ghost use Rattle.pv_machine.specs.Doing.{AsksTypes, Asks, element_and_ref_of};

use crate::access::element_fault;
use crate::effect::Effect;
use pv_frame::Action;
use pv_types::{cast_text, fits, is, store_text};
use pv_value::{Fault, Heap, Kind, Loc, Memory, Name, Num, World};
use std::alloc::Global;

// What a cast does with its operand: it leaves null, and an object of the class.
fn cast(
    alloc: Global,
    world: &World,
    start: &Heap,
    class: &Name,
    operands: &[Num],
) -> Result<Option<Effect>, Memory>
    ensures { IfOk result (λ e. Asks world.now start.now (Action.Cast class.now) operands.now e) }
{
    match operands {
        [Num::Ref(0)] => Ok(Some(Effect::Push(Num::Ref(0)))),
        [Num::Ref(object)] => {
            if is(alloc, world, start, class, *object)? {
                return Ok(Some(Effect::Push(Num::Ref(*object))));
            }
            let text = cast_text(alloc)?;
            Ok(Some(Effect::Throw(Fault::Thrown(world.literal(&text)))))
        }
        _ => Ok(None),
    }
}

// What a type test does with its operand: null is of no class.
fn instance_of(
    alloc: Global,
    world: &World,
    start: &Heap,
    class: &Name,
    operands: &[Num],
) -> Result<Option<Effect>, Memory>
    ensures { IfOk result (λ e. Asks world.now start.now (Action.InstanceOf class.now) operands.now e) }
{
    match operands {
        [Num::Ref(0)] => Ok(Some(Effect::Push(Num::Int(0)))),
        [Num::Ref(object)] => {
            let holds = is(alloc, world, start, class, *object)?;
            Ok(Some(Effect::Push(Num::Int(i32::from(holds)))))
        }
        _ => Ok(None),
    }
}

// Why a store of a reference into an array throws: it is neither null nor fits.
fn store_fault(
    alloc: Global,
    world: &World,
    start: &Heap,
    array: u64,
    value: u64,
) -> Result<Option<Fault>, Memory>
    ensures { IfOk result (λ fault. fault ≡ store_fault world.now start.now array value) }
{
    if value == 0 || fits(alloc, world, start, array, value)? {
        return Ok(None);
    }
    let text = store_text(alloc)?;
    Ok(Some(Fault::Thrown(world.literal(&text))))
}

// What a store of a reference into an array does with its operands.
fn store(
    alloc: Global,
    world: &World,
    start: &Heap,
    array: u64,
    index: i32,
    value: u64,
) -> Result<Effect, Memory>
    ensures { IfOk result (λ e. Asks world.now start.now Action.StoreRef (Num.Ref array ∷ Num.Int index ∷ Num.Ref value ∷ []) (Some e)) }
{
    if let Some(fault) = element_fault(world, array, index) {
        return Ok(Effect::Throw(fault));
    }
    if let Some(fault) = store_fault(alloc, world, start, array, value)? {
        return Ok(Effect::Throw(fault));
    }
    let t = world.element_type(Kind::Ref, array);
    Ok(Effect::Write(t, Loc::Elem(Kind::Ref, array, index), Num::Ref(value)))
}

// An array, an index and a reference.
fn element_and_ref(operands: &[Num]) -> Option<(u64, i32, u64)>
    ensures element { result ≡ element_and_ref_of operands.now }
    ensures range { IfSome result (λ e. FitsSigned w32 e.1) }
{
    match operands {
        [Num::Ref(array), Num::Int(index), Num::Ref(value)] => Some((*array, *index, *value)),
        _ => None,
    }
}

// What a store of a reference does with these operands, if they are its.
fn store_ref(
    alloc: Global,
    world: &World,
    start: &Heap,
    operands: &[Num],
) -> Result<Option<Effect>, Memory>
    ensures { IfOk result (λ e. Asks world.now start.now Action.StoreRef operands.now e) }
{
    let Some((array, index, value)) = element_and_ref(operands) else {
        return Ok(None);
    };
    Ok(Some(store(alloc, world, start, array, index, value)?))
}

/// What a cast, a type test or a store of a reference does with its operands, in a method that started with
/// this heap.
pub(crate) fn ask(
    alloc: Global,
    world: &World,
    start: &Heap,
    action: &Action,
    operands: &[Num],
) -> Result<Option<Effect>, Memory>
    requires { AsksTypes action.now }
    ensures { IfOk result (λ e. Asks world.now start.now action.now operands.now e) }
{
    match action {
        Action::Cast(class) => cast(alloc, world, start, class, operands),
        Action::InstanceOf(class) => instance_of(alloc, world, start, class, operands),
        Action::StoreRef => store_ref(alloc, world, start, operands),
        _ => Ok(None),
    }
}
