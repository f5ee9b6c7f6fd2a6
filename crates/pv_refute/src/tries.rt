//! The world and the inputs of tries.

ghost use Rattle.std.specs.Prelude.{◌≡◌, ◌<◌, ◌≤◌, IfOk};
ghost use Rattle.pv_value.specs.Inputs.{Fits};
ghost use Rattle.pv_value.specs.Worlds.{IsWorld};
ghost use Rattle.pv_frame.specs.Actions.{IsFloatlessMethod};
ghost use Rattle.pv_refute.specs.Tries.{try_world, int_of, long_of, argument, arguments, try_input};

use pv_list::Listed;
use pv_value::laws::{law_narrowing, law_worlds};
use pv_value::{Descriptor, Heap, Input, JType, Memory, Num, World};
use std::alloc::Global;

/// The world of all tries: the arrays 1 to 4 have the lengths 0 to 3, and nothing else is known. Out of memory is the one error.
pub fn try_world(alloc: Global) -> Result<World, Memory>
    ensures is { IfOk result (λ world. world ≡ try_world) }
    ensures world { IfOk result (λ world. IsWorld world) }
{
    law_worlds();
    let mut world = World::new(alloc);
    world.set_length(4, 3)?;
    world.set_length(3, 2)?;
    world.set_length(2, 1)?;
    world.set_length(1, 0)?;
    Ok(world)
}

/// The input of a try for a method of this type: `this` is 1, the heap is empty, and the digits of t - 1 in base 8 choose
/// the arguments. Out of memory is the one error.
pub fn try_input(alloc: Global, desc: &Descriptor, t: u64) -> Result<Input, Memory>
    requires from_one { 1 ≤ t }
    requires floatless { IsFloatlessMethod desc.now }
    ensures is { IfOk result (λ input. input ≡ try_input desc.now t) }
    ensures fits { IfOk result (λ input. Fits desc.now input) }
{
    law_narrowing();
    let args = arguments(alloc, desc.params.as_slice(), t - 1)?;
    Ok(Input {
        this: 1,
        args: Listed::from(args),
        heap: Heap::new(alloc),
    })
}

// The arguments that the digits of a number choose.
fn arguments(alloc: Global, types: &[JType], n: u64) -> Result<Vec<Num>, Memory>
    ensures { IfOk result (λ args. args.items ≡ arguments n 0 types.now) }
{
    let mut args = Vec::new(alloc);
    let mut rest = n;
    for t in types {
        args.push(argument(*t, rest % 8))?;
        rest /= 8;
    }
    Ok(args)
}

// The argument that a digit chooses for a parameter.
fn argument(t: JType, digit: u64) -> Num
    requires { digit < 8 }
    ensures { result ≡ argument t digit }
{
    match t {
        JType::J => Num::Long(long_of(digit)),
        JType::A => Num::Ref(digit % 5),
        _ => Num::Int(t.narrow(int_of(digit)).unwrap_or(0)),
    }
}

// The int that a digit chooses.
fn int_of(digit: u64) -> i32
    requires { digit < 8 }
    ensures { result ≡ int_of digit }
{
    let ints = [0, 1, -1, 2, 7, -8, i32::MAX, i32::MIN];
    ints[digit as usize]
}

// The long that a digit chooses.
fn long_of(digit: u64) -> i64
    requires { digit < 8 }
    ensures { result ≡ long_of digit }
{
    let longs = [0, 1, -1, 2, 7, -8, i64::MAX, i64::MIN];
    longs[digit as usize]
}
