//! Facts are told and asked for.

ghost use Rattle.std.specs.Prelude.{◌≡◌, IfOk, OnOk, OnErr, [], ◌∷◌};
ghost use Rattle.pv_value.specs.Worlds.{reply};
ghost use Rattle.pv_types.specs.Facts as facts;

use crate::symbols::{fits_sym, is_sym};
use pv_list::Listed;
use pv_value::{Heap, Memory, Name, Num, Outcome, Sym, World};
use std::alloc::Global;

// The world tells the fact that stands under this symbol and these references.
fn tells(world: &World, sym: &Sym, start: &Heap, args: &[Num]) -> bool
    ensures { result ≡ facts.tells (reply world.now sym.now start.now args.now) }
{
    match world.reply(sym, start, args) {
        Some(Outcome::Returned(Some(Num::Int(n)), _)) => *n != 0,
        _ => false,
    }
}

// Adds the reply by which a fact is told. After `Memory` the world is as it was.
fn tell(world: &mut World, sym: Sym, start: &Heap, args: Vec<Num>) -> Result<(), Memory>
    requires { facts.IsTold sym }
    ensures ok { OnOk result (world.new ≡ facts.told world.old (facts.asked sym start.now args.items)) }
    ensures err { OnErr result (world.new ≡ world.old) }
{
    let left = start.copy()?;
    left.law_ranges();
    world.add_call(
        sym,
        start.copy()?,
        Listed::from(args),
        Outcome::Returned(Some(Num::Int(1)), left),
    )
}

/// Tells that an object is of a class, for methods that start with this heap. After `Memory` the world is as it was.
pub fn set_is(
    alloc: Global,
    world: &mut World,
    start: &Heap,
    class: &Name,
    object: u64,
) -> Result<(), Memory>
    ensures ok { OnOk result (world.new ≡ facts.told world.old (facts.is_key start.now class.now object)) }
    ensures err { OnErr result (world.new ≡ world.old) }
{
    let sym = is_sym(alloc, class)?;
    let args = Vec::from_array(alloc, [Num::Ref(object)])?;
    tell(world, sym, start, args)
}

/// Tells that a reference fits an array, for methods that start with this heap. After `Memory` the world is as it was.
#[tactic(auto, using(crate::proofs::Telling::fits_told))]
pub fn set_fits(
    alloc: Global,
    world: &mut World,
    start: &Heap,
    array: u64,
    value: u64,
) -> Result<(), Memory>
    ensures ok { OnOk result (world.new ≡ facts.told world.old (facts.fits_key start.now array value)) }
    ensures err { OnErr result (world.new ≡ world.old) }
{
    let sym = fits_sym(alloc)?;
    let args = Vec::from_array(alloc, [Num::Ref(array), Num::Ref(value)])?;
    tell(world, sym, start, args)
}

/// The object is of the class, in methods that start with this heap. Null is of no class unless the world tells so: who asks tests for null first.
pub fn is(
    alloc: Global,
    world: &World,
    start: &Heap,
    class: &Name,
    object: u64,
) -> Result<bool, Memory>
    ensures { IfOk result (λ holds. holds ≡ facts.is world.now start.now class.now object) }
{
    let sym = is_sym(alloc, class)?;
    Ok(tells(world, &sym, start, &[Num::Ref(object)]))
}

/// The reference fits the array, in methods that start with this heap.
pub fn fits(
    alloc: Global,
    world: &World,
    start: &Heap,
    array: u64,
    value: u64,
) -> Result<bool, Memory>
    ensures { IfOk result (λ holds. holds ≡ facts.fits world.now start.now array value) }
{
    let sym = fits_sym(alloc)?;
    Ok(tells(world, &sym, start, &[Num::Ref(array), Num::Ref(value)]))
}
