//! The first try on which two methods differ.

ghost use Rattle.std.specs.Prelude.{◌≡◌, ◌↔◌, IfOk, IsTrue};
ghost use Rattle.pv_frame.specs.Actions.{IsFloatlessMethod};
ghost use Rattle.pv_refute.specs.declared.refuting.Found.{Found};
ghost use Rattle.pv_refute.specs.Differences.{DifferWithin, IsFound};

use crate::outcome::is_same;
use crate::tries::{try_input, try_world};
use pv_machine::{Program, run};
use pv_value::{Descriptor, Input, Memory, World};
use std::alloc::Global;

/// What tries find of two methods.
#[derive(Drop)]
pub enum Found {
    /// The number of the first try on which both end with different outcomes, and its input.
    Differs(u64, Input),
    /// There is no such try.
    Tried,
}

/// The first of so many tries, numbered from 1, on which two methods of one type both end within so many steps, with
/// different outcomes. Out of memory is the one error.
pub fn refute(
    alloc: Global,
    first: &Program,
    second: &Program,
    desc: &Descriptor,
    tries: u64,
    steps: u64,
) -> Result<Found, Memory>
    requires { IsFloatlessMethod desc.now }
    ensures exact { IfOk result (λ found. IsFound (record { first = first.now; second = second.now; desc = desc.now; tries = tries; steps = steps }) found) }
    ensures only { (other : Found) → IsFound (record { first = first.now; second = second.now; desc = desc.now; tries = tries; steps = steps }) other → IfOk result (λ found. found ≡ other) }
{
    let world = try_world(alloc)?;
    for t in 1..=tries {
        let input = try_input(alloc, desc, t)?;
        if differ(alloc, first, second, &world, &input, steps)? {
            return Ok(Found::Differs(t, input));
        }
    }
    Ok(Found::Tried)
}

// Whether two methods both end within so many steps, with different outcomes.
fn differ(
    alloc: Global,
    first: &Program,
    second: &Program,
    world: &World,
    input: &Input,
    steps: u64,
) -> Result<bool, Memory>
    ensures { IfOk result (λ yes. IsTrue yes ↔ DifferWithin steps first.now second.now world.now input.now) }
{
    let Some(one) = run(alloc, first, world, input, steps)? else {
        return Ok(false);
    };
    match run(alloc, second, world, input, steps)? {
        Some(two) => Ok(!is_same(&one, &two)),
        None => Ok(false),
    }
}
