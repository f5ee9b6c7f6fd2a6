//! What is in a value of one kind; there is none in a value of another kind.

ghost use Rattle.pv_denote.specs.Denote.{truth, count_of, unit_of, fault_of, heap_of, result_of};
ghost use Rattle.pv_denote.specs.Given.{Gives, num_in};

use crate::stop::Stop;
use pv_value::{Fault, Heap, Num, Val};

/// Whether an int is true: any but 0 is.
pub fn truth(v: &Val) -> Result<bool, Stop>
    ensures { Gives result (truth v.now) }
{
    match v {
        Val::Num(Num::Int(n)) => Ok(*n != 0),
        _ => Err(Stop::NoValue),
    }
}

/// The count.
pub fn count(v: &Val) -> Result<u64, Stop>
    ensures { Gives result (count_of v.now) }
{
    match v {
        Val::Count(k) => Ok(*k),
        _ => Err(Stop::NoValue),
    }
}

/// The token.
pub fn unit(v: &Val) -> Result<(), Stop>
    ensures { Gives result (unit_of v.now) }
{
    match v {
        Val::Unit => Ok(()),
        _ => Err(Stop::NoValue),
    }
}

/// The fault.
pub fn fault(v: &Val) -> Result<Fault, Stop>
    ensures { Gives result (fault_of v.now) }
{
    match v {
        Val::Fault(f) => Ok(*f),
        _ => Err(Stop::NoValue),
    }
}

/// The heap.
pub fn heap(v: Val) -> Result<Heap, Stop>
    ensures { Gives result (heap_of v) }
{
    match v {
        Val::Heap(h) => Ok(h),
        _ => Err(Stop::NoValue),
    }
}

/// The result of a method: a number, or none for a token.
pub fn result_part(v: &Val) -> Result<Option<Num>, Stop>
    ensures { Gives result (result_of v.now) }
{
    match v {
        Val::Num(n) => Ok(Some(*n)),
        Val::Unit => Ok(None),
        _ => Err(Stop::NoValue),
    }
}

/// The number.
pub fn number(v: &Val) -> Result<Num, Stop>
    ensures { Gives result (num_in v.now) }
{
    match v {
        Val::Num(n) => Ok(*n),
        _ => Err(Stop::NoValue),
    }
}
