//! What actions that have their operands do to a state.

ghost use Rattle.std.specs.Prelude.{◌≡◌, ◌≤◌, ◌<◌, ◌∷◌, suc, length, drop, unwrap_or, IfOk, OnOk, OnErr};
ghost use Rattle.pv_machine.specs.Machine.{running, pushes, called};
ghost use Rattle.pv_machine.specs.Doing.{led, Lacks};
ghost use Rattle.pv_machine.specs.Steps.{now_of, below};

use crate::locals::{replace, store};
use crate::state::State;
use pv_value::{Fault, Heap, JType, Loc, Memory, Num, Outcome};
use std::mem;

/// What an action that has its operands does to a state.
#[derive(Drop)]
pub(crate) enum Effect {
    /// Goes on to the next place.
    Next,
    /// Pushes a number, and goes on to the next place.
    Push(Num),
    /// Stores a number into a local, and goes on to the next place.
    Store(u16, Num),
    /// Puts a number in the place of another in a local, and goes on to the next place.
    Replace(u16, Num),
    /// Writes a number as a value of a type into the heap, and goes on to the next place.
    Write(JType, Loc, Num),
    /// Goes to a target.
    Go(u32),
    /// Ends the method with a throw.
    Throw(Fault),
    /// Ends the method with its result.
    Return(Option<Num>),
}

// Takes the operands away, and goes on to the next place.
fn go_on(s: &mut State, taken: usize)
    requires within { taken ≤ length s.old.state.stack }
    requires at { s.old.state.at < usize.MAX }
    ensures state { s.new.state ≡ record (below taken s.old.state) { at = suc s.old.state.at } }
    ensures room { s.new.room ≡ s.old.room }
    ensures max_stack { s.new.max_stack ≡ s.old.max_stack }
{
    s.stack.discard(taken);
    s.at += 1;
}

// Takes the operands away, puts a number there, and goes on to the next place.
fn push(s: &mut State, taken: usize, n: Num) -> Result<(), Memory>
    requires within { taken ≤ length s.old.state.stack }
    requires at { s.old.state.at < usize.MAX }
    ensures ok { OnOk result (running s.new.state ≡ pushes (below taken s.old.state) n) }
    ensures err { OnErr result (s.new.state ≡ s.old.state) }
    ensures room { s.old.room ≤ s.new.room }
    ensures max_stack { s.new.max_stack ≡ s.old.max_stack }
    ensures full { OnErr result (s.old.room < length (n ∷ drop taken s.old.state.stack)) }
{
    s.stack.put(taken, n)?;
    s.at += 1;
    Ok(())
}

// The heap, which the state loses.
fn take_heap(s: &mut State) -> Heap
    ensures heap { result ≡ s.old.state.heap }
    ensures room { s.new.room ≡ s.old.room }
    ensures max_stack { s.new.max_stack ≡ s.old.max_stack }
{
    mem::replace(&mut s.heap, Heap::new(s.alloc))
}

// Stores a number into a local, where there is one.
fn store_local(s: &mut State, taken: usize, place: u16, n: Num)
    requires within { taken ≤ length s.old.state.stack }
    requires at { s.old.state.at < usize.MAX }
    ensures state { running s.new.state ≡ unwrap_or (led (below taken s.old.state) (Effect.Store place n)) (running s.old.state) }
    ensures room { s.new.room ≡ s.old.room }
    ensures max_stack { s.new.max_stack ≡ s.old.max_stack }
{
    if store(&mut s.locals, place, n) {
        go_on(s, taken);
    }
}

// Writes a number into the heap, where it is of the type's sort.
fn write(s: &mut State, taken: usize, t: JType, at: Loc, n: Num) -> Result<(), Memory>
    requires within { taken ≤ length s.old.state.stack }
    requires at { s.old.state.at < usize.MAX }
    ensures ok { OnOk result (running s.new.state ≡ unwrap_or (led (below taken s.old.state) (Effect.Write t at n)) (running s.old.state)) }
    ensures err { OnErr result (s.new.state ≡ s.old.state) }
    ensures room { s.new.room ≡ s.old.room }
    ensures max_stack { s.new.max_stack ≡ s.old.max_stack }
{
    if s.heap.write_as(t, at, n)? {
        go_on(s, taken);
    }
    Ok(())
}

/// Does what an effect says to a state without its operands. Where it does nothing, and after
/// `Memory`, the state stays with its operands.
pub(crate) fn apply(s: &mut State, taken: usize, effect: Effect) -> Result<Option<Outcome>, Memory>
    requires within { taken ≤ length s.old.state.stack }
    requires at { s.old.state.at < usize.MAX }
    ensures leads { IfOk result (λ end. now_of s.new.state end ≡ unwrap_or (led (below taken s.old.state) effect) (running s.old.state)) }
    ensures err { OnErr result (s.new.state ≡ s.old.state) }
    ensures room { s.old.room ≤ s.new.room }
    ensures max_stack { s.new.max_stack ≡ s.old.max_stack }
    ensures full { OnErr result (Lacks s.old taken effect) }
{
    match effect {
        Effect::Next => go_on(s, taken),
        Effect::Push(n) => push(s, taken, n)?,
        Effect::Store(place, n) => store_local(s, taken, place, n),
        Effect::Replace(place, n) => {
            replace(&mut s.locals, place, n);
            go_on(s, taken);
        }
        Effect::Write(t, at, n) => write(s, taken, t, at, n)?,
        Effect::Go(target) => {
            s.stack.discard(taken);
            s.at = target as usize;
        }
        Effect::Throw(fault) => return Ok(Some(Outcome::Threw(fault, take_heap(s)))),
        Effect::Return(n) => return Ok(Some(Outcome::Returned(n, take_heap(s)))),
    }
    Ok(None)
}

/// Goes on as a callee has replied, or ends with its throw. After `Memory` the state stays.
pub(crate) fn answer(
    s: &mut State,
    taken: usize,
    reply: &Outcome,
) -> Result<Option<Outcome>, Memory>
    requires within { taken ≤ length s.old.state.stack }
    requires at { s.old.state.at < usize.MAX }
    ensures leads { IfOk result (λ end. now_of s.new.state end ≡ called (below taken s.old.state) reply.now) }
    ensures err { OnErr result (s.new.state ≡ s.old.state) }
    ensures room { s.old.room ≤ s.new.room }
    ensures max_stack { s.new.max_stack ≡ s.old.max_stack }
{
    match reply {
        Outcome::Returned(n, heap) => {
            let heap = heap.copy()?;
            match n {
                Some(n) => push(s, taken, *n)?,
                None => go_on(s, taken),
            }
            s.heap = heap;
            Ok(None)
        }
        Outcome::Threw(fault, heap) => Ok(Some(Outcome::Threw(*fault, heap.copy()?))),
    }
}
