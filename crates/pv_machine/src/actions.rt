//! What instructions do to a state (JVMS 6.5).

ghost use Rattle.std.specs.Prelude.{◌≡◌, ◌≤◌, ◌<◌, map, option_map, IfSome, IfOk, OnOk, OnErr};
ghost use Rattle.std.specs.Option.{option_and_then};
ghost use Rattle.pv_value.specs.declared.world.World.{World};
ghost use Rattle.pv_frame.specs.declared.program.Program.{Program};
ghost use Rattle.pv_frame.specs.Effects.{sort_of, takes};
ghost use Rattle.pv_machine.specs.Machine.{running, perform, given, tested, branches, held, increased};
ghost use Rattle.pv_machine.specs.Doing.{IsPlain, IsAccess, AsksTypes, KeepsHeap, Leads, Acts};
ghost use Rattle.pv_machine.specs.Steps.{now_of, IsQuiet, IsOverfull};

use crate::access::access;
use crate::branches::{target_of, tested};
use crate::effect::{Effect, answer, apply};
use crate::locals::{held, increased};
use crate::moves::moved;
use crate::operations::{computed, divided};
use crate::state::State;
use crate::types::ask;
use pv_frame::{Action, Move, Program, Sort, Test, asked_sorts, parameter_sorts};
use pv_value::{Descriptor, Fault, JType, Memory, Num, Outcome, Sym, World};
use std::alloc::Global;

// Where a branch goes.
fn branch(test: Test, target: u32, operands: &[Num]) -> Option<Effect>
    ensures leads { Leads (λ s. option_map (branches s target) (tested test operands.now)) result }
    ensures keeps { IfSome result KeepsHeap }
{
    if tested(test, operands)? {
        Some(Effect::Go(target))
    } else {
        Some(Effect::Next)
    }
}

// What a return does: it narrows its value to the type of the method's result.
fn given(t: Option<JType>, operands: &[Num]) -> Option<Effect>
    ensures leads { Leads (λ s. given s t operands.now) result }
    ensures keeps { IfSome result KeepsHeap }
{
    match (t, operands) {
        (Some(t), [n]) => Some(Effect::Return(Some(n.as_type(t)?))),
        (None, []) => Some(Effect::Return(None)),
        _ => None,
    }
}

// The int in a local with a constant added.
fn increase(locals: &[Option<Num>], place: u16, by: i16) -> Option<Num>
    ensures { result ≡ option_and_then (increased by) (held locals.now place Sort.Int) }
{
    increased(by, held(locals, place, Sort::Int)?)
}

// What an action that is neither an access, a move nor a call does with its operands.
fn plain(
    p: &Program,
    world: &World,
    locals: &[Option<Num>],
    action: &Action,
    operands: &[Num],
) -> Option<Effect>
    requires plain { IsPlain action.now }
    requires sorts { map sort_of operands.now ≡ takes action.now }
    ensures acts { Acts p.now world.now locals.now action.now operands.now result }
    ensures keeps { IfSome result KeepsHeap }
{
    match (action, operands) {
        (Action::Nop, []) => Some(Effect::Next),
        (Action::Push(n), []) => Some(Effect::Push(*n)),
        (Action::Literal(text), []) => Some(Effect::Push(Num::Ref(world.literal(text)))),
        (Action::Load(sort, place), []) => Some(Effect::Push(held(locals, *place, *sort)?)),
        (Action::Store(_, place), [n]) => Some(Effect::Store(*place, *n)),
        (Action::Increase(place, by), []) => {
            Some(Effect::Replace(*place, increase(locals, *place, *by)?))
        }
        (Action::Scalar(op), _) => Some(Effect::Push(computed(*op, operands)?)),
        (Action::Divide(op), _) => divided(*op, operands),
        (Action::Branch(test, target), _) => branch(*test, *target, operands),
        (Action::Jump(target), []) => Some(Effect::Go(*target)),
        (Action::Switch(default, cases), [Num::Int(n)]) => {
            Some(Effect::Go(target_of(*default, cases.as_slice(), *n)))
        }
        (Action::Give(_), _) => given(p.desc.result, operands),
        (Action::Throw, [Num::Ref(0)]) => Some(Effect::Throw(Fault::Null)),
        (Action::Throw, [Num::Ref(r)]) => Some(Effect::Throw(Fault::Thrown(*r))),
        (Action::StoreRef | Action::Cast(_) | Action::InstanceOf(_), _) => None,
        _ => None,
    }
}

// Takes the operands of an action from the stack, and does what it does with them.
fn act(
    p: &Program,
    world: &World,
    s: &mut State,
    action: &Action,
) -> Result<Option<Outcome>, Memory>
    requires plain { IsPlain action.now }
    requires at { s.old.state.at < usize.MAX }
    ensures performed { IfOk result (λ end. now_of s.new.state end ≡ perform p.now world.now s.old.state action.now) }
    ensures err { OnErr result (s.new.state ≡ s.old.state) }
    ensures room { s.old.room ≤ s.new.room }
    ensures max_stack { s.new.max_stack ≡ s.old.max_stack }
    ensures full { OnErr result (IsOverfull p.now world.now s.old action.now) }
{
    let Some(operands) = s.stack.operands(asked_sorts(action)) else {
        return Ok(None);
    };
    let taken = operands.len();
    match plain(p, world, &s.locals, action, operands) {
        Some(effect) => apply(s, taken, effect),
        None => Ok(None),
    }
}

// The same, of an access.
fn reach(
    p: &Program,
    world: &World,
    s: &mut State,
    action: &Action,
) -> Result<Option<Outcome>, Memory>
    requires access { IsAccess action.now }
    requires at { s.old.state.at < usize.MAX }
    ensures performed { IfOk result (λ end. now_of s.new.state end ≡ perform p.now world.now s.old.state action.now) }
    ensures err { OnErr result (s.new.state ≡ s.old.state) }
    ensures room { s.old.room ≤ s.new.room }
    ensures max_stack { s.new.max_stack ≡ s.old.max_stack }
    ensures full { IsQuiet action.now → OnErr result (IsOverfull p.now world.now s.old action.now) }
{
    let Some(operands) = s.stack.operands(asked_sorts(action)) else {
        return Ok(None);
    };
    let taken = operands.len();
    match access(world, &s.heap, action, operands)? {
        Some(effect) => apply(s, taken, effect),
        None => Ok(None),
    }
}

// The same, of an action that asks what the world tells of types.
fn inquire(
    p: &Program,
    world: &World,
    s: &mut State,
    action: &Action,
) -> Result<Option<Outcome>, Memory>
    requires asks { AsksTypes action.now }
    requires at { s.old.state.at < usize.MAX }
    ensures performed { IfOk result (λ end. now_of s.new.state end ≡ perform p.now world.now s.old.state action.now) }
    ensures err { OnErr result (s.new.state ≡ s.old.state) }
    ensures room { s.old.room ≤ s.new.room }
    ensures max_stack { s.new.max_stack ≡ s.old.max_stack }
{
    let Some(operands) = s.stack.operands(asked_sorts(action)) else {
        return Ok(None);
    };
    let taken = operands.len();
    match ask(s.alloc, world, &s.heap0, action, operands)? {
        Some(effect) => apply(s, taken, effect),
        None => Ok(None),
    }
}

// Moves values of the operand stack.
fn shift(s: &mut State, step: Move) -> Result<(), Memory>
    requires at { s.old.state.at < usize.MAX }
    ensures performed { (p : Program) (w : World) → OnOk result (running s.new.state ≡ perform p w s.old.state (Action.Move step)) }
    ensures err { OnErr result (s.new.state ≡ s.old.state) }
    ensures room { s.old.room ≤ s.new.room }
    ensures max_stack { s.new.max_stack ≡ s.old.max_stack }
    ensures full { (p : Program) (w : World) → OnErr result (IsOverfull p w s.old (Action.Move step)) }
{
    if moved(&mut s.stack, step)? {
        s.at += 1;
    }
    Ok(())
}

// Calls a method, as the world replies.
fn call(world: &World, s: &mut State, desc: &Descriptor, f: &Sym) -> Result<Option<Outcome>, Memory>
    requires at { s.old.state.at < usize.MAX }
    ensures performed { (p : Program) → IfOk result (λ end. now_of s.new.state end ≡ perform p world.now s.old.state (Action.Call desc.now f.now)) }
    ensures err { OnErr result (s.new.state ≡ s.old.state) }
    ensures room { s.old.room ≤ s.new.room }
    ensures max_stack { s.new.max_stack ≡ s.old.max_stack }
{
    let sorts = parameter_sorts(s.alloc, &desc.params)?;
    let Some(args) = s.stack.operands(&sorts) else {
        return Ok(None);
    };
    let taken = args.len();
    match world.reply(f, &s.heap, args) {
        Some(reply) => answer(s, taken, reply),
        None => Ok(None),
    }
}

// Calls a method on a receiver, as the world replies; on null it throws.
fn call_on(
    world: &World,
    s: &mut State,
    desc: &Descriptor,
    f: &Sym,
) -> Result<Option<Outcome>, Memory>
    requires at { s.old.state.at < usize.MAX }
    ensures performed { (p : Program) → IfOk result (λ end. now_of s.new.state end ≡ perform p world.now s.old.state (Action.CallOn desc.now f.now)) }
    ensures err { OnErr result (s.new.state ≡ s.old.state) }
    ensures room { s.old.room ≤ s.new.room }
    ensures max_stack { s.new.max_stack ≡ s.old.max_stack }
{
    let sorts = parameter_sorts(s.alloc, &desc.params)?;
    let Some(args) = s.stack.operands(&sorts) else {
        return Ok(None);
    };
    let taken = args.len();
    match args {
        [Num::Ref(0), ..] => apply(s, taken, Effect::Throw(Fault::Null)),
        [Num::Ref(_), ..] => match world.reply(f, &s.heap, args) {
            Some(reply) => answer(s, taken, reply),
            None => Ok(None),
        },
        _ => Ok(None),
    }
}

/// Does what an instruction does. Where it does nothing, and after `Memory`, the state stays.
pub(crate) fn perform(
    p: &Program,
    world: &World,
    s: &mut State,
    action: &Action,
) -> Result<Option<Outcome>, Memory>
    requires at { s.old.state.at < usize.MAX }
    ensures performed { IfOk result (λ end. now_of s.new.state end ≡ perform p.now world.now s.old.state action.now) }
    ensures err { OnErr result (s.new.state ≡ s.old.state) }
    ensures room { s.old.room ≤ s.new.room }
    ensures max_stack { s.new.max_stack ≡ s.old.max_stack }
    ensures full { IsQuiet action.now → OnErr result (IsOverfull p.now world.now s.old action.now) }
{
    match action {
        Action::Move(step) => {
            shift(s, *step)?;
            Ok(None)
        }
        Action::Call(desc, f) => call(world, s, desc, f),
        Action::CallOn(desc, f) => call_on(world, s, desc, f),
        Action::StoreRef | Action::Cast(_) | Action::InstanceOf(_) => inquire(p, world, s, action),
        Action::GetStatic(_, _)
        | Action::PutStatic(_, _)
        | Action::GetField(_, _)
        | Action::PutField(_, _)
        | Action::LoadElement(_)
        | Action::StoreElement(_)
        | Action::Length => reach(p, world, s, action),
        _ => act(p, world, s, action),
    }
}
