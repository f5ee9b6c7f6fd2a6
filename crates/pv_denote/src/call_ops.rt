//! The operations of calls.

ghost use Rattle.std.specs.Prelude.{◌≡◌, Some, MatchResult};
ghost use Rattle.std.specs.Option.{option_copied};
ghost use Rattle.pv_value.specs.Spelled.{bind, method_type};
ghost use Rattle.pv_value.specs.Worlds as worlds;
ghost use Rattle.pv_graph.specs.declared.node.Op.TheVariants as op;
ghost use Rattle.pv_denote.specs.Denote.{default_of, numbers, reply_fault, reply_result, strict};
ghost use Rattle.pv_denote.specs.Given.{Gives, Stops};

use crate::part::number;
use crate::setting::Setting;
use crate::stop::Stop;
use pv_value::{Fault, Heap, JType, Num, Outcome, Sym, Val, read_descriptor};
use std::alloc::Global;

/// The arguments of a call.
fn numbers(alloc: Global, values: &[Val]) -> Result<Vec<Num>, Stop>
    ensures { MatchResult result (λ ns. numbers values.now ≡ Some ns.items) (λ e. Stops e (numbers values.now)) }
{
    let mut found = Vec::new(alloc);
    for v in values {
        found.push(number(v)?)?;
    }
    Ok(found)
}

/// The type of a call's result.
fn result_type(alloc: Global, s: &Sym) -> Result<JType, Stop>
    ensures { Gives result (bind (method_type s.now.desc) (λ d. d.result)) }
{
    let Some(d) = read_descriptor(alloc, s.desc.bytes())? else {
        return Err(Stop::NoValue);
    };
    match d.result {
        Some(t) => Ok(t),
        None => Err(Stop::NoValue),
    }
}

/// 0 or null, as a type has it.
fn default_of(t: JType) -> Num
    ensures { result ≡ default_of t }
{
    match t {
        JType::J => Num::Long(0),
        JType::A => Num::Ref(0),
        _ => Num::Int(0),
    }
}

/// The result of a call of a type, from the reply, if there is one.
fn result_of(t: JType, reply: Option<&Outcome>) -> Num
    ensures { result ≡ reply_result t (option_copied reply.entry) }
{
    match reply {
        Some(Outcome::Returned(Some(n), _)) => *n,
        _ => default_of(t),
    }
}

/// The fault of a call, from the reply, if there is one.
fn fault_of(reply: Option<&Outcome>) -> Fault
    ensures { result ≡ reply_fault (option_copied reply.entry) }
{
    match reply {
        Some(Outcome::Threw(f, _)) => *f,
        _ => Fault::Clear,
    }
}

impl Setting<'_> {
    /// The reply to a call, if the table has the call.
    fn reply(&self, s: &Sym, heap: &Heap, args: &[Val]) -> Result<Option<&Outcome>, Stop>
        ensures { let found = bind (numbers args.now) (λ ns. Some (worlds.reply self.now.world.now s.now heap.now ns)) in MatchResult result (λ o. found ≡ Some (option_copied o)) (λ e. Stops e found) }
    {
        let args = numbers(self.alloc, args)?;
        Ok(self.world.reply(s, heap, args.as_slice()))
    }

    /// Whether a call ends.
    #[tactic(auto, unfolding(crate::specs::Denote::strict))]
    pub fn call_end(&self, s: &Sym, values: &[Val]) -> Result<Val, Stop>
        ensures { Gives result (strict self.now.world.now self.now.input.now (op.CallEnd s.now) values.now) }
    {
        match values {
            [Val::Heap(h), args @ ..] => match self.reply(s, h, args)? {
                Some(_) => Ok(Val::Unit),
                None => Err(Stop::NoValue),
            },
            _ => Err(Stop::NoValue),
        }
    }

    /// The result of a call.
    #[tactic(auto, unfolding(crate::specs::Denote::strict))]
    pub fn call_res(&self, s: &Sym, values: &[Val]) -> Result<Val, Stop>
        ensures { Gives result (strict self.now.world.now self.now.input.now (op.CallRes s.now) values.now) }
    {
        match values {
            [Val::Heap(h), args @ ..] => {
                let reply = self.reply(s, h, args)?;
                Ok(Val::Num(result_of(result_type(self.alloc, s)?, reply)))
            }
            _ => Err(Stop::NoValue),
        }
    }

    /// The fault of a call.
    #[tactic(auto, unfolding(crate::specs::Denote::strict))]
    pub fn call_fault(&self, s: &Sym, values: &[Val]) -> Result<Val, Stop>
        ensures { Gives result (strict self.now.world.now self.now.input.now (op.CallFault s.now) values.now) }
    {
        match values {
            [Val::Heap(h), args @ ..] => Ok(Val::Fault(fault_of(self.reply(s, h, args)?))),
            _ => Err(Stop::NoValue),
        }
    }

    /// The heap after a call.
    #[tactic(auto, unfolding(crate::specs::Denote::strict))]
    pub fn call_heap(&self, s: &Sym, values: &[Val]) -> Result<Val, Stop>
        ensures { Gives result (strict self.now.world.now self.now.input.now (op.CallHeap s.now) values.now) }
    {
        match values {
            [Val::Heap(h), args @ ..] => match self.reply(s, h, args)? {
                Some(Outcome::Returned(_, after) | Outcome::Threw(_, after)) => {
                    Ok(Val::Heap(after.copy()?))
                }
                None => Ok(Val::Heap(h.copy()?)),
            },
            _ => Err(Stop::NoValue),
        }
    }
}
