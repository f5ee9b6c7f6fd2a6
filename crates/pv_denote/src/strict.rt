//! The operations that need the values of all their kids.

ghost use Rattle.std.specs.Prelude.{◌≡◌};
ghost use Rattle.std.specs.List.{AllByRecursion};
ghost use Rattle.pv_graph.specs.declared.node.Op.TheVariants as op;
ghost use Rattle.pv_denote.specs.Denote.{param_of, strict};
ghost use Rattle.pv_denote.specs.Given.{Gives, IsSmall, leaf_of};

use crate::scalars::scalar_value;
use crate::setting::Setting;
use crate::stop::Stop;
use pv_graph::{Op, OpSort};
use pv_value::{Fault, Num, Val};

/// The value of an operation without kids.
fn leaf(values: &[Val], v: Val) -> Result<Val, Stop>
    ensures { Gives result (leaf_of v values.now) }
{
    if values.is_empty() {
        Ok(v)
    } else {
        Err(Stop::NoValue)
    }
}

impl Setting<'_> {
    /// The value of an operation over the values of its kids.
    pub fn strict(&self, op: &Op, values: &[Val]) -> Result<Val, Stop>
        requires small { AllByRecursion IsSmall values.now }
        ensures { Gives result (strict self.now.world.now self.now.input.now op.now values.now) }
    {
        match op {
            Op::Int(c) => leaf(values, Val::Num(Num::Int(*c))),
            Op::Long(c) => leaf(values, Val::Num(Num::Long(*c))),
            Op::Null => leaf(values, Val::Num(Num::Ref(0))),
            Op::Literal(text) => leaf(values, Val::Num(Num::Ref(self.world.literal(text)))),
            Op::Param(j, sort) => leaf(values, Val::Num(self.param(*j, *sort))),
            Op::This => leaf(values, Val::Num(Num::Ref(self.input.this))),
            Op::Heap0 => leaf(values, Val::Heap(self.input.heap.copy()?)),
            Op::Unit => leaf(values, Val::Unit),
            Op::Clear => leaf(values, Val::Fault(Fault::Clear)),
            Op::FNull => leaf(values, Val::Fault(Fault::Null)),
            Op::FArith => leaf(values, Val::Fault(Fault::Arith)),
            Op::FIndex => leaf(values, Val::Fault(Fault::Index)),
            Op::Zero => leaf(values, Val::Count(0)),
            Op::Succ => self.succ(values),
            Op::Thrown => self.thrown(values),
            Op::IsClear => self.is_clear(values),
            Op::Both => self.both(values),
            Op::Scalar(o) => scalar_value(*o, values),
            Op::Aeq => self.aeq(values),
            Op::Length => self.length(values),
            Op::GetStatic(s) => self.get_static(s, values),
            Op::PutStatic(s) => self.put_static(s, values),
            Op::GetField(s) => self.get_field(s, values),
            Op::PutField(s) => self.put_field(s, values),
            Op::Load(kind) => self.load(*kind, values),
            Op::Store(kind) => self.store(*kind, values),
            Op::CallEnd(s) => self.call_end(s, values),
            Op::CallRes(s) => self.call_res(s, values),
            Op::CallFault(s) => self.call_fault(s, values),
            Op::CallHeap(s) => self.call_heap(s, values),
            Op::Never
            | Op::Phi
            | Op::Theta(_)
            | Op::Eval(_)
            | Op::Pass(_)
            | Op::Shift(_)
            | Op::Root
            | Op::Var(..) => Err(Stop::NoValue),
        }
    }

    /// An argument, counted from 0 without `this`, as a number of a sort.
    fn param(&self, j: u32, sort: OpSort) -> Num
        ensures { result ≡ param_of self.now.input.now.args j sort }
    {
        match (sort, self.input.args.as_slice().get(j as usize)) {
            (OpSort::I, Some(Num::Int(n))) => Num::Int(*n),
            (OpSort::I, _) => Num::Int(0),
            (OpSort::L, Some(Num::Long(n))) => Num::Long(*n),
            (OpSort::L, _) => Num::Long(0),
            (_, Some(Num::Ref(r))) => Num::Ref(*r),
            _ => Num::Ref(0),
        }
    }

    #[tactic(auto, unfolding(crate::specs::Denote::strict))]
    fn succ(&self, values: &[Val]) -> Result<Val, Stop>
        requires { AllByRecursion IsSmall values.now }
        ensures { Gives result (strict self.now.world.now self.now.input.now op.Succ values.now) }
    {
        match values {
            [Val::Count(k)] => Ok(Val::Count(*k + 1)),
            _ => Err(Stop::NoValue),
        }
    }

    #[tactic(auto, unfolding(crate::specs::Denote::strict))]
    fn thrown(&self, values: &[Val]) -> Result<Val, Stop>
        ensures { Gives result (strict self.now.world.now self.now.input.now op.Thrown values.now) }
    {
        match values {
            [Val::Num(Num::Ref(r))] => Ok(Val::Fault(Fault::Thrown(*r))),
            _ => Err(Stop::NoValue),
        }
    }

    #[tactic(auto, unfolding(crate::specs::Denote::strict))]
    fn is_clear(&self, values: &[Val]) -> Result<Val, Stop>
        ensures { Gives result (strict self.now.world.now self.now.input.now op.IsClear values.now) }
    {
        match values {
            [Val::Fault(Fault::Clear)] => Ok(Val::Num(Num::Int(1))),
            [Val::Fault(_)] => Ok(Val::Num(Num::Int(0))),
            _ => Err(Stop::NoValue),
        }
    }

    #[tactic(auto, unfolding(crate::specs::Denote::strict))]
    fn both(&self, values: &[Val]) -> Result<Val, Stop>
        ensures { Gives result (strict self.now.world.now self.now.input.now op.Both values.now) }
    {
        match values {
            [Val::Unit, Val::Unit] => Ok(Val::Unit),
            _ => Err(Stop::NoValue),
        }
    }

    #[tactic(auto, unfolding(crate::specs::Denote::strict))]
    fn aeq(&self, values: &[Val]) -> Result<Val, Stop>
        ensures { Gives result (strict self.now.world.now self.now.input.now op.Aeq values.now) }
    {
        match values {
            [Val::Num(Num::Ref(a)), Val::Num(Num::Ref(b))] => {
                Ok(Val::Num(Num::Int(i32::from(a == b))))
            }
            _ => Err(Stop::NoValue),
        }
    }

    #[tactic(auto, unfolding(crate::specs::Denote::strict))]
    fn length(&self, values: &[Val]) -> Result<Val, Stop>
        ensures { Gives result (strict self.now.world.now self.now.input.now op.Length values.now) }
    {
        match values {
            [Val::Num(Num::Ref(r))] => Ok(Val::Num(Num::Int(self.world.length(*r)))),
            _ => Err(Stop::NoValue),
        }
    }
}
