//! The sort of an operation over kids of some sorts.

ghost use Rattle.std.specs.Prelude.{◌≡◌, ◌∷◌, ◌<◌, List, MatchOption, IfOk, None, Some, vec_len};
ghost use Rattle.std.specs.List.{All};
ghost use Rattle.pv_value.specs.Spelled.{bind, field_type, method_type};
ghost use Rattle.pv_graph.specs.Ops.{HaveSorts, sort_over, exactly, param_sort, but_root, alike, choice_sort, eval_sort, shift_sort, root_sort, type_sort, type_sorts, kind_sort, field_sort, call_sorts};
ghost use Rattle.pv_value.specs.Operations.{gives};
ghost use Rattle.pv_graph.specs.Ops.{word_sort};
ghost use Rattle.pv_graph.specs.SortCode.{scalar_sort, in_loop, own_result, own_sort, IsOnField};

use crate::node::{NodeId, Op, OpSort};
use pv_value::{Descriptor, JType, Kind, Memory, ScalarOp, Sym, read_descriptor, read_field_type};
use std::alloc::{AllocError, Global};

// The sort over kids of exactly these sorts.
fn exactly(takes: &[OpSort], gives: OpSort, kids: &[OpSort]) -> Option<OpSort>
    ensures { result ≡ exactly takes.now gives kids.now }
{
    if takes == kids { Some(gives) } else { None }
}

// Any sort but a root's.
fn but_root(sort: OpSort) -> Option<OpSort>
    ensures { result ≡ but_root sort }
{
    match sort {
        OpSort::R => None,
        _ => Some(sort),
    }
}

// The sort of an argument of this sort.
fn param_sort(sort: OpSort) -> Option<OpSort>
    ensures { result ≡ param_sort sort }
{
    match sort {
        OpSort::I | OpSort::L | OpSort::A => Some(sort),
        _ => None,
    }
}

// The sort of two kids of one sort.
fn alike(kids: &[OpSort]) -> Option<OpSort>
    ensures { result ≡ alike kids.now }
{
    match kids {
        [first, second] if first == second => but_root(*first),
        _ => None,
    }
}

// The sort of a choice.
fn choice_sort(kids: &[OpSort]) -> Option<OpSort>
    ensures { result ≡ choice_sort kids.now }
{
    match kids {
        [OpSort::I, sides @ ..] => alike(sides),
        _ => None,
    }
}

// The sort of the first kid, at the iteration that the second counts.
fn eval_sort(kids: &[OpSort]) -> Option<OpSort>
    ensures { result ≡ eval_sort kids.now }
{
    match kids {
        [sort, OpSort::N] => but_root(*sort),
        _ => None,
    }
}

// The sort of the one kid.
fn shift_sort(kids: &[OpSort]) -> Option<OpSort>
    ensures { result ≡ shift_sort kids.now }
{
    match kids {
        [sort] => but_root(*sort),
        _ => None,
    }
}

// The sort of the end of a method.
fn root_sort(kids: &[OpSort]) -> Option<OpSort>
    ensures { result ≡ root_sort kids.now }
{
    match kids {
        [
            OpSort::T,
            OpSort::F,
            OpSort::I | OpSort::L | OpSort::A | OpSort::T,
            OpSort::H,
        ] => { Some(OpSort::R) }
        _ => None,
    }
}

// The sort, where the depth is one of loops.
fn in_loop(d: u32, sort: Option<OpSort>) -> Option<OpSort>
    ensures { result ≡ in_loop d sort }
{
    if 1 <= d && d <= 16 { sort } else { None }
}

// The sort of the elements of an array.
fn kind_sort(kind: Kind) -> OpSort
    ensures { result ≡ kind_sort kind }
{
    match kind {
        Kind::Long => OpSort::L,
        Kind::Ref => OpSort::A,
        _ => OpSort::I,
    }
}

// The sort of values of a type; floats and doubles have none.
fn type_sort(t: JType) -> Option<OpSort>
    ensures { result ≡ type_sort t }
{
    match t {
        JType::J => Some(OpSort::L),
        JType::A => Some(OpSort::A),
        JType::F | JType::D => None,
        _ => Some(OpSort::I),
    }
}

// The type of a field.
fn type_of_field(sym: &Sym) -> Option<JType>
    ensures { result ≡ field_type sym.now.desc }
{
    read_field_type(sym.desc.bytes())
}

// The type of a method.
fn type_of_method(alloc: Global, sym: &Sym) -> Result<Option<Descriptor>, Memory>
    ensures { IfOk result (λ found. found ≡ method_type sym.now.desc) }
{
    read_descriptor(alloc, sym.desc.bytes())
}

// The sort of a field.
fn field_sort(sym: &Sym) -> Option<OpSort>
    ensures { result ≡ field_sort sym.now }
{
    type_sort(type_of_field(sym)?)
}

// The sort of an operation on numbers (JVMS 6.5).
fn scalar_sort(op: ScalarOp, kids: &[OpSort]) -> Option<OpSort>
    ensures { result ≡ scalar_sort op kids.now }
{
    use OpSort::{I, L};
    use ScalarOp::*;
    match op {
        Iadd | Isub | Imul | Idiv | Irem | Ishl | Ishr | Iushr | Iand | Ior | Ixor | Ieq | Ilt => {
            exactly(&[I, I], I, kids)
        }
        Ineg | I2b | I2c | I2s => exactly(&[I], I, kids),
        I2l => exactly(&[I], L, kids),
        Ladd | Lsub | Lmul | Ldiv | Lrem | Land | Lor | Lxor => exactly(&[L, L], L, kids),
        Lshl | Lshr | Lushr => exactly(&[L, I], L, kids),
        Leq | Lcmp => exactly(&[L, L], I, kids),
        Lneg => exactly(&[L], L, kids),
        L2i => exactly(&[L], I, kids),
    }
}

// What a call takes, the heap before its arguments, and the sort of its result, if any.
#[derive(Drop)]
struct CallSorts {
    kids: Vec<OpSort>,
    result: Option<OpSort>,
}

// The heap's sort and those of parameters.
fn sorts_of_call(alloc: Global, params: &[JType]) -> Result<Option<Vec<OpSort>>, Memory>
    ensures { IfOk result (λ found. MatchOption found (type_sorts params.now ≡ None) (λ kids. (ss : List OpSort) × (type_sorts params.now ≡ Some ss) × (kids.items ≡ OpSort.H ∷ ss))) }
{
    let mut kids = vec![in alloc; OpSort::H]?;
    for t in params {
        let Some(sort) = type_sort(*t) else {
            return Ok(None);
        };
        kids.push(sort)?;
    }
    Ok(Some(kids))
}

// The sorts of the call of a method.
fn call_sorts(alloc: Global, sym: &Sym) -> Result<Option<CallSorts>, Memory>
    ensures { IfOk result (λ found. MatchOption found (call_sorts sym.now ≡ None) (λ c. call_sorts sym.now ≡ Some (record { kids = c.kids.items; result = c.result }))) }
{
    let Some(desc) = type_of_method(alloc, sym)? else {
        return Ok(None);
    };
    let Some(kids) = sorts_of_call(alloc, desc.params.as_slice())? else {
        return Ok(None);
    };
    let Some(t) = desc.result else {
        return Ok(Some(CallSorts { kids, result: None }));
    };
    let Some(sort) = type_sort(t) else {
        return Ok(None);
    };
    Ok(Some(CallSorts {
        kids,
        result: Some(sort),
    }))
}

// The sort of a part of a call's reply that each call has.
fn part_sort(
    alloc: Global,
    sym: &Sym,
    sort: OpSort,
    kids: &[OpSort],
) -> Result<Option<OpSort>, Memory>
    ensures { IfOk result (λ found. found ≡ bind (call_sorts sym.now) (λ c. exactly c.kids sort kids.now)) }
{
    match call_sorts(alloc, sym)? {
        Some(call) => Ok(exactly(&call.kids, sort, kids)),
        None => Ok(None),
    }
}

// The sort of a call's result, which a void call doesn't have.
fn result_sort(alloc: Global, sym: &Sym, kids: &[OpSort]) -> Result<Option<OpSort>, Memory>
    ensures { IfOk result (λ found. found ≡ sort_over (Op.CallRes sym.now) kids.now) }
{
    let Some(call) = call_sorts(alloc, sym)? else {
        return Ok(None);
    };
    match call.result {
        Some(sort) => Ok(exactly(&call.kids, sort, kids)),
        None => Ok(None),
    }
}

// The sort of an operation on a field, over kids of these sorts.
fn field_op_sort(op: &Op, sym: &Sym, kids: &[OpSort]) -> Option<OpSort>
    requires { IsOnField op.now sym.now }
    ensures { result ≡ sort_over op.now kids.now }
{
    use OpSort::{A, H};
    let sort = field_sort(sym)?;
    match op {
        Op::GetStatic(_) => exactly(&[H], sort, kids),
        Op::PutStatic(_) => exactly(&[H, sort], H, kids),
        Op::GetField(_) => exactly(&[H, A], sort, kids),
        _ => exactly(&[H, A, sort], H, kids),
    }
}

/// The sort of an operation's value over kids of these sorts, `None` where they don't fit it. It takes
/// memory where the operation is one of a call.
pub(crate) fn sort_of(alloc: Global, op: &Op, kids: &[OpSort]) -> Result<Option<OpSort>, Memory>
    ensures { IfOk result (λ found. found ≡ sort_over op.now kids.now) }
{
    use OpSort::{A, F, H, I, L, N, T};
    match op {
        Op::Int(_) => Ok(exactly(&[], I, kids)),
        Op::Long(_) => Ok(exactly(&[], L, kids)),
        Op::Null | Op::Literal(_) | Op::This => Ok(exactly(&[], A, kids)),
        Op::Param(_, sort) => Ok(param_sort(*sort).and_then(|sort| exactly(&[], sort, kids))),
        Op::Heap0 => Ok(exactly(&[], H, kids)),
        Op::Unit | Op::Never => Ok(exactly(&[], T, kids)),
        Op::Clear | Op::FNull | Op::FArith | Op::FIndex => Ok(exactly(&[], F, kids)),
        Op::Zero => Ok(exactly(&[], N, kids)),
        Op::Succ => Ok(exactly(&[N], N, kids)),
        Op::Thrown => Ok(exactly(&[A], F, kids)),
        Op::IsClear => Ok(exactly(&[F], I, kids)),
        Op::Both => Ok(exactly(&[T, T], T, kids)),
        Op::Phi => Ok(choice_sort(kids)),
        Op::Theta(d) => Ok(in_loop(*d, alike(kids))),
        Op::Eval(d) => Ok(in_loop(*d, eval_sort(kids))),
        Op::Pass(d) => Ok(in_loop(*d, exactly(&[I], N, kids))),
        Op::Shift(d) => Ok(in_loop(*d, shift_sort(kids))),
        Op::Root => Ok(root_sort(kids)),
        Op::Scalar(op) => Ok(scalar_sort(*op, kids)),
        Op::Aeq => Ok(exactly(&[A, A], I, kids)),
        Op::GetStatic(sym) | Op::PutStatic(sym) | Op::GetField(sym) | Op::PutField(sym) => {
            Ok(field_op_sort(op, sym, kids))
        }
        Op::Load(kind) => Ok(exactly(&[H, A, I], kind_sort(*kind), kids)),
        Op::Store(kind) => Ok(exactly(&[H, A, I, kind_sort(*kind)], H, kids)),
        Op::Length => Ok(exactly(&[A], I, kids)),
        Op::CallEnd(sym) => part_sort(alloc, sym, T, kids),
        Op::CallRes(sym) => result_sort(alloc, sym, kids),
        Op::CallFault(sym) => part_sort(alloc, sym, F, kids),
        Op::CallHeap(sym) => part_sort(alloc, sym, H, kids),
        Op::Var(_, sort) => Ok(exactly(&[], *sort, kids)),
    }
}

/// The sorts of nodes.
pub(crate) fn sorts_of(
    alloc: Global,
    sorts: &Vec<OpSort>,
    kids: &[NodeId],
) -> Result<Vec<OpSort>, AllocError>
    requires { All (λ k. k < vec_len sorts.now) kids.now }
    ensures { IfOk result (λ found. HaveSorts sorts.now.items kids.now found.items) }
{
    let mut found = Vec::new(alloc);
    for kid in kids {
        found.push(sorts[*kid as usize])?;
    }
    Ok(found)
}

// The sort that an operation on numbers gives.
fn scalar_gives(op: ScalarOp) -> OpSort
    ensures { result ≡ word_sort (gives op) }
{
    use ScalarOp::*;
    match op {
        I2l | Ladd | Lsub | Lmul | Ldiv | Lrem | Lshl | Lshr | Lushr | Land | Lor | Lxor | Lneg => {
            OpSort::L
        }
        _ => OpSort::I,
    }
}

// The sort of a call's result, which a void call doesn't have.
fn own_result(alloc: Global, sym: &Sym) -> Result<Option<OpSort>, Memory>
    ensures { IfOk result (λ found. found ≡ own_result sym.now) }
{
    match call_sorts(alloc, sym)? {
        Some(call) => Ok(call.result),
        None => Ok(None),
    }
}

/// The sort that an operation gives whatever its kids are; `None` where it takes the sort of a kid, or
/// gives none at all. It takes memory where the operation is one of a call.
pub(crate) fn own_sort(alloc: Global, op: &Op) -> Result<Option<OpSort>, Memory>
    ensures { IfOk result (λ found. found ≡ own_sort op.now) }
{
    use OpSort::{A, F, H, I, L, N, R, T};
    match op {
        Op::Int(_) | Op::IsClear | Op::Aeq | Op::Length => Ok(Some(I)),
        Op::Long(_) => Ok(Some(L)),
        Op::Null | Op::Literal(_) | Op::This => Ok(Some(A)),
        Op::Param(_, sort) | Op::Var(_, sort) => Ok(Some(*sort)),
        Op::Heap0 | Op::PutStatic(_) | Op::PutField(_) | Op::Store(_) | Op::CallHeap(_) => Ok(Some(
            H,
        )),
        Op::Unit | Op::Never | Op::Both | Op::CallEnd(_) => Ok(Some(T)),
        Op::Clear | Op::FNull | Op::FArith | Op::FIndex | Op::Thrown | Op::CallFault(_) => Ok(Some(
            F,
        )),
        Op::Zero | Op::Succ | Op::Pass(_) => Ok(Some(N)),
        Op::Root => Ok(Some(R)),
        Op::Scalar(op) => Ok(Some(scalar_gives(*op))),
        Op::GetStatic(sym) | Op::GetField(sym) => Ok(field_sort(sym)),
        Op::Load(kind) => Ok(Some(kind_sort(*kind))),
        Op::CallRes(sym) => own_result(alloc, sym),
        Op::Phi | Op::Theta(_) | Op::Eval(_) | Op::Shift(_) => Ok(None),
    }
}
