//! Nodes: an operation and its kids.

ghost use Rattle.std.specs.Prelude.{◌≡◌, ◌==◌, ◌↔◌, [], ℕ, IfOk, IsTrue};
ghost use Rattle.std.specs.Cmp.Lexicographic.{pointwise};
ghost use Rattle.std.specs.Cmp.Rules.{comparing, hashing};
ghost use Rattle.std.specs.Hash as fed;
ghost use Rattle.std.proofs.Common.{rules};
ghost use Rattle.pv_graph.specs.Nodes.{node_of, HasName, IsOpen};
ghost use Rattle.pv_graph.specs.Ops.{is_variable};

use pv_value::{Kind, Memory, Name, ScalarOp, Sym};
use std::alloc::Global;
use std::hash::{Hash, Hasher};
use std::marker::Model;

/// The number of a node.
pub type NodeId = u32;

/// An operation, with its parameters: a constant, a text, an argument's number and sort, a depth of
/// loops, an operation on numbers, a kind of elements or a symbol. The faults that the machine makes
/// are `FNull`, `FArith` and `FIndex`; `Clear` stands for none. `Var(j, sort)` is variable j of a lemma of a
/// certificate, counted from 0: any node of its sort may stand for it, and it has no value itself. No method has one.
#[derive(Debug, Drop, PartialEq, Eq, Hash)]
pub enum Op {
    Int(i32),
    Long(i64),
    Null,
    Literal(Name),
    Param(u32, OpSort),
    This,
    Heap0,
    Unit,
    Never,
    Clear,
    FNull,
    FArith,
    FIndex,
    Zero,
    Succ,
    Thrown,
    IsClear,
    Both,
    Phi,
    Theta(u32),
    Eval(u32),
    Pass(u32),
    Shift(u32),
    Root,
    Scalar(ScalarOp),
    Aeq,
    GetStatic(Sym),
    PutStatic(Sym),
    GetField(Sym),
    PutField(Sym),
    Load(Kind),
    Store(Kind),
    Length,
    CallEnd(Sym),
    CallRes(Sym),
    CallFault(Sym),
    CallHeap(Sym),
    Var(u32, OpSort),
}

fn copy_name(alloc: Global, name: &Name) -> Result<Name, Memory>
    ensures { IfOk result (λ copy. copy ≡ name.now) }
{
    Name::new(alloc, name.bytes())
}

fn copy_sym(alloc: Global, sym: &Sym) -> Result<Sym, Memory>
    ensures { IfOk result (λ copy. copy ≡ sym.now) }
{
    Ok(Sym {
        class: copy_name(alloc, &sym.class)?,
        name: copy_name(alloc, &sym.name)?,
        desc: copy_name(alloc, &sym.desc)?,
    })
}

impl Op {
    /// Whether it is a variable of a lemma.
    pub fn is_variable(&self) -> bool
        ensures { result ≡ is_variable self.now }
    {
        matches!(self, Op::Var(..))
    }

    /// An equal operation. It takes memory where the operation has a text or a symbol.
    pub fn copy(&self, alloc: Global) -> Result<Op, Memory>
        ensures { IfOk result (λ copy. copy ≡ self.now) }
    {
        Ok(match self {
            Op::Literal(text) => Op::Literal(copy_name(alloc, text)?),
            Op::GetStatic(sym) => Op::GetStatic(copy_sym(alloc, sym)?),
            Op::PutStatic(sym) => Op::PutStatic(copy_sym(alloc, sym)?),
            Op::GetField(sym) => Op::GetField(copy_sym(alloc, sym)?),
            Op::PutField(sym) => Op::PutField(copy_sym(alloc, sym)?),
            Op::CallEnd(sym) => Op::CallEnd(copy_sym(alloc, sym)?),
            Op::CallRes(sym) => Op::CallRes(copy_sym(alloc, sym)?),
            Op::CallFault(sym) => Op::CallFault(copy_sym(alloc, sym)?),
            Op::CallHeap(sym) => Op::CallHeap(copy_sym(alloc, sym)?),
            _ => self.without_name(),
        })
    }

    // An equal operation, of one that has no text and no symbol.
    fn without_name(&self) -> Op
        requires { HasName self.now → ⊥ }
        ensures { result ≡ self.now }
    {
        match self {
            Op::Int(n) => Op::Int(*n),
            Op::Long(n) => Op::Long(*n),
            Op::Null => Op::Null,
            Op::Param(j, sort) => Op::Param(*j, *sort),
            Op::This => Op::This,
            Op::Heap0 => Op::Heap0,
            Op::Unit => Op::Unit,
            Op::Never => Op::Never,
            Op::Clear => Op::Clear,
            Op::FNull => Op::FNull,
            Op::FArith => Op::FArith,
            Op::FIndex => Op::FIndex,
            Op::Zero => Op::Zero,
            Op::Succ => Op::Succ,
            Op::Thrown => Op::Thrown,
            Op::IsClear => Op::IsClear,
            Op::Both => Op::Both,
            Op::Phi => Op::Phi,
            Op::Theta(d) => Op::Theta(*d),
            Op::Eval(d) => Op::Eval(*d),
            Op::Pass(d) => Op::Pass(*d),
            Op::Shift(d) => Op::Shift(*d),
            Op::Root => Op::Root,
            Op::Scalar(op) => Op::Scalar(*op),
            Op::Aeq => Op::Aeq,
            Op::Load(kind) => Op::Load(*kind),
            Op::Store(kind) => Op::Store(*kind),
            Op::Length => Op::Length,
            Op::Var(j, sort) => Op::Var(*j, *sort),
            _ => unreachable!(),
        }
    }
}

/// The sort of a node's value: int, long, reference, count, fault, token, heap, root.
#[derive(Clone, Copy, Debug, PartialEq, Eq, Hash)]
pub enum OpSort {
    I,
    L,
    A,
    N,
    F,
    T,
    H,
    R,
}

/// A list of nodes.
#[derive(Debug, Drop)]
pub struct Kids {
    items: Vec<NodeId>,
}

impl Model for Kids {
    ghost use Rattle.std.specs.Prelude.{List, ℕ};

    ghost Value = { List ℕ };

    ghost view = { λ k. k.items.items };
}

impl From<Vec<NodeId>> for Kids {
    ghost use Rattle.std.specs.Prelude.{◌≡◌};

    ghost from_gives = { λ items kids. kids ≡ items.items };

    fn from(items: Vec<NodeId>) -> Kids {
        Kids { items }
    }
}

impl Kids {
    /// The list of these nodes.
    pub fn new(alloc: Global, items: &[NodeId]) -> Result<Kids, Memory>
        ensures { IfOk result (λ kids. kids ≡ items.now) }
    {
        Ok(Kids {
            items: Vec::from_slice(alloc, items)?,
        })
    }

    /// The nodes in order.
    pub fn as_slice(&self) -> &[NodeId]
        ensures { result.now ≡ self.now }
    {
        &self.items
    }
}

impl PartialEq for Kids {
    ghost eq = { pointwise ◌==◌ };

    ghost laws = { Prim.search (comparing, rules) };

    fn eq(&self, other: &Kids) -> bool {
        self.as_slice() == other.as_slice()
    }
}

impl Eq for Kids {
    ghost laws = { Prim.search (comparing, rules) };
}

impl Hash for Kids {
    ghost hash_input = { fed.slice fed.u32 };

    ghost respects_eq = { Prim.search (hashing, rules) };

    fn hash<H: Hasher>(&self, state: &mut H) {
        self.as_slice().hash(state);
    }
}

/// An operation over kids.
#[derive(Debug, PartialEq, Eq, Hash)]
pub struct Node {
    pub op: Op,
    pub kids: Kids,
}

impl Drop for Node {
    fn drop(self) {
        let Node { op: _, kids: _ } = self;
    }
}

impl Node {
    // This operation over these kids.
    pub(crate) fn new(alloc: Global, op: Op, kids: &[NodeId]) -> Result<Node, Memory>
        ensures { IfOk result (λ node. node ≡ node_of op kids.now) }
    {
        let kids = Kids::new(alloc, kids)?;
        Ok(Node { op, kids })
    }

    /// An equal node.
    pub fn copy(&self, alloc: Global) -> Result<Node, Memory>
        ensures { IfOk result (λ copy. copy ≡ self.now) }
    {
        Node::new(alloc, self.op.copy(alloc)?, self.kids.as_slice())
    }

    /// Whether it is a theta that is not tied, which has no kids.
    pub fn is_open(&self) -> bool
        ensures { IsTrue result ↔ IsOpen self.now }
    {
        matches!(self.op, Op::Theta(_)) && self.kids.as_slice().is_empty()
    }
}
