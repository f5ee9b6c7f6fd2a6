//! What instructions do (JVMS 6.5).

use crate::sort::Sort;
use pv_insn::Case;
use pv_list::Listed;
use pv_value::{Descriptor, JType, Kind, Name, Num, ScalarOp, Sym};

/// An instruction that moves values of the operand stack without looking at them.
#[derive(Clone, Copy, Debug, PartialEq, Eq)]
pub enum Move {
    Pop,
    Pop2,
    Dup,
    DupX1,
    DupX2,
    Dup2,
    Dup2X1,
    Dup2X2,
    Swap,
}

/// How two ints compare.
#[derive(Clone, Copy, Debug, PartialEq, Eq)]
pub enum Comparison {
    Eq,
    Ne,
    Lt,
    Ge,
    Gt,
    Le,
}

/// What a conditional branch asks.
#[derive(Clone, Copy, Debug, PartialEq, Eq)]
pub enum Test {
    /// How an int compares with 0.
    Zero(Comparison),
    /// How two ints compare.
    Ints(Comparison),
    /// Whether two references are the same.
    Same,
    /// Whether they aren't.
    Other,
    /// Whether a reference is null.
    Null,
    /// Whether it isn't.
    NonNull,
}

/// What an instruction does. A target is a place in the list of instructions.
#[derive(Drop)]
pub enum Action {
    /// Does nothing.
    Nop,
    /// Pushes a constant.
    Push(Num),
    /// Pushes the reference of a string literal.
    Literal(Name),
    /// Pushes the value of a local.
    Load(Sort, u16),
    /// Stores a value into a local.
    Store(Sort, u16),
    /// Adds a constant to the int in a local.
    Increase(u16, i16),
    /// Moves values of the operand stack.
    Move(Move),
    /// An operation on numbers that always has a value.
    Scalar(ScalarOp),
    /// A division or a remainder, which throws where the divisor is 0.
    Divide(ScalarOp),
    /// A conditional branch.
    Branch(Test, u32),
    /// A branch.
    Jump(u32),
    /// A switch: the default target, and the cases.
    Switch(u32, Listed<Case>),
    /// A return: of a value of a sort, or of none.
    Give(Option<Sort>),
    /// athrow.
    Throw,
    /// Field accesses, with the type of the field.
    GetStatic(JType, Sym),
    PutStatic(JType, Sym),
    GetField(JType, Sym),
    PutField(JType, Sym),
    /// Accesses of an array's elements.
    LoadElement(Kind),
    StoreElement(Kind),
    /// aastore, which throws where the reference doesn't fit the array.
    StoreRef,
    /// arraylength.
    Length,
    /// checkcast to the class of this name, which throws where the object isn't of it.
    Cast(Name),
    /// instanceof, with the name of the class.
    InstanceOf(Name),
    /// A static call, with the type of the callee.
    Call(Descriptor, Sym),
    /// A call on a receiver, under its receiver symbol and with its type: the receiver is the first
    /// parameter.
    CallOn(Descriptor, Sym),
}
