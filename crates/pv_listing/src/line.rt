//! The lines of a listing as values.

use pv_list::Listed;
use pv_value::{Name, Sym};

/// The head of a method.
#[derive(Debug, Drop)]
pub struct Title {
    pub is_static: bool,
    pub name: Name,
    pub desc: Name,
    pub stack: u16,
    pub locals: u16,
}

/// What is written after a mnemonic.
#[derive(Debug, Drop)]
pub enum Operands {
    Nothing,
    /// The number that bipush and sipush push.
    Number(i16),
    /// The number of a local.
    Local(u8),
    /// The number of a local, and what iinc adds to it.
    Increment(u8, i8),
    /// An int, the constant of ldc and ldc_w.
    Int(i32),
    /// A long, the constant of ldc2_w.
    Long(i64),
    /// The label to which a branch leads.
    Label(Name),
    /// A tableswitch: its lowest number, the label of all other numbers, and the labels from the lowest number on.
    Table(i32, Name, Listed<Name>),
    /// A lookupswitch: the label of all other numbers, and its keys, each with a label.
    Lookup(Name, Listed<(i32, Name)>),
    /// A field or a method of a class.
    Member(Sym),
}

/// A line of a listing.
#[derive(Debug, Drop)]
pub enum Line {
    Class(Name),
    Method(Title),
    Label(Name),
    /// An opcode and its operands.
    Instruction(u8, Operands),
    End,
}

/// What the first word of a line says.
#[derive(Debug, Drop)]
pub enum First {
    Class,
    Method,
    Label(Name),
    /// The opcode of a mnemonic.
    Mnemonic(u8),
    End,
}
