//! Sides of axioms whose names are filled in.

use pv_graph::Op;

/// What a side leaves open: a kid of its family by its place, or a variable by its number.
#[derive(Clone, Copy)]
pub enum Hole {
    Kid(u32),
    Variable(u32),
}

/// A side of an axiom with its names filled in: a hole, or an operation over parts.
#[derive(Drop)]
pub enum Filled {
    At(Hole),
    Of(Op, Vec<Filled>),
}
