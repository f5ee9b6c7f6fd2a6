//! What the names of an axiom stand for.

ghost use Rattle.std.specs.Prelude.{◌≡◌, IfOk, IfSome, None, map};
ghost use Rattle.pv_pattern.specs.Found.{HasName, empty_symbol};
ghost use Rattle.pv_pattern.specs.Instances.{atom_of, folded, head_op, type_by};
ghost use Rattle.pv_pattern.specs.Seen.{atom_seen, by_seen, head_seen};
ghost use Rattle.pv_heights.specs.Filled.{named};
ghost use Rattle.pv_instances.specs.Seen.{params_seen};

use pv_denote::{Operands, takes};
use pv_graph::Op;
use pv_pattern::{Atom, By, Head, field_type, fixed_op, folded, kind_type};
use pv_value::{JType, Kind, Memory, Name, Num, ScalarOp, Sym};
use std::alloc::Global;

/// What the names of an axiom stand for: its depth, its symbols, kinds and constants by number, and the
/// operation of its family. A symbol with a number that isn't there has empty parts; such a kind is that of
/// ints, and such a constant the int 0.
#[derive(Drop)]
pub struct Params {
    pub depth: u32,
    pub symbols: Vec<Sym>,
    pub kinds: Vec<Kind>,
    pub constants: Vec<Num>,
    pub op: Op,
}

impl Params {
    // A symbol; `None` stands for the one with empty parts.
    fn symbol(&self, s: u32) -> Option<&Sym>
        ensures some { IfSome result (λ sym. (params_seen self.now).symbols s ≡ sym.now) }
        ensures none { result ≡ None → (params_seen self.now).symbols s ≡ empty_symbol }
    {
        self.symbols.get(s as usize)
    }

    // A copy of a symbol.
    fn copy_symbol(&self, alloc: Global, s: u32) -> Result<Sym, Memory>
        ensures { IfOk result (λ sym. sym ≡ (params_seen self.now).symbols s) }
    {
        match self.symbol(s) {
            Some(sym) => Ok(Sym {
                class: Name::new(alloc, sym.class.bytes())?,
                name: Name::new(alloc, sym.name.bytes())?,
                desc: Name::new(alloc, sym.desc.bytes())?,
            }),
            None => Ok(Sym {
                class: Name::new(alloc, &[])?,
                name: Name::new(alloc, &[])?,
                desc: Name::new(alloc, &[])?,
            }),
        }
    }

    // The descriptor of a symbol.
    fn desc(&self, s: u32) -> &[u8]
        ensures { result.now ≡ ((params_seen self.now).symbols s).desc }
    {
        match self.symbol(s) {
            Some(sym) => sym.desc.bytes(),
            None => &[],
        }
    }

    fn kind(&self, k: u32) -> Kind
        ensures { result ≡ (params_seen self.now).kinds k }
    {
        match self.kinds.get(k as usize) {
            Some(kind) => *kind,
            None => Kind::Int,
        }
    }

    /// What a variable for constants stands for.
    pub fn constant(&self, j: u32) -> Num
        ensures { result ≡ (params_seen self.now).constants j }
    {
        match self.constants.get(j as usize) {
            Some(n) => *n,
            None => Num::Int(0),
        }
    }

    fn atom(&self, atom: Atom) -> Num
        ensures { result ≡ atom_of (named (params_seen self.now)) (atom_seen atom) }
    {
        match atom {
            Atom::Number(n) => n,
            Atom::Named(j) => self.constant(j),
        }
    }

    // The constant that an operation gives over these.
    pub(crate) fn folded(&self, op: ScalarOp, atoms: &[Atom]) -> Option<Num>
        ensures { result ≡ folded (named (params_seen self.now)) op (map atom_seen atoms.now) }
    {
        match (takes(op), atoms) {
            (Operands::One(_), [a]) => folded(op, &[self.atom(*a)]),
            (Operands::Two(_, _), [a, b]) => folded(op, &[self.atom(*a), self.atom(*b)]),
            _ => None,
        }
    }

    // The type by which a value is narrowed.
    pub(crate) fn type_by(&self, by: By) -> Option<JType>
        ensures { result ≡ type_by (named (params_seen self.now)) (by_seen by) }
    {
        match by {
            By::Symbol(s) => field_type(self.desc(s)),
            By::Kind(k) => Some(kind_type(self.kind(k))),
        }
    }

    // The operation of a head that names its parameter.
    fn named_op(&self, alloc: Global, head: Head) -> Result<Op, Memory>
        requires { HasName (head_seen head) }
        ensures { IfOk result (λ o. o ≡ head_op (named (params_seen self.now)) (head_seen head)) }
    {
        Ok(match head {
            Head::Theta => Op::Theta(self.depth),
            Head::Eval => Op::Eval(self.depth),
            Head::Pass => Op::Pass(self.depth),
            Head::Shift => Op::Shift(self.depth),
            Head::GetStatic(s) => Op::GetStatic(self.copy_symbol(alloc, s)?),
            Head::PutStatic(s) => Op::PutStatic(self.copy_symbol(alloc, s)?),
            Head::GetField(s) => Op::GetField(self.copy_symbol(alloc, s)?),
            Head::PutField(s) => Op::PutField(self.copy_symbol(alloc, s)?),
            Head::Load(k) => Op::Load(self.kind(k)),
            Head::Store(k) => Op::Store(self.kind(k)),
            _ => unreachable!(),
        })
    }

    // The operation of a head.
    pub(crate) fn head_op(&self, alloc: Global, head: Head) -> Result<Op, Memory>
        ensures { IfOk result (λ o. o ≡ head_op (named (params_seen self.now)) (head_seen head)) }
    {
        match fixed_op(head) {
            Some(op) => Ok(op),
            None => self.named_op(alloc, head),
        }
    }
}
