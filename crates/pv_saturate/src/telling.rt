//! What the names of a left side stand for, by a list of parameters.

ghost use Rattle.std.specs.Prelude.{◌≡◌, IfOk, OnOk, pos};
ghost use Rattle.pv_value.specs.declared.heap.Kind.TheVariants as kind;
ghost use Rattle.pv_value.specs.declared.number.Num.TheVariants as num;
ghost use Rattle.pv_pattern.specs.Found.{empty_symbol, or_unit};
ghost use Rattle.pv_instances.specs.Seen.{params_seen};
ghost use Rattle.pv_saturate.specs.Operations.{op_of};
ghost use Rattle.pv_saturate.specs.Told.{AreTold, IsPut, IsTold, constant_of, depth_of, kind_of, own_count, symbol_of};

use crate::operation::{count_of, op_of};
use pv_graph::Op;
use pv_instances::Params;
use pv_match::Param;
use pv_pattern::NameId;
use pv_value::{Kind, Memory, Name, Num, Sym};
use std::alloc::Global;

fn no_symbol(alloc: Global) -> Result<Sym, Memory>
    ensures { IfOk result (λ sym. sym ≡ empty_symbol) }
{
    Ok(Sym {
        class: Name::new(alloc, &[])?,
        name: Name::new(alloc, &[])?,
        desc: Name::new(alloc, &[])?,
    })
}

fn depth_of(own: &[Param]) -> u32
    ensures { result ≡ depth_of own.now }
{
    match own {
        [Param::Depth(depth), ..] => *depth,
        _ => 0,
    }
}

fn symbol_of(alloc: Global, own: &[Param]) -> Result<Sym, Memory>
    ensures { IfOk result (λ sym. sym ≡ symbol_of own.now) }
{
    match own {
        [Param::Symbol(sym), ..] => Ok(sym.clone()?),
        _ => no_symbol(alloc),
    }
}

fn kind_of(own: &[Param]) -> Kind
    ensures { result ≡ kind_of own.now }
{
    match own {
        [Param::Kind(kind), ..] => *kind,
        _ => Kind::Int,
    }
}

fn constant_of(own: &[Param]) -> Num
    ensures { result ≡ constant_of own.now }
{
    match own {
        [Param::Int(n), ..] => Num::Int(*n),
        [Param::Long(n), ..] => Num::Long(*n),
        _ => Num::Int(0),
    }
}

// Puts a symbol at its number; those before it that aren't there yet are empty.
fn put_symbol(alloc: Global, symbols: &mut Vec<Sym>, s: u32, sym: Sym) -> Result<(), Memory>
    ensures { OnOk result (IsPut empty_symbol symbols.old.items symbols.new.items s sym) }
{
    for _k in symbols.len()..s as usize + 1 {
        symbols.push(no_symbol(alloc)?)?;
    }
    symbols[s as usize] = sym;
    Ok(())
}

// Puts a kind at its number; those before it that aren't there yet are that of ints.
fn put_kind(kinds: &mut Vec<Kind>, k: u32, value: Kind) -> Result<(), Memory>
    ensures { OnOk result (IsPut kind.Int kinds.old.items kinds.new.items k value) }
{
    for _k in kinds.len()..k as usize + 1 {
        kinds.push(Kind::Int)?;
    }
    kinds[k as usize] = value;
    Ok(())
}

// Puts a constant at its number; those before it that aren't there yet are the int 0.
fn put_constant(constants: &mut Vec<Num>, j: u32, n: Num) -> Result<(), Memory>
    ensures { OnOk result (IsPut (num.Int (pos 0)) constants.old.items constants.new.items j n) }
{
    for _k in constants.len()..j as usize + 1 {
        constants.push(Num::Int(0))?;
    }
    constants[j as usize] = n;
    Ok(())
}

// The operation that the parameters of a family give.
fn family_op(family: u32, own: &[Param]) -> Result<Op, Memory>
    ensures { IfOk result (λ o. o ≡ or_unit (op_of family own.now)) }
{
    match op_of(family, own)? {
        Some(op) => Ok(op),
        None => Ok(Op::Unit),
    }
}

// Sets what a name stands for, by its own parameters.
fn tell(
    alloc: Global,
    params: &mut Params,
    family: u32,
    name: NameId,
    own: &[Param],
) -> Result<(), Memory>
    ensures { OnOk result (IsTold family own.now name (params_seen params.old) (params_seen params.new)) }
{
    match name {
        NameId::Depth => params.depth = depth_of(own),
        NameId::Symbol(s) => {
            let sym = symbol_of(alloc, own)?;
            put_symbol(alloc, &mut params.symbols, s, sym)?;
        }
        NameId::Kind(k) => put_kind(&mut params.kinds, k, kind_of(own))?,
        NameId::Constant(j) => put_constant(&mut params.constants, j, constant_of(own))?,
        NameId::Operation => params.op = family_op(family, own)?,
    }
    Ok(())
}

// How many parameters a name has, where the operation of the family has this number.
fn own_count(family: u32, name: NameId) -> usize
    ensures { result ≡ own_count family name }
{
    match name {
        NameId::Operation => count_of(family),
        _ => 1,
    }
}

// Where nothing is told yet.
fn untold(alloc: Global) -> Params {
    Params {
        depth: 0,
        symbols: Vec::new(alloc),
        kinds: Vec::new(alloc),
        constants: Vec::new(alloc),
        op: Op::Unit,
    }
}

// What names stand for, by their parameters one after another, where the operation of the family has this number.
pub(crate) fn tell_all(
    alloc: Global,
    family: u32,
    names: &[NameId],
    list: &[Param],
) -> Result<Params, Memory>
    ensures { IfOk result (λ params. AreTold family names.now list.now (params_seen params)) }
{
    let mut params = untold(alloc);
    let mut rest = list;
    for name in names {
        let count = rest.len().min(own_count(family, *name));
        let (own, after) = rest.split_at(count);
        tell(alloc, &mut params, family, *name, own)?;
        rest = after;
    }
    Ok(params)
}
