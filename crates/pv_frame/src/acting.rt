//! What instructions do.

ghost use Rattle.std.specs.Prelude.{◌≡◌, ◌⊎◌, ◌↔◌, ◌≤◌, ◌≤ℤ◌, ◌+ℤ◌, ◌^◌, pos, length, IsTrue, IsSome, Some, IfOk, MatchResult};
ghost use Rattle.std.specs.Option.{option_map};
ghost use Rattle.std.specs.List.{AllByRecursion};
ghost use Rattle.pv_value.specs.Descriptors.{IsFieldType, IsMethodType};
ghost use Rattle.pv_frame.specs.Actions.{local_rows, branch_rows, field_rows, form_rows, row_of, MayName, cases_from, loads_narrow, loads_wide, names_class, use_of, IsUse, IsFloatless, IsFloatlessMethod};
ghost use Rattle.pv_frame.specs.Causes.{refused_by, AccessesFields, NamesConstant};
ghost use Rattle.pv_frame.specs.Acting.{HasItsText, IsActionWithOr, IsAccessOr, IsClassTestOr, IsActionOr, IsFirstOf, AreActing, OnCause};
ghost use Rattle.pv_pool.specs.Pools.{Refers};
ghost use Rattle.pv_insn.proofs.Cited.{IsFormed};
ghost use Rattle.pv_frame.specs.declared.used.Use.TheVariants as used;

use crate::action::{Action, Comparison, Test};
use crate::cause::{CauseKind, Refused};
use crate::plain::plain;
use crate::sort::Sort;
use crate::stop::Stop;
use crate::used::Use;
use pv_insn::{Case, Insn, Placed};
use pv_list::Listed;
use pv_pool::{Constant, Member, Pool};
use pv_value::{
    Descriptor, Form, JType, Memory, Name, Num, Sym, read_descriptor, read_field_type, receiver_sym,
};
use std::alloc::{AllocError, Global};

/// The tags of a Fieldref, a Methodref and an InterfaceMethodref (JVMS table 4.4-A).
const FIELD: u8 = 9;

const METHOD: u8 = 10;

const INTERFACE_METHOD: u8 = 11;

/// The opcode of invokestatic.
const INVOKESTATIC: u8 = 184;

/// What a load or a store does to the local of this number.
fn local(opcode: u8, number: u16) -> Option<Action>
    ensures { result ≡ option_map (λ make. make number) (row_of local_rows opcode) }
{
    let action = match opcode {
        21 => Action::Load(Sort::Int, number),
        22 => Action::Load(Sort::Long, number),
        25 => Action::Load(Sort::Ref, number),
        54 => Action::Store(Sort::Int, number),
        55 => Action::Store(Sort::Long, number),
        58 => Action::Store(Sort::Ref, number),
        _ => return None,
    };
    Some(action)
}

/// What a branch to this target does.
fn branch(opcode: u8, target: u32) -> Option<Action>
    ensures { result ≡ option_map (λ make. make target) (row_of branch_rows opcode) }
{
    let test = match opcode {
        153 => Test::Zero(Comparison::Eq),
        154 => Test::Zero(Comparison::Ne),
        155 => Test::Zero(Comparison::Lt),
        156 => Test::Zero(Comparison::Ge),
        157 => Test::Zero(Comparison::Gt),
        158 => Test::Zero(Comparison::Le),
        159 => Test::Ints(Comparison::Eq),
        160 => Test::Ints(Comparison::Ne),
        161 => Test::Ints(Comparison::Lt),
        162 => Test::Ints(Comparison::Ge),
        163 => Test::Ints(Comparison::Gt),
        164 => Test::Ints(Comparison::Le),
        165 => Test::Same,
        166 => Test::Other,
        198 => Test::Null,
        199 => Test::NonNull,
        167 | 200 => return Some(Action::Jump(target)),
        _ => return None,
    };
    Some(Action::Branch(test, target))
}

/// A field access, with the type of the field.
fn field_access(opcode: u8, field: JType, sym: Sym) -> Option<Action>
    ensures { result ≡ option_map (λ access. access field sym) (row_of field_rows opcode) }
{
    let action = match opcode {
        178 => Action::GetStatic(field, sym),
        179 => Action::PutStatic(field, sym),
        180 => Action::GetField(field, sym),
        181 => Action::PutField(field, sym),
        _ => return None,
    };
    Some(action)
}

/// Why an instruction with this opcode isn't accepted, whatever it names.
fn refused_by(opcode: u8) -> Option<CauseKind>
    ensures { result ≡ refused_by opcode }
{
    let kind = match opcode {
        11..=15 | 23..=24 | 34..=41 | 48..=49 | 56..=57 | 67..=74 | 81..=82 => CauseKind::Float,
        98..=99 | 102..=103 | 106..=107 | 110..=111 | 114..=115 | 118..=119 => CauseKind::Float,
        134..=135 | 137..=144 | 149..=152 | 174..=175 => CauseKind::Float,
        168..=169 | 201 => CauseKind::Subroutine,
        186 => CauseKind::Dynamic,
        187..=189 | 197 => CauseKind::Allocation,
        194..=195 => CauseKind::Monitor,
        _ => return None,
    };
    Some(kind)
}

/// Whether it is ldc or ldc_w.
fn loads_narrow(opcode: u8) -> bool
    ensures { result ≡ loads_narrow opcode }
{
    matches!(opcode, 18 | 19)
}

/// Whether it is ldc2_w.
fn loads_wide(opcode: u8) -> bool
    ensures { result ≡ loads_wide opcode }
{
    opcode == 20
}

/// Whether it is checkcast or instanceof.
fn names_class(opcode: u8) -> bool
    ensures { result ≡ names_class opcode }
{
    matches!(opcode, 192 | 193)
}

/// What an instruction names in the constant pool.
pub(crate) fn use_of(alloc: Global, pool: &Pool, insn: &Insn) -> Result<Use, Memory>
    ensures { IfOk result (λ u. u ≡ use_of pool.now insn.now) }
{
    let Insn::Pool(opcode, i) = insn else {
        return Ok(Use::None);
    };
    if loads_narrow(*opcode) || loads_wide(*opcode) {
        return Ok(match pool.constant(*i) {
            Some(constant) => Use::Constant(constant),
            None => Use::None,
        });
    }
    if names_class(*opcode) {
        return Ok(match pool.class_name(*i) {
            Some(name) => Use::Class(copied(alloc, name)?),
            None => Use::None,
        });
    }
    Ok(match pool.member(alloc, *i)? {
        Some(member) => Use::Member(member),
        None => Use::None,
    })
}

/// Whether it is neither float nor double.
pub(crate) fn is_floatless(jtype: JType) -> bool
    ensures { IsTrue result ↔ IsFloatless jtype }
{
    !matches!(jtype, JType::F | JType::D)
}

/// Whether neither is among the parameters or the result.
pub(crate) fn is_floatless_method(desc: &Descriptor) -> bool
    ensures { IsTrue result ↔ IsFloatlessMethod desc.now }
{
    for param in desc.params.as_slice() {
        if !is_floatless(*param) {
            return false;
        }
    }
    match desc.result {
        Some(result) => is_floatless(result),
        None => true,
    }
}

/// Whether the instruction may load the constant (JVMS 6.5.ldc, 6.5.ldc2_w).
fn names_constant(opcode: u8, constant: Constant) -> bool
    ensures { IsTrue result ↔ NamesConstant opcode constant }
{
    match constant {
        Constant::Int(_) | Constant::Float | Constant::Text(_) => loads_narrow(opcode),
        Constant::Long(_) | Constant::Double => loads_wide(opcode),
        Constant::Other(tag) => loads_narrow(opcode) || (loads_wide(opcode) && tag == 17),
    }
}

/// An equal name.
fn copied(alloc: Global, name: &Name) -> Result<Name, Memory>
    ensures { IfOk result (λ copy. copy ≡ name.now) }
{
    Name::new(alloc, name.bytes())
}

/// An equal symbol.
fn copied_sym(alloc: Global, sym: &Sym) -> Result<Sym, Memory>
    ensures { IfOk result (λ copy. copy ≡ sym.now) }
{
    Ok(Sym {
        class: copied(alloc, &sym.class)?,
        name: copied(alloc, &sym.name)?,
        desc: copied(alloc, &sym.desc)?,
    })
}

/// The cases of a tableswitch from its lowest number on.
fn cases_from(alloc: Global, low: i32, targets: &[u32]) -> Result<Listed<Case>, AllocError>
    requires { (low +ℤ pos (length targets.now)) ≤ℤ pos (2 ^ 31) }
    ensures { IfOk result (λ cases. cases ≡ cases_from low targets.now) }
{
    let mut cases = Vec::new(alloc);
    for (i, target) in targets.iter().enumerate() {
        let key = (i64::from(low) + i as i64) as i32;
        cases.push(Case {
            key,
            target: *target,
        })?;
    }
    Ok(cases.into())
}

/// What ldc, ldc_w or ldc2_w does with a constant, or its cause.
fn load_constant(alloc: Global, pool: &Pool, opcode: u8, constant: Constant) -> Result<Action, Stop>
    requires { HasItsText pool.now (used.Constant constant) }
    ensures { IsActionWithOr pool.now opcode (used.Constant constant) result }
{
    if !names_constant(opcode, constant) {
        return Err(Stop::Cause(CauseKind::Code));
    }
    match constant {
        Constant::Int(n) => Ok(Action::Push(Num::Int(n))),
        Constant::Long(n) => Ok(Action::Push(Num::Long(n))),
        Constant::Text(i) => match pool.text(i) {
            Some(text) => Ok(Action::Literal(copied(alloc, text)?)),
            None => unreachable!(),
        },
        Constant::Float | Constant::Double => Err(Stop::Cause(CauseKind::Float)),
        Constant::Other(_) => Err(Stop::Cause(CauseKind::Constant)),
    }
}

/// Whether it is getstatic, putstatic, getfield or putfield with a Fieldref, by the opcode and the tag.
fn accesses_field(opcode: u8, kind: u8) -> bool
    ensures { IsTrue result ↔ (AccessesFields opcode × (kind ≡ 9)) }
{
    matches!(opcode, 178..=181) && kind == FIELD
}

/// What an access of a field of this type does, or its cause.
fn access_field(alloc: Global, opcode: u8, member: &Member, field: JType) -> Result<Action, Stop>
    requires { IsFieldType member.now.sym.desc field }
    ensures { IsAccessOr opcode member.now result }
{
    if !accesses_field(opcode, member.kind) {
        return Err(Stop::Cause(CauseKind::Code));
    }
    if !is_floatless(field) {
        return Err(Stop::Cause(CauseKind::Float));
    }
    let sym = copied_sym(alloc, &member.sym)?;
    Ok(field_access(opcode, field, sym).unwrap())
}

/// Whether it is invokestatic with a Methodref or InterfaceMethodref, by the opcode and the tag.
fn calls_static(opcode: u8, kind: u8) -> bool
    ensures { IsTrue result ↔ ((opcode ≡ 184) × ((kind ≡ 10) ⊎ (kind ≡ 11))) }
{
    opcode == INVOKESTATIC && (kind == METHOD || kind == INTERFACE_METHOD)
}

/// The form of a call on a receiver.
fn form_of_call(opcode: u8) -> Option<Form>
    ensures { result ≡ row_of form_rows opcode }
{
    match opcode {
        182 => Some(Form::Virtual),
        183 => Some(Form::Special),
        185 => Some(Form::Interface),
        _ => None,
    }
}

/// Whether a call of this form may name a member with this tag.
fn may_name(form: Form, kind: u8) -> bool
    ensures { IsTrue result ↔ MayName form kind }
{
    match form {
        Form::Virtual => kind == METHOD,
        Form::Special => kind == METHOD || kind == INTERFACE_METHOD,
        Form::Interface => kind == INTERFACE_METHOD,
    }
}

/// What a call on a receiver of a method of this type does, or its cause.
fn call_on(
    alloc: Global,
    opcode: u8,
    form: Form,
    member: &Member,
    desc: &Descriptor,
) -> Result<Action, Stop>
    requires form { row_of form_rows opcode ≡ Some form }
    requires typed { IsMethodType member.now.sym.desc desc.now }
    ensures { IsAccessOr opcode member.now result }
{
    if !may_name(form, member.kind) {
        return Err(Stop::Cause(CauseKind::Code));
    }
    if !is_floatless_method(desc) {
        return Err(Stop::Cause(CauseKind::Float));
    }
    let with_receiver = desc.with_receiver(alloc)?;
    let sym = receiver_sym(alloc, form, &member.sym)?;
    Ok(Action::CallOn(with_receiver, sym))
}

/// What a call of a method of this type does, or its cause.
fn call(alloc: Global, opcode: u8, member: &Member, desc: Descriptor) -> Result<Action, Stop>
    requires { IsMethodType member.now.sym.desc desc }
    ensures { IsAccessOr opcode member.now result }
{
    if let Some(form) = form_of_call(opcode) {
        return call_on(alloc, opcode, form, member, &desc);
    }
    if !calls_static(opcode, member.kind) {
        return Err(Stop::Cause(CauseKind::Code));
    }
    if !is_floatless_method(&desc) {
        return Err(Stop::Cause(CauseKind::Float));
    }
    Ok(Action::Call(desc, copied_sym(alloc, &member.sym)?))
}

/// What an instruction with a member does, or its cause.
fn access(alloc: Global, opcode: u8, member: &Member) -> Result<Action, Stop>
    ensures { IsAccessOr opcode member.now result }
{
    let text = member.sym.desc.bytes();
    if let Some(field) = read_field_type(text) {
        return access_field(alloc, opcode, member, field);
    }
    match read_descriptor(alloc, text)? {
        Some(desc) => call(alloc, opcode, member, desc),
        None => Err(Stop::Cause(CauseKind::Code)),
    }
}

/// What a cast or a type test does with the name of its class, or its cause.
fn ask_class(alloc: Global, opcode: u8, class: &Name) -> Result<Action, Stop>
    ensures { IsClassTestOr opcode class.now result }
{
    let class = copied(alloc, class)?;
    match opcode {
        192 => Ok(Action::Cast(class)),
        193 => Ok(Action::InstanceOf(class)),
        _ => Err(Stop::Cause(CauseKind::Code)),
    }
}

/// What an accepted instruction with an index does with what it names, or its cause.
fn acts_with(alloc: Global, pool: &Pool, opcode: u8, used: &Use) -> Result<Action, Stop>
    requires { HasItsText pool.now used.now }
    ensures { IsActionWithOr pool.now opcode used.now result }
{
    match used {
        Use::Constant(constant) => load_constant(alloc, pool, opcode, *constant),
        Use::Member(member) => access(alloc, opcode, member),
        Use::Class(name) => ask_class(alloc, opcode, name),
        Use::None => Err(Stop::Cause(CauseKind::Code)),
    }
}

/// What an instruction that names this does, or its cause.
pub(crate) fn action_of(alloc: Global, pool: &Pool, insn: &Insn, used: &Use) -> Result<Action, Stop>
    requires formed { IsFormed insn.now }
    requires text { HasItsText pool.now used.now }
    requires named { IsUse pool.now insn.now used.now }
    ensures { IsActionOr pool.now insn.now used.now result }
{
    let action = match insn {
        Insn::Plain(opcode) => plain(*opcode).unwrap(),
        Insn::Push(_, number) => Action::Push(Num::Int(i32::from(*number))),
        Insn::Local(opcode, number) => local(*opcode, *number).unwrap(),
        Insn::Iinc(number, amount) => Action::Increase(*number, *amount),
        Insn::Pool(opcode, _) => return acts_with(alloc, pool, *opcode, used),
        Insn::Branch(opcode, target) => branch(*opcode, *target).unwrap(),
        Insn::Table(default, low, targets) => {
            Action::Switch(*default, cases_from(alloc, *low, targets.as_slice())?)
        }
        Insn::Lookup(default, cases) => {
            Action::Switch(*default, cases.as_slice().to_vec(alloc)?.into())
        }
        Insn::Refused(opcode) => return Err(Stop::Cause(refused_by(*opcode).unwrap())),
    };
    Ok(action)
}

/// What each instruction of a code names and does, or the first with a cause.
pub(crate) fn acted(
    alloc: Global,
    pool: &Pool,
    code: &[Placed],
) -> Result<(Vec<Use>, Vec<Action>), Refused>
    requires formed { AllByRecursion (λ p. IsFormed p.insn) code.now }
    requires references { AllByRecursion (Refers pool.now) pool.now }
    ensures { MatchResult result
        (λ x. AreActing pool.now code.now x.0.items x.1.items)
        (λ e. OnCause e (IsFirstOf pool.now code.now)) }
{
    let mut uses = Vec::new(alloc);
    let mut actions = Vec::new(alloc);
    for placed in code {
        let used = use_of(alloc, pool, &placed.insn)?;
        match action_of(alloc, pool, &placed.insn, &used) {
            Ok(action) => actions.push(action)?,
            Err(stop) => return Err(stop.at(placed.at)),
        }
        uses.push(used)?;
    }
    Ok((uses, actions))
}
