//! Where blocks begin.

ghost use Rattle.std.specs.Prelude.{◌≡◌, ◌<◌, ◌^◌, length, map, slice_set, true, IfOk};
ghost use Rattle.pv_flow.specs.Exits.{ends_block, targets};
ghost use Rattle.pv_flow.specs.Finding.{marked, AreBegins};

use pv_frame::{Action, Typed};
use pv_insn::Case;
use std::alloc::{AllocError, Global};

/// Whether an instruction branches, ends the method, can throw or has a value that tests choose.
fn ends_block(action: &Action) -> bool
    ensures { result ≡ ends_block action.now }
{
    match action {
        Action::Branch(_, _)
        | Action::Jump(_)
        | Action::Switch(_, _)
        | Action::Give(_)
        | Action::Throw
        | Action::Divide(_)
        | Action::GetField(_, _)
        | Action::PutField(_, _)
        | Action::Length
        | Action::LoadElement(_)
        | Action::StoreElement(_)
        | Action::StoreRef
        | Action::Cast(_)
        | Action::InstanceOf(_)
        | Action::Call(_, _)
        | Action::CallOn(_, _) => true,
        Action::Nop
        | Action::Push(_)
        | Action::Literal(_)
        | Action::Load(_, _)
        | Action::Store(_, _)
        | Action::Increase(_, _)
        | Action::Move(_)
        | Action::Scalar(_)
        | Action::GetStatic(_, _)
        | Action::PutStatic(_, _) => false,
    }
}

/// Marks a place where a block begins, if it is one of those that have a mark.
fn mark(begins: &mut [bool], place: u32)
    ensures { begins.new ≡ slice_set begins.old place true }
{
    let index = place as usize;
    if index < begins.len() {
        begins[index] = true;
    }
}

/// Marks the targets of the cases of a switch.
fn mark_cases(begins: &mut [bool], cases: &[Case])
    ensures { begins.new ≡ marked (map (λ c. c.target) cases.now) begins.old }
{
    for case in cases {
        mark(begins, case.target);
    }
}

/// Marks the targets of an instruction.
fn mark_targets(begins: &mut [bool], action: &Action)
    ensures { begins.new ≡ marked (targets action.now) begins.old }
{
    match action {
        Action::Branch(_, target) | Action::Jump(target) => mark(begins, *target),
        Action::Switch(default, cases) => {
            mark(begins, *default);
            mark_cases(begins, cases.as_slice());
        }
        _ => {}
    }
}

/// For each place, and for the end of the list, whether a block begins there, reached or not.
pub(crate) fn begins(alloc: Global, typed: &Typed) -> Result<Vec<bool>, AllocError>
    requires { length typed.now.program.actions < 2 ^ 32 }
    ensures { IfOk result (λ begins. AreBegins typed.now.program begins.items) }
{
    let actions = typed.program.actions.as_slice();
    let mut begins = vec![in alloc; false; actions.len() + 1]?;
    begins[0] = true;
    for (place, action) in actions.iter().enumerate() {
        mark_targets(&mut begins, action);
        if ends_block(action) {
            begins[place + 1] = true;
        }
    }
    Ok(begins)
}
