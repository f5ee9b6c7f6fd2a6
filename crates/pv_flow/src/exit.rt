//! The exits of instructions.

ghost use Rattle.std.specs.Prelude.{◌≡◌, ◌<◌, ◌+◌, ◌^◌, [], ◌∷◌, ◌++◌, length, map, slice_index, if◌then◌else◌, IfOk};
ghost use Rattle.std.specs.List.{All, AllByRecursion};
ghost use Rattle.pv_flow.specs.Exits.{Goes, branches_on_no, branches_on_no_of, departures};
ghost use Rattle.pv_flow.specs.Finding.{GoesBelow, exit_by};

use crate::block::Exit;
use pv_frame::{Action, Comparison, Test};
use pv_insn::Case;
use std::alloc::{AllocError, Global};

/// Whether a branch by this comparison is taken on no: `ne`, `ge` and `le` ask as `eq`, `lt` and `gt` do.
fn branches_on_no_of(comparison: Comparison) -> bool
    ensures { result ≡ branches_on_no_of comparison }
{
    match comparison {
        Comparison::Ne | Comparison::Ge | Comparison::Le => true,
        Comparison::Eq | Comparison::Lt | Comparison::Gt => false,
    }
}

/// Whether a branch is taken where the answer to what it asks is no.
fn branches_on_no(test: Test) -> bool
    ensures { result ≡ branches_on_no test }
{
    match test {
        Test::Zero(comparison) | Test::Ints(comparison) => branches_on_no_of(comparison),
        Test::Other | Test::NonNull => true,
        Test::Same | Test::Null => false,
    }
}

/// The exit to the block that begins at a place.
fn to(numbers: &[u32], place: u32) -> Exit
    requires { place < length numbers.now }
    ensures { result ≡ exit_by numbers.now (Goes place) }
{
    Exit::To(numbers[place as usize])
}

/// The exits of a branch: that of yes, and then that of no.
fn branch_exits(test: Test, target: Exit, next: Exit) -> [Exit; 2]
    ensures { result ≡ (if branches_on_no test then next ∷ target ∷ [] else target ∷ next ∷ []) }
{
    if branches_on_no(test) {
        [next, target]
    } else {
        [target, next]
    }
}

/// The exits of a switch: one for each case, and then the default.
fn switch_exits(
    alloc: Global,
    numbers: &[u32],
    default: u32,
    cases: &[Case],
) -> Result<Vec<Exit>, AllocError>
    requires default { default < length numbers.now }
    requires cases { All (λ c. c.target < length numbers.now) cases.now }
    ensures { IfOk result (λ exits. exits.items
        ≡ map (exit_by numbers.now) (map (λ c. Goes c.target) cases.now ++ Goes default ∷ [])) }
{
    let mut exits = Vec::new(alloc);
    for case in cases {
        exits.push(to(numbers, case.target))?;
    }
    exits.push(to(numbers, default))?;
    Ok(exits)
}

/// The exits of the instruction at a place, by the numbers of the blocks that begin at places: that of
/// yes of each of its tests in turn, and last that of no.
pub(crate) fn exits(
    alloc: Global,
    numbers: &[u32],
    place: u32,
    action: &Action,
) -> Result<Vec<Exit>, AllocError>
    requires few { place + 1 < 2 ^ 32 }
    requires within { AllByRecursion (GoesBelow (length numbers.now)) (departures place action.now) }
    ensures { IfOk result (λ exits. exits.items
        ≡ map (exit_by numbers.now) (departures place action.now)) }
{
    match action {
        Action::Branch(test, target) => {
            branch_exits(*test, to(numbers, *target), to(numbers, place + 1)).to_vec(alloc)
        }
        Action::Jump(target) => [to(numbers, *target)].to_vec(alloc),
        Action::Switch(default, cases) => switch_exits(alloc, numbers, *default, cases.as_slice()),
        Action::Give(_) => [Exit::Return].to_vec(alloc),
        Action::Throw => [Exit::Throw, Exit::Throw].to_vec(alloc),
        Action::Divide(_) | Action::GetField(_, _) | Action::PutField(_, _) | Action::Length => {
            [Exit::Throw, to(numbers, place + 1)].to_vec(alloc)
        }
        Action::LoadElement(_) | Action::StoreElement(_) => {
            let next = to(numbers, place + 1);
            [Exit::Throw, Exit::Throw, next, Exit::Throw].to_vec(alloc)
        }
        Action::StoreRef => {
            let next = to(numbers, place + 1);
            [
                Exit::Throw,
                Exit::Throw,
                Exit::Throw,
                next,
                next,
                Exit::Throw,
            ]
            .to_vec(alloc)
        }
        Action::Cast(_) => {
            let next = to(numbers, place + 1);
            [next, next, Exit::Throw].to_vec(alloc)
        }
        Action::InstanceOf(_) => {
            let next = to(numbers, place + 1);
            [next, next, next].to_vec(alloc)
        }
        Action::Call(_, _) => [to(numbers, place + 1), Exit::Throw].to_vec(alloc),
        Action::CallOn(_, _) => { [Exit::Throw, to(numbers, place + 1), Exit::Throw].to_vec(alloc) }
        Action::Nop
        | Action::Push(_)
        | Action::Literal(_)
        | Action::Load(_, _)
        | Action::Store(_, _)
        | Action::Increase(_, _)
        | Action::Move(_)
        | Action::Scalar(_)
        | Action::GetStatic(_, _)
        | Action::PutStatic(_, _) => [to(numbers, place + 1)].to_vec(alloc),
    }
}
