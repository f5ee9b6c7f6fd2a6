//! Which step opened the block that a step ends.

ghost use Rattle.std.specs.Prelude.{◌≡◌, IfOk, OnOk, reverse};
ghost use Rattle.pv_trim.specs.Stacks.{effect_of, ended_by, stack_after};
ghost use Rattle.pv_trim.specs.Marks.{AreEnds};

use pv_steps::Step;
use pv_value::Memory;
use std::alloc::Global;

// What a step does to the open blocks: it opens one, ends the innermost, or does neither.
#[derive(Clone, Copy)]
pub(crate) enum Effect {
    Opens,
    Ends,
    Stays,
}

fn effect_of(step: &Step) -> Effect
    ensures { result ≡ effect_of step.now }
{
    match step {
        Step::Open(_, _) | Step::Assume(_, _) => Effect::Opens,
        Step::Close(_, _) | Step::Finish(_, _, _, _, _, _) => Effect::Ends,
        _ => Effect::Stays,
    }
}

// The number of the step that opened the block which the step with this number ends, if it ends one. The stack has
// the numbers of the steps that opened the open blocks, the innermost last: before the step at first, and after it
// at the end.
fn follow(stack: &mut Vec<usize>, number: usize, step: &Step) -> Result<Option<usize>, Memory>
    ensures ended { IfOk result (λ n. n ≡ ended_by (effect_of step.now) (reverse stack.old.items)) }
    ensures blocks { OnOk result (reverse stack.new.items ≡ stack_after (effect_of step.now) number (reverse stack.old.items)) }
{
    match effect_of(step) {
        Effect::Opens => {
            stack.push(number)?;
            Ok(None)
        }
        Effect::Ends => Ok(stack.pop()),
        Effect::Stays => Ok(None),
    }
}

// Of each step the number of the step that opened the block which it ends, if it ends one. Steps are counted from 1.
// The time is linear.
pub(crate) fn ends_of(alloc: Global, steps: &[Step]) -> Result<Vec<Option<usize>>, Memory>
    ensures { IfOk result (λ ends. AreEnds steps.now ends.items) }
{
    let mut ends = Vec::new(alloc);
    let mut stack = Vec::new(alloc);
    for k in 0..steps.len() {
        let end = follow(&mut stack, k + 1, &steps[k])?;
        ends.push(end)?;
    }
    Ok(ends)
}
