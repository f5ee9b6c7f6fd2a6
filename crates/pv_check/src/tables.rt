//! What is kept of the steps, in order.

ghost use Rattle.std.specs.Prelude.{◌≡◌, ◌∷◌, ◌++◌, ◌<◌, [], false, length, slice_index, slice_set, vec_len, IfOk, OnOk};
ghost use Rattle.pv_check.specs.Kept.{AreKept, effect_of};

use pv_steps::Step;
use pv_value::Memory;
use std::alloc::Global;

// Of each number of steps the innermost open block after them, and of each block whether it is open.
#[derive(Drop)]
pub(crate) struct Tables {
    pub(crate) innermost: Vec<usize>,
    pub(crate) opened: Vec<bool>,
}

// What a step does to the open blocks: it opens one, ends the innermost, or does neither.
#[derive(Clone, Copy)]
pub(crate) enum Effect {
    Opens,
    Ends,
    Stays,
}

fn effect_of(step: &Step) -> Effect
    ensures { result ≡ effect_of step.now }
{
    match step {
        Step::Open(_, _) | Step::Assume(_, _) => Effect::Opens,
        Step::Close(_, _) | Step::Finish(_, _, _, _, _, _) => Effect::Ends,
        _ => Effect::Stays,
    }
}

fn number_at(numbers: &Vec<usize>, n: usize) -> usize
    requires { n < vec_len numbers.now }
    ensures { result ≡ slice_index numbers.now.items n }
{
    numbers[n]
}

fn clear(marks: &mut Vec<bool>, n: usize)
    requires { n < vec_len marks.old }
    ensures { marks.new.items ≡ slice_set marks.old.items n false }
{
    marks[n] = false;
}

impl Tables {
    // Before the first step.
    pub(crate) fn new(alloc: Global) -> Result<Tables, Memory>
        ensures { IfOk result (λ tables. AreKept [] tables.innermost.items tables.opened.items) }
    {
        let mut tables = Tables {
            innermost: Vec::new(alloc),
            opened: Vec::new(alloc),
        };
        tables.push(0, true)?;
        Ok(tables)
    }

    fn push(&mut self, around: usize, is_open: bool) -> Result<(), Memory>
        ensures innermost { OnOk result (self.new.innermost.items ≡ self.old.innermost.items ++ around ∷ []) }
        ensures opened { OnOk result (self.new.opened.items ≡ self.old.opened.items ++ is_open ∷ []) }
    {
        self.innermost.push(around)?;
        self.opened.push(is_open)?;
        Ok(())
    }

    // Takes a step, after those before it.
    pub(crate) fn take(&mut self, before: &[Step], step: &Step) -> Result<(), Memory>
        requires { AreKept before.now self.old.innermost.items self.old.opened.items }
        ensures { OnOk result (AreKept (before.now ++ step.now ∷ []) self.new.innermost.items self.new.opened.items) }
    {
        let inside = number_at(&self.innermost, before.len());
        match effect_of(step) {
            Effect::Opens => self.push(before.len() + 1, true),
            Effect::Ends => {
                if inside == 0 {
                    return self.push(inside, false);
                }
                let outer = number_at(&self.innermost, inside - 1);
                clear(&mut self.opened, inside);
                self.push(outer, false)
            }
            Effect::Stays => self.push(inside, false),
        }
    }
}
