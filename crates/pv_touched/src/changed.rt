//! Which classes changed since an earlier look.

ghost use Rattle.std.specs.Prelude.{◌≡◌, ◌↔◌, ◌<◌, ℕ, IfOk, IsTrue, length, slice_index};
ghost use Rattle.std.specs.Bool.{OnFalse};
ghost use Rattle.pv_marks.specs.Classes.{class_of};
ghost use Rattle.pv_touched.specs.Far.{HaveMarks, IsClear, Stayed};

use crate::since::Since;
use std::alloc::{AllocError, Global};

// The mark of a class; a class past the marks has none.
fn mark_of(marks: &[u32], class: usize) -> u32
    ensures { result ≡ slice_index marks.now class }
{
    match marks.get(class) {
        Some(mark) => *mark,
        None => 0,
    }
}

// Whether a class has another mark than at the earlier look.
fn has_other_mark(since: &Since, class: usize) -> bool
    ensures { OnFalse result (slice_index since.now.old_marks.now class ≡ slice_index since.now.marks.now class) }
{
    mark_of(since.old_marks, class) != mark_of(since.marks, class)
}

// For each class whether it has another mark than at the earlier look.
fn marked_anew(alloc: Global, since: &Since) -> Result<Vec<bool>, AllocError>
    ensures { IfOk result (λ changed. HaveMarks (length since.now.numbers.now) since.now changed.items) }
{
    let mut changed = Vec::new(alloc);
    for class in 0..since.numbers.len() {
        let is_other = has_other_mark(since, class);
        changed.push(is_other)?;
    }
    Ok(changed)
}

// Whether a node was in the class with this number.
fn was_in(since: &Since, n: usize, class: u32) -> bool
    ensures { IsTrue result ↔ ((n < length since.now.old_numbers.now) × (class_of since.now.old_numbers.now n ≡ class)) }
{
    match since.old_numbers.get(n) {
        Some(old) => *old == class,
        None => false,
    }
}

/// For each class whether it changed: whether it has a node that wasn't in the class with this number, or another mark.
pub(crate) fn changed(alloc: Global, since: &Since) -> Result<Vec<bool>, AllocError>
    requires { (n : ℕ) → n < length since.now.numbers.now → class_of since.now.numbers.now n < length since.now.numbers.now }
    ensures long { IfOk result (λ changed. length changed.items ≡ length since.now.numbers.now) }
    ensures stayed { IfOk result (λ changed. (c : ℕ) → IsClear changed.items c → Stayed since.now c) }
{
    let mut changed = marked_anew(alloc, since)?;
    for (n, class) in since.numbers.iter().enumerate() {
        if !was_in(since, n, *class) {
            changed[*class as usize] = true;
        }
    }
    Ok(changed)
}
