//! Ordered lists in which no two elements are equal.

ghost use Rattle.std.specs.Prelude.{◌≡◌, ◌<◌, ◌+◌, ◌++◌, drop, length, take, suc, true, IfOk, OnOk};
ghost use Rattle.std.specs.List.{AllByRecursion, Any, Contains};
ghost use Rattle.std.specs.List.Sorted.{IsStrictlySortedBy};
ghost use Rattle.std.specs.declared.cmp.Ordering.TheVariants.{Equal, Less};
ghost use Rattle.std.specs.Set.{sorted_merge};

use std::alloc::{AllocError, Global};
use std::cmp::Ordering;
use std::collections::VecDeque;

// How many elements at the front of an ordered queue, of which the first comes before `bound`, are known to come before it. The
// search doubles its step each time, so that more than half of those that do are found in few comparisons.
fn count_before<T: Ord>(queue: &VecDeque<T>, bound: &T) -> usize
    requires ordered { IsStrictlySortedBy T.cmp queue.now.items }
    requires first { AllByRecursion (λ x. T.cmp x bound.now ≡ Less) (take 1 queue.now.items) }
    ensures before { AllByRecursion (λ x. T.cmp x bound.now ≡ Less) (take result queue.now.items) }
    ensures some { 0 < result }
{
    let mut count = 1;
    while let Some(x) = queue.get(2 * count - 1) {
        if x.cmp(bound) != Ordering::Less {
            return count;
        }
        count *= 2;
    }
    count
}

// Moves the first elements of a queue to the end of a list.
fn move_front<T: Drop>(
    queue: &mut VecDeque<T>,
    count: usize,
    list: &mut Vec<T>,
) -> Result<(), AllocError>
    ensures moved { OnOk result (list.new.items ≡ list.old.items ++ take count queue.old.items) }
    ensures rest { OnOk result (queue.new.items ≡ drop count queue.old.items) }
{
    for _ in 0..count {
        let Some(x) = queue.pop_front() else {
            return Ok(());
        };
        list.push(x)?;
    }
    Ok(())
}

// Moves the next run of two ordered queues, merged, to the end of a list: elements of one of them that come before the other's first. Of two
// equal elements both go, and the first queue's is given.
fn move_run<T: Ord + Drop>(
    first: &mut VecDeque<T>,
    second: &mut VecDeque<T>,
    list: &mut Vec<T>,
) -> Result<(), AllocError>
    requires first { IsStrictlySortedBy T.cmp first.old.items }
    requires second { IsStrictlySortedBy T.cmp second.old.items }
    ensures whole { OnOk result (list.new.items ++ sorted_merge T.cmp true first.new.items second.new.items ≡ list.old.items ++ sorted_merge T.cmp true first.old.items second.old.items) }
    ensures first { OnOk result (IsStrictlySortedBy T.cmp first.new.items) }
    ensures second { OnOk result (IsStrictlySortedBy T.cmp second.new.items) }
    ensures longer { OnOk result (0 < length first.old.items + length second.old.items → length list.old.items < length list.new.items) }
{
    let Some(x) = first.front() else {
        return move_front(second, second.len(), list);
    };
    let Some(y) = second.front() else {
        return move_front(first, first.len(), list);
    };
    match x.cmp(y) {
        Ordering::Less => move_front(first, count_before(first, y), list),
        Ordering::Equal => {
            second.pop_front();
            move_front(first, 1, list)
        }
        Ordering::Greater => move_front(second, count_before(second, x), list),
    }
}

// The elements of a list, up to one more than `limit`.
fn cut<T: Drop>(list: Vec<T>, limit: usize) -> Vec<T>
    ensures { result.items ≡ take (suc limit) list.items }
{
    let mut list = list;
    if list.len() > limit {
        list.truncate(limit + 1);
    }
    list
}

// Two ordered lists, merged, up to one more element than `limit`. An empty list is left out, and the other is passed on. What comes next from
// one list before the other's next goes at once, so lists of few such runs are merged in few comparisons.
pub(crate) fn merge_ordered<T: Ord + Drop>(
    alloc: Global,
    first: Vec<T>,
    second: Vec<T>,
    limit: usize,
) -> Result<Vec<T>, AllocError>
    requires first { IsStrictlySortedBy T.cmp first.items }
    requires second { IsStrictlySortedBy T.cmp second.items }
    ensures { IfOk result (λ list. list.items ≡ take (suc limit) (sorted_merge T.cmp true first.items second.items)) }
{
    if first.is_empty() {
        return Ok(cut(second, limit));
    }
    if second.is_empty() {
        return Ok(cut(first, limit));
    }
    let most = first.len().saturating_add(second.len()).min(limit);
    let (mut first, mut second) = (VecDeque::from_vec(first), VecDeque::from_vec(second));
    let mut list = Vec::with_capacity(alloc, most)?;
    while list.len() <= limit && !(first.is_empty() && second.is_empty()) {
        move_run(&mut first, &mut second, &mut list)?;
    }
    Ok(cut(list, limit))
}

// Sorts a list, and drops the later ones of equal elements.
pub(crate) fn sort_once<T: Ord + Drop>(list: &mut Vec<T>) -> Result<(), AllocError>
    ensures ordered { OnOk result (IsStrictlySortedBy T.cmp list.new.items) }
    ensures within { OnOk result ((x : T) → Contains list.new.items x → Contains list.old.items x) }
    ensures kept { OnOk result ((x : T) → Contains list.old.items x → Any (λ y. T.cmp x y ≡ Equal) list.new.items) }
{
    list.sort()?;
    list.dedup();
    Ok(())
}
