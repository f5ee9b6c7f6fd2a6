//! Marks.

ghost use Rattle.std.specs.Prelude.{◌≡◌, ◌<◌, ◌≤◌, length, slice_get, Some};
ghost use Rattle.pv_explain.specs.Marks.{IsMarked, MarksMore};

// Whether there is a mark at a place.
pub(crate) fn is_marked(marks: &[bool], i: usize) -> bool
    requires { i < length marks.now }
    ensures { slice_get marks.now i ≡ Some result }
{
    marks[i]
}

// Puts a mark at a place, which comes before this number.
pub(crate) fn mark(marks: &mut Vec<bool>, before: usize, place: usize)
    requires few { before ≤ length marks.old.items }
    requires place { place < before }
    ensures more { MarksMore before marks.old.items marks.new.items }
    ensures marked { IsMarked marks.new.items place }
{
    marks[place] = true;
}
