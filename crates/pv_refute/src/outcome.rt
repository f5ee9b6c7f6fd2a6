//! Whether two outcomes are one.

ghost use Rattle.std.specs.Prelude.{◌≡◌, ◌↔◌, IsTrue};

use pv_value::{Heap, Outcome};

/// Whether two methods ended with the same result or fault, and with the same heap.
pub(crate) fn is_same(one: &Outcome, two: &Outcome) -> bool
    ensures { IsTrue result ↔ (one.now ≡ two.now) }
{
    match (one, two) {
        (Outcome::Returned(n, g), Outcome::Returned(m, h)) => n == m && is_same_heap(g, h),
        (Outcome::Threw(e, g), Outcome::Threw(f, h)) => e == f && is_same_heap(g, h),
        _ => false,
    }
}

// Whether two heaps have the same numbers.
fn is_same_heap(one: &Heap, two: &Heap) -> bool
    ensures { IsTrue result ↔ (one.now ≡ two.now) }
{
    one == two
}
