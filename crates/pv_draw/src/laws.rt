//! The law of drawings, as the contract of a function that does nothing.

ghost use Rattle.pv_draw.specs.Laws.{DrawnOnce};

/// The bytes of two files determine what is said of two methods, and the status.
pub fn law_drawn()
    ensures { DrawnOnce }
{}
