//! Laws of needed frames, for every program: each is the contract of an empty function.

ghost use Rattle.pv_live.specs.Laws.{NeededAgree, NeededOnce};

/// The frames with the live locals alone agree along every edge, and there is one such list.
pub fn law_needed()
    ensures agree { NeededAgree }
    ensures once { NeededOnce }
{}
