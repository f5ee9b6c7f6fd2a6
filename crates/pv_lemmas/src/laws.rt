//! The laws of lemmas, each as the contract of a function that does nothing.

ghost use Rattle.pv_steps.specs.Laws.{AcceptedLeast, AcceptedNotRejected, AcceptedSame, AreSound, RejectedOnce};
ghost use Rattle.pv_lemmas.specs.Laws.{Accepted, NotRejected, Once, Sound};

/// The axioms and the accepted lemmas are sound.
pub fn law_sound()
    ensures { Sound }
{}

/// An accepted section that uses lemmas makes its two roots the same; and where the graph is the least one of two nodes,
/// it makes these the same.
pub fn law_accepted()
    ensures { Accepted }
{}

/// What is accepted isn't rejected, and what is rejected is so with one number.
pub fn law_rejected()
    ensures not_both { NotRejected }
    ensures once { Once }
{}
