//! The laws of the sorts of axioms and classes, each as the contract of a function that does nothing.

ghost use Rattle.pv_heights.specs.Laws.{axioms};
ghost use Rattle.pv_instances.specs.Classes.{BeginningHasSorts, ClosingKeepsSorts, SidesHaveSorts};
ghost use Rattle.pv_instances.specs.Laws.{KeepSorts};

/// Where the left side of an axiom has a sort, the right side can be filled in and has it too.
pub fn law_sorts()
    ensures { KeepSorts axioms }
{}

/// Where each class of a search has one sort, a side that stands in a class has the sort of that class. Each has one at
/// the beginning, and a closing keeps it so, where the pairs that are joined before it are of one sort.
pub fn law_class_sorts()
    ensures sides { SidesHaveSorts }
    ensures closing { ClosingKeepsSorts }
    ensures beginning { BeginningHasSorts }
{}
