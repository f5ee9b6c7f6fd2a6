//! The laws of verdicts and searches, each as the contract of a function that does nothing.

ghost use Rattle.pv_heights.specs.Laws.{AnswersAreVerdicts, HeightsHold, ListCounts, OneRootEqual, RoundReaches, SaturatedByList, SaturatedStays, TableBinds, VerdictOnce};

/// What is joined at a height is an equivalence and a congruence and holds the pairs of each induction, and the next height keeps it.
pub fn law_heights()
    ensures { HeightsHold }
{}

/// What a search on the nodes of a graph answers is the verdict over terms.
pub fn law_search()
    ensures { AnswersAreVerdicts }
{}

/// A question has one verdict. Where its roots are one node it is `equivalent`, under all limits.
pub fn law_verdict()
    ensures once { VerdictOnce }
    ensures one_root { OneRootEqual }
{}

/// A round takes a search to the next height. A search in which no match joins more is at the next height as it is.
pub fn law_rounds()
    ensures round { RoundReaches }
    ensures saturated { SaturatedStays }
{}

/// A list of all matches, each once, is as long as there are matches, and tells whether one of them joins more.
pub fn law_matches()
    ensures count { ListCounts }
    ensures saturated { SaturatedByList }
{}

/// The left side of each axiom binds all that the axiom names, as rounds ask of a table.
pub fn law_table()
    ensures { TableBinds }
{}
