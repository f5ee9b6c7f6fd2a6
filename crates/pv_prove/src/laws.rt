//! The laws of meetings and of verdicts, each as the contract of a function that does nothing.

ghost use Rattle.pv_prove.specs.Laws.{VerdictByNodes};
ghost use Rattle.pv_prove.specs.Meetings.{MeetingIsSeen, NoneIsUnseen};

/// Two roots meet in two searches, as the verdict asks, where there is a way in which they meet, and don't where there is none.
pub fn law_meeting()
    ensures some_way { MeetingIsSeen }
    ensures no_way { NoneIsUnseen }
{}

/// Least graphs with the same nodes and the same roots have one verdict.
pub fn law_nodes()
    ensures { VerdictByNodes }
{}
