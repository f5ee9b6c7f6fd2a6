//! Laws of the report, each as the contract of a function that does nothing.

ghost use Rattle.pv_report.specs.Laws.{JudgedOnce, LinesName};

/// A line of the report determines the name and the descriptor of its method.
pub fn law_lines()
    ensures { LinesName }
{}

/// The bytes of two files, with the limits, determine what is said of them, and the status.
pub fn law_judged()
    ensures { JudgedOnce }
{}
