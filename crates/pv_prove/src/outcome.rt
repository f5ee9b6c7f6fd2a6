//! What two searches end with, and their limits.

use crate::meeting::Meeting;
use crate::table::AxiomSet;

/// By which axioms a search goes, how many rounds it may make, and how many matches a round may have.
#[derive(Clone, Copy, Debug, PartialEq, Eq)]
pub struct Limits {
    pub axioms: AxiomSet,
    pub rounds: u32,
    pub budget: u32,
}

/// What two searches end with.
#[derive(Clone, Copy, Debug, PartialEq, Eq)]
pub enum Outcome {
    /// The roots met.
    Met(Meeting),
    /// After this many rounds there were more matches than the budget.
    Budget(u32),
    /// No match joined more.
    Apart,
    /// This many rounds were made, and nothing was decided.
    Rounds(u32),
}
