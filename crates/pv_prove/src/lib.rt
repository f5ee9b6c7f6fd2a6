//! The verdict of a search on two roots.
//!
//! Two searches go on side by side from the least graph of the roots: a plain one, and one in which the nodes that the first root
//! waits for count as ending; where it waits for none, the plain one is both. At each height they are looked at: the roots meet; or a search has more matches than the budget; or no
//! match of either joins more. The first height at which one of these holds decides, and where none does within the rounds, that is the
//! outcome.
//!
//! This layer stands on `pv_rounds`, whose searches it takes from height to height, on `pv_grounds`, by whose laws the joins of a
//! search keep their grounds and joined nodes have the same values, on `pv_endings` for the nodes that a root waits for and for its
//! kids, on `pv_classes`, whose classes of nodes a search has, on `pv_alike`, whose least graph of two roots a search begins with, and
//! on `pv_scalar`, `pv_loopax`, `pv_heapax` and `pv_choiceax`, whose axioms are in one table here.
//!
//! The definition that it meets is `IsVerdict` (`pv_heights/specs/Verdicts`), which speaks of terms and not of nodes. That what two
//! searches answer is this verdict is a law of `pv_heights` (`AnswersAreVerdicts`), and the loop here gives such an answer.
//!
//! The layer above uses `find` (`specs/Finding`), and gives it the table of `axioms_in`: the axioms of the core, or all, as the limits
//! say. The outcome is the verdict on the question by these axioms (`verdict`), and any other verdict is that one (`only`). Where the roots met, they have the same values in each world, for each
//! input, at each index (`same`, `MetAreSame`), and the two searches are as they were then (`shown`, `IsShown`): all their joins have
//! their grounds. How the roots meet is `how_met` (`specs/Meetings`, `IsMeeting`); that this is the verdict's way is a law
//! (`law_meeting`). The verdict looks at nodes and roots alone, so least graphs with the same of both have one verdict (`law_nodes`,
//! `specs/Laws`).
//!
//! The rest is private to this crate. `searches` looks at both searches and takes them on, and `found` has the loop (`specs/Looking`).
#![tactic(auto)]

mod found;
pub mod laws;
mod meeting;
mod outcome;
mod searches;
mod table;

pub use found::{Found, find};
pub use meeting::{Meeting, how_met};
pub use outcome::{Limits, Outcome};
pub use pv_grounds::Search;
pub use searches::Searches;
pub use table::{AxiomSet, axioms_in};
