//! What a block computes, on the nodes of a graph.
//!
//! `pv_runs` says what a block computes as parts of the slots where it begins (`Held`, `acted_on`). Here
//! the same is computed on nodes: a cell of the operand stack or of the locals has a sort and a node.
//! `specs/Standing` says what the nodes stand for: whatever the nodes of the slots stand for where the block
//! begins, the node of a cell whose sort is known stands for the cell's part over that (`StandsFor`,
//! `HoldsFor`). Where the sort isn't known, no value is, and the node is unit. `specs/Sorted` has the sorts of
//! the nodes, so that a graph never refuses an operation for them.
//!
//! `stack`, `locals` and `takes` are the text of `pv_frame` on cells. What an instruction computes is data.
//! `effects` gives for each action its effect (`effect`): lines, which are operations over the operands and over
//! earlier lines (`line`), and what changes over what they make of what is held, as a value that is pushed or
//! another heap. `specs/Effects` has the same effects, and `effect_parts` says what is held in parts after one;
//! that this is what `pv_runs` defines is computed, an equation an action (`proofs/ByEffect`). `acting` does
//! what an action does (`ActsOn` in `specs/Acting`): its effect, or a store or a move of values, which need no
//! operation. `along` does one action after the other (`ActsAlong`).
//!
//! The tests and exits of the last action are data as well: `rows` gives for each action a row (`row`), which
//! has lines, says which lines are tests, and how each exit leaves the block. `specs/Rows` has the same rows,
//! and `row_chain` says which chain a row is over the parts of the operands; that this is the chain which
//! `pv_runs` defines is computed too (`proofs/ByRow`). `emit` makes the nodes of all lines, of effects and of
//! rows, and `leaving` makes tests and exits of them.
//!
//! The layer above uses `run`, for a whole block: its tests, and the slots at its exits as far as their
//! sorts are known, stand for those of the block's chain, whatever the slots stand for where it begins
//! (`RanFor` in `specs/Ran`); and what goes on fits the frame of the place to which it goes (`IsSortedRan`).
#![tactic(auto)]

mod acting;
mod along;
mod effect;
mod effects;
mod held;
mod leaving;
mod line;
mod locals;
mod ran;
mod row;
mod rows;
mod running;
mod stack;
mod takes;

pub use held::Cell;
pub use ran::{Ending, Leaving, Ran, State};
pub use running::run;
