//! Whether the steps of a certificate are right.
//!
//! This layer stands on `pv_steps`, whose `specs/Right` says when a step is right after those before it
//! (`RightOver`) by a relation of rules (`Instances`), on `pv_endings` for the nodes that a root waits for, on `pv_graph`, and on
//! `pv_base` and `pv_pieces` for what runs the pieces of a section at once. The rules, axioms and lemmas by their numbers, are of the
//! layers above: `Rules` of `rules` is what these implement, a relation of rules (`instances`) and its test. A check cuts the steps of a section into
//! consecutive pieces. Each piece replays the steps before its own, and then tests its own in order: over the graph of the moment, and by
//! what is kept of the steps so far. With one worker no step is looked at twice.
//!
//! What is kept (`specs/Kept`, `AreKept`): of each number of steps the innermost block that is open after
//! them, and of each block whether it is open now. A block goes by the number of the step that opened it.
//! `tables` keeps it, step by step. `seen` finds from it in constant time which equality a fact cites
//! (`found_at`), and whether it is visible (`IsVisible`): all blocks around it are open where the innermost
//! is. `reasons` follows the blocks outwards for the depths of loops.
//!
//! Each row of steps has its function, whose contract is that it answers exactly the relation of that row:
//! `growth` for node steps, `rows` for axioms, uses of lemmas and chains, `sets` for congruences, `sorts` and `inductions`
//! for what opens and closes an induction, `assuming` and `endings` for ending blocks. `testing` puts
//! together those of steps that leave the graph as it is (`is_right`). `takes` of `moment` is yes exactly where
//! `RightOver` holds at the rules of the check, and makes the graph that the step leaves (`GrowsTo`): a node
//! step adds its node, and the test of what opens an ending block prepares the graph. `concludes` of
//! `conclusion` is yes exactly where the steps so far conclude that two nodes are equal (`IsConcluded`).
//! `advance` of `checker` takes one right step. `replay` takes one that may be wrong: it keeps the graph (`follow` of
//! `moment`) and the tables, and tests node steps alone.
//!
//! `specs/Checking` says what a piece answers (`IsPiece`): where all steps before it are right, the number of the first of its steps that isn't
//! right, if there is one. `piece` of `checker` finds it: it replays the steps before the piece (`front`), and may answer nothing where
//! there is no graph after them, since a piece before it has a wrong step then. The last piece ends with the tables of all steps, and tests whether these conclude.
//! `put_together` takes the first number in the order of the pieces, which is that of the section.
//!
//! The layers above use `Checker`, of rules, a sealed graph, two nodes of it and steps. `check` runs the pieces of a section at once: its
//! clauses say that the answer is `Accepted` exactly where the section derives by the rules that the two nodes are equal (`Derives`), and
//! a number exactly where it is rejected with that number (`Rejects`), whatever the workers; `crew` says how many of them a section is
//! worth. What an accepted section shows is up to the rules: the laws of `pv_steps` tell it where they are sound.
//! `step_is_right` answers of one step whether it is right after those before it (`IsRightAt`), each node step of which is
//! right; it replays these. `graph_after` replays all steps, right or not, and gives the graph after them (`IsAfter`), where there is one.
#![tactic(auto)]

mod assuming;
mod checker;
mod conclusion;
mod endings;
mod growth;
mod inductions;
mod moment;
mod nodes;
mod reasons;
mod rows;
mod rules;
mod seen;
mod sets;
mod sorts;
mod tables;
mod testing;

pub use checker::{Checked, Checker, STEPS_A_WORKER};
pub use rules::Rules;
