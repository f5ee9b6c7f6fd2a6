//! Live locals, and frames that know those alone.
//!
//! A local is live at a place where some instruction reads it before one writes it (live-variable analysis;
//! `specs/Live`, after Aho, Lam, Sethi and Ullman, Compilers, 9.2.5). A frame knows the sort of a local also
//! where nothing reads it again. `specs/Needed` says what of a list of inferred frames is needed: all of the
//! stacks, and the locals that are live; the sorts of the others are Unknown.
//!
//! This layer stands on `pv_frame`, whose inferred frames it takes, and on those below it. The layers above
//! use `needed`: it keeps a typed method as it is, with the frames that are needed (`AreNeeded`), unless it
//! runs out of memory. `law_needed` says that such frames are frames of the program too (`AreFrames`): they
//! agree along every edge, with one exactly where the instruction is reached; and that there is one such list.
//!
//! Live locals are marked in a table with a row for each place and a mark for each local (`row`). Sweeps go
//! from the last place to the first, and mark what is live by the marks so far, until nothing new is marked
//! (`table`); then the locals that aren't marked are dropped from the frames (`frames`). A sweep takes time in
//! proportion to the edges times the locals, and the table takes places times locals bytes. Code without
//! jumps back takes two sweeps, of which the second finds nothing new. Other code takes a few more: at most one
//! more than there are marks in the end. `specs/Marks` says what holds of tables, and is private to this crate.
#![tactic(auto)]

mod frames;
mod laws;
mod row;
mod table;

pub use frames::needed;
pub use laws::law_needed;
