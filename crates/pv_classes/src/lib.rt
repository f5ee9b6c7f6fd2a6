//! Classes of equal nodes of a graph, and why their nodes are joined.
//!
//! This layer stands on `pv_graph`, and on `pv_pattern` for the numbers of operations. `Classes` numbers the nodes of a
//! graph by their classes: the number of a class is its least node. Classes are joined for a reason (`Join`,
//! `Reason`), and `close` joins them until two nodes of one operation with joined kids are joined.
//!
//! The definitions that it meets: two nodes have one number exactly where the joins link them (`specs/Linked`); after `close`
//! the classes are the least congruence over those before it (`specs/Closest`), outside the depths whose iterations are
//! fixed (`IsOutside`); and each join that `close` adds is of two nodes of one operation with kids that the
//! joins before it link (`AreOfKids`). `nodes_with` gives the nodes whose operation has a number (`specs/Numbered`). The
//! form of a node is its operation over the classes of its kids; `class_with` finds a node of some form, and
//! `first_of_forms` tells the first node of each in each class (`specs/Forms`).
//!
//! The layers above use the clauses of `Classes`: each call says what it changes (`specs/Calls`), and that the classes
//! are classes still (`IsClasses`) and know the nodes of the graph (`Knows`). What is tried is joined between `save` and
//! `restore`, which gives back exactly the classes that were. What a join and the block of an
//! induction rest on is defined here (`specs/Grounds`), since the layer of inductions makes blocks and that of
//! certificates follows them; so is when joins are of nodes of one sort (`specs/Sorts`).
//!
//! The rest is private to this crate. `Partition` has the parts of the nodes. A part has a label and a number: the
//! label is one of its nodes and stays that of the larger part where two are joined; the number is its least
//! node. The key of a node is its operation over the labels of its kids. `Congruence` has, beside the parts, what a closing
//! looks up (`specs/Index`): the parents of nodes, and nodes by their keys, in a table that copies share (`Known`)
//! and in one of their own. A node waits for the next closing where a label of its kids changed, and a closing
//! visits the waiting nodes alone (`specs/Closing`). `known` takes up new nodes (`specs/Learning`), and `forms` looks
//! nodes up by their keys (`specs/Keyed`).
#![tactic(auto)]

mod block;
mod classes;
mod closing;
mod congruence;
mod forms;
mod join;
mod known;
mod lists;
mod partition;
mod table;

pub use block::Block;
pub use classes::{Classes, Saved};
pub use join::{Join, Reason};
