//! The classes of an earlier look and of now.

use pv_graph::NodeId;

/// The number of each node's class and the mark of each class at an earlier look, and those of now.
#[derive(Clone, Copy)]
pub struct Since<'a> {
    pub old_numbers: &'a [NodeId],
    pub old_marks: &'a [u32],
    pub numbers: &'a [NodeId],
    pub marks: &'a [u32],
}
