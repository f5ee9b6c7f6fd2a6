//! What stays the same while nodes are evaluated.

use pv_graph::Graph;
use pv_value::{Input, World};
use std::alloc::Global;

/// What stays the same while nodes are evaluated.
#[derive(Clone, Copy)]
pub struct Setting<'a> {
    pub alloc: Global,
    pub graph: &'a Graph,
    pub world: &'a World,
    pub input: &'a Input,
}
