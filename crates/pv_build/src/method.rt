//! A method, and what is made of it so far.

use crate::slot::Slot;
use pv_block::Ran;
use pv_decide::Trees;
use pv_flow::Flow;
use pv_frame::Typed;
use pv_graph::NodeId;
use pv_layout::Writes;
use pv_loops::Forest;
use pv_terms::Names;

/// A method, and what all walks through its blocks need.
#[derive(Drop)]
pub(crate) struct Method<'a> {
    pub(crate) typed: &'a Typed,
    pub(crate) flow: &'a Flow,
    pub(crate) forest: &'a Forest,
    pub(crate) trees: Trees,
    /// What each loop carries.
    pub(crate) carried: Vec<Writes>,
}

/// A slot that a loop carries: its theta, and the first kid that the theta will have.
#[derive(Clone, Copy, Debug)]
pub(crate) struct Theta {
    pub(crate) slot: Slot,
    pub(crate) node: NodeId,
    pub(crate) first: NodeId,
}

/// A loop whose header is begun and whose blocks aren't all done.
#[derive(Debug, Drop)]
pub(crate) struct Opened {
    /// The token with which it is entered.
    pub(crate) token: NodeId,
    /// How many nodes there were when its first theta was begun.
    pub(crate) base: NodeId,
    pub(crate) thetas: Vec<Theta>,
}

/// A loop whose blocks are all done.
#[derive(Clone, Copy, Debug)]
pub(crate) struct Closed {
    /// How many loops there are around its header, itself among them.
    pub(crate) depth: u32,
    /// The token with which it is entered.
    pub(crate) token: NodeId,
    /// Whether it is left in an iteration.
    pub(crate) ending: NodeId,
}

/// How far a loop is made.
#[derive(Debug, Drop)]
pub(crate) enum Stage {
    Ahead,
    Open(Opened),
    Closed(Closed),
}

/// What is made of a method so far.
#[derive(Debug, Drop)]
pub(crate) struct Made {
    /// How many nodes the graph had before the method.
    pub(crate) start: NodeId,
    pub(crate) names: Names,
    pub(crate) blocks: Vec<Option<Ran>>,
    pub(crate) loops: Vec<Stage>,
}
