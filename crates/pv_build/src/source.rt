//! What is given for the nodes of a tree: values of exits and tests, as they are outside the loops that a
//! walk leaves.

ghost use Rattle.std.specs.Prelude.{◌≡◌, IfOk};
ghost use Rattle.pv_build.specs.Slots.{number};
ghost use Rattle.pv_build.specs.Sources.{given_by, given_nodes};

use crate::slot::{Slot, at_exit};
use pv_block::Leaving;
use pv_decide::TreeNode;
use pv_graph::NodeId;
use pv_value::Memory;
use std::alloc::Global;

/// What is given for a node of a tree.
#[derive(Debug, Drop)]
pub(crate) enum Source {
    /// Nothing, for a node without an exit or a test.
    Nothing,
    /// A value: that of a test, or whether a loop is left.
    Value(NodeId),
    /// What holds at an exit.
    Exit(Leaving),
}

/// The nodes of a tree, with what is given for each.
#[derive(Debug, Drop)]
pub(crate) struct Given {
    pub(crate) nodes: Vec<TreeNode>,
    pub(crate) sources: Vec<Source>,
}

// The node that is given, where this slot is asked for.
fn given_by(source: &Source, slot: Slot) -> Option<NodeId>
    ensures { result ≡ given_by source.now (number slot) }
{
    match source {
        Source::Nothing => None,
        Source::Value(n) => Some(*n),
        Source::Exit(exit) => at_exit(exit, slot),
    }
}

/// What is given for each node of a tree where this slot is asked for; where nothing is, any number.
pub(crate) fn given_nodes(
    alloc: Global,
    sources: &[Source],
    slot: Slot,
) -> Result<Vec<NodeId>, Memory>
    ensures { IfOk result (λ given. given.items ≡ given_nodes sources.now (number slot)) }
{
    let mut given = Vec::with_capacity(alloc, sources.len())?;
    for source in sources {
        given.push(given_by(source, slot).unwrap_or(0))?;
    }
    Ok(given)
}
