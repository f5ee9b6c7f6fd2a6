//! The closing of classes: the waiting nodes are visited until none waits.

ghost use Rattle.std.specs.Prelude.{◌≡◌, ◌⊎◌, ◌↔◌, ◌<◌, ℕ, List, length, IsTrue, OnOk};
ghost use Rattle.std.specs.List.{All, Contains};
ghost use Rattle.pv_classes.specs.Closest.{IsOutside};
ghost use Rattle.pv_classes.specs.Index.{Advances, AreJoined, IsIndex, IsOutsideAt, IsTracked};
ghost use Rattle.pv_classes.specs.Closing.{Closed};
ghost use Rattle.pv_classes.specs.Congruence.{index_of};

use crate::congruence::{Congruence, visit};
use crate::join::Join;
use pv_graph::{Graph, NodeId, Op};
use pv_value::Memory;
use std::alloc::Global;

// Whether the depth is fixed.
fn is_fixed(fixed: &[u32], depth: u32) -> bool
    ensures { IsTrue result ↔ Contains fixed.now depth }
{
    fixed.contains(&depth)
}

// Whether the operation looks at its kids at no other iteration of a fixed depth.
fn is_outside(op: &Op, fixed: &[u32]) -> bool
    ensures { IsTrue result ↔ IsOutside fixed.now op.now }
{
    match op {
        Op::Theta(d) | Op::Eval(d) | Op::Pass(d) | Op::Shift(d) => !is_fixed(fixed, *d),
        _ => true,
    }
}

// Visits these nodes, but those with an operation of a fixed depth, which are held.
fn pass(
    alloc: Global,
    g: &Graph,
    fixed: &[u32],
    congruence: &mut Congruence,
    joins: &mut Vec<Join>,
    work: &[NodeId],
    held: &mut Vec<NodeId>,
) -> Result<(), Memory>
    requires index { IsIndex g.now.nodes (index_of congruence.old) }
    requires joined { AreJoined congruence.old.parts joins.old.items }
    requires work { All (λ n. n < length g.now.nodes) work.now }
    ensures joined { AreJoined congruence.new.parts joins.new.items }
    ensures ok { OnOk result (Advances g.now.nodes fixed.now (index_of congruence.old) (index_of congruence.new) joins.old.items joins.new.items) }
    ensures tracked { OnOk result ((n : ℕ) → Contains work.now n → IsTracked g.now.nodes (index_of congruence.new) n ⊎ Contains held.new.items n) }
    ensures keeps { OnOk result ((n : ℕ) → Contains held.old.items n → Contains held.new.items n) }
    ensures held { OnOk result ((n : ℕ) → Contains held.new.items n → Contains held.old.items n ⊎ (Contains work.now n × (IsOutsideAt g.now.nodes fixed.now n → ⊥))) }
{
    for n in work {
        if is_outside(&g.node(*n).op, fixed) {
            visit(alloc, g, congruence, joins, *n)?;
        } else {
            held.push(*n)?;
        }
    }
    Ok(())
}

/// Visits the waiting nodes until none is left. Those with an operation of a fixed depth wait for a later closing.
pub(crate) fn close(
    alloc: Global,
    g: &Graph,
    fixed: &[u32],
    congruence: &mut Congruence,
    joins: &mut Vec<Join>,
) -> Result<(), Memory>
    requires index { IsIndex g.now.nodes (index_of congruence.old) }
    requires joined { AreJoined congruence.old.parts joins.old.items }
    requires tracked { (n : ℕ) → n < length g.now.nodes → IsTracked g.now.nodes (index_of congruence.old) n }
    ensures joined { AreJoined congruence.new.parts joins.new.items }
    ensures ok { OnOk result (Closed g.now.nodes fixed.now (index_of congruence.old) (index_of congruence.new) joins.old.items joins.new.items) }
{
    let mut held = Vec::new(alloc);
    'closing: while !congruence.waiting.is_empty() {
        let work = std::mem::replace(&mut congruence.waiting, Vec::new(alloc));
        pass(alloc, g, fixed, congruence, joins, &work, &mut held)?;
    }
    congruence.waiting = held;
    Ok(())
}
