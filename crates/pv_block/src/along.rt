//! One action of a block after the other.

ghost use Rattle.std.specs.Prelude.{IfOk, IfSome};
ghost use Rattle.pv_terms.specs.Terms.{Grows};
ghost use Rattle.pv_block.specs.Sorted.{IsSorted};
ghost use Rattle.pv_block.specs.Plain.{ArePlain};
ghost use Rattle.pv_block.specs.Acting.{ActsAlong};

use crate::acting::act;
use crate::held::Held;
use pv_frame::Program;
use pv_graph::Graph;
use pv_value::Memory;
use std::alloc::Global;

/// What is held after the `count` actions from place `first` on; `None` as soon as one doesn't find what it
/// needs, or ends the method.
pub(crate) fn along(
    alloc: Global,
    g: &mut Graph,
    program: &Program,
    held: Held,
    first: u32,
    count: u32,
) -> Result<Option<Held>, Memory>
    requires plain { ArePlain program.now }
    requires sorted { IsSorted g.old held }
    ensures acts { IfOk result (λ o. ActsAlong program.now count first g.old.nodes held g.new.nodes o) }
    ensures sorted { IfOk result (λ o. IfSome o (λ after. IsSorted g.new after)) }
    ensures grows { Grows g.old g.new }
{
    let actions = program.actions.as_slice();
    let mut after = held;
    for done in 0..count {
        let Some(action) = actions.get(first as usize + done as usize) else {
            return Ok(None);
        };
        let Some(next) = act(alloc, g, after, action)? else {
            return Ok(None);
        };
        after = next;
    }
    Ok(Some(after))
}
