//! Whether some match joins more.

ghost use Rattle.std.specs.Prelude.{◌↔◌, IfOk, IsTrue, map};
ghost use Rattle.pv_classes.specs.Calls.{Knows};
ghost use Rattle.pv_heights.specs.Searches.{IsNode, OneClass, base_view, nodes};
ghost use Rattle.pv_heights.specs.SameClasses.{IsCongruence};
ghost use Rattle.pv_saturate.specs.Decoding.{decoded_seen};
ghost use Rattle.pv_rounds.specs.Decoded.{AreReady};
ghost use Rattle.pv_rounds.specs.Standing.{AllStand, AreOver};

use crate::decoded::instance_of;
use pv_classes::Classes;
use pv_graph::Graph;
use pv_saturate::Decoded;
use pv_standing::both_stand;
use pv_value::Memory;
use std::alloc::Global;

/// Whether both sides of each match stand in one class.
pub(crate) fn all_stand(
    alloc: Global,
    graph: &Graph,
    classes: &Classes,
    list: &[Decoded],
) -> Result<bool, Memory>
    requires knows { Knows graph.now.nodes classes.now }
    requires congruence { IsCongruence (base_view graph.now) (nodes graph.now) (IsNode graph.now) (OneClass classes.now.numbers) }
    requires ready { AreReady list.now }
    requires over { AreOver graph.now (map decoded_seen list.now) }
    ensures { IfOk result (λ all. IsTrue all ↔ AllStand graph.now classes.now.numbers (map decoded_seen list.now)) }
{
    for m in list {
        if !both_stand(alloc, graph, classes, &instance_of(m))? {
            return Ok(false);
        }
    }
    Ok(true)
}
