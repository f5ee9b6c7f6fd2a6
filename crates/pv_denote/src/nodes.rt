//! The value of a node.

ghost use Rattle.std.specs.Prelude.{◌≡◌, ◌<◌, ◌^◌, length, Some, ℕ, false, IfOk};
ghost use Rattle.pv_graph.specs.Graphs.{form_at};
ghost use Rattle.pv_denote.specs.Denote as denote;
ghost use Rattle.pv_denote.specs.Meaning.{AreSmall, index_of};

use crate::iterations::Iterations;
use crate::setting::Setting;
use crate::stop::Stop;
use pv_graph::{Graph, NodeId};
use pv_value::{Input, Memory, Val, World};
use std::alloc::Global;

/// The value that a node of a sealed graph has in a world, for an input, at an iteration of each loop
/// around it, with `fuel` as the greatest depth of evaluation; `None` exactly where it has none with
/// that fuel. `index` has the iteration of depth 1 first; a missing one is 0.
///
/// A node is evaluated anew wherever it is used, and in a stack as deep as `fuel` at most.
pub fn den(
    alloc: Global,
    g: &Graph,
    world: &World,
    input: &Input,
    n: NodeId,
    index: &[u64],
    fuel: u64,
) -> Result<Option<Val>, Memory>
    requires sealed { g.now.is_open ≡ false }
    requires there { n < length g.now.nodes }
    requires small { AreSmall index.now }
    requires fuel { fuel < 2 ^ 62 }
    ensures value { IfOk result (λ v. v ≡ denote.den (form_at g.now.nodes) world.now input.now fuel n (index_of index.now)) }
    ensures count { IfOk result (λ v. (k : ℕ) → v ≡ Some (Val.Count k) → k < fuel) }
{
    let len = g.len();
    prove!(n < len);
    let setting = Setting {
        alloc,
        graph: g,
        world,
        input,
    };
    match setting.value(n, Iterations::new(index), fuel) {
        Ok(v) => Ok(Some(v)),
        Err(Stop::NoValue) => Ok(None),
        Err(Stop::Memory) => Err(Memory),
    }
}
