//! All inductions, outside of any other.

ghost use Rattle.std.specs.Prelude.{◌≡◌, IfOk};
ghost use Rattle.pv_graph.specs.Graphs.{IsGraph};
ghost use Rattle.pv_classes.specs.Calls.{IsClasses, Knows};
ghost use Rattle.pv_induct.specs.Inducts.{Inducts};

use crate::level::close_level;
use crate::theta::thetas;
use pv_classes::Classes;
use pv_graph::Graph;
use pv_value::Memory;
use std::alloc::Global;

/// Closes the classes, joins the pairs of all inductions, and says whether anything was joined. Each induction
/// is added as a block before its pairs are joined. After `Memory` the classes are given up.
pub fn induct(alloc: Global, g: &Graph, c: &mut Classes) -> Result<bool, Memory>
    requires graph { IsGraph g.now }
    requires classes { IsClasses c.old }
    requires knows { Knows g.now.nodes c.old }
    ensures { IfOk result (λ found. Inducts g.now.nodes c.old c.new found) }
{
    let all = thetas(alloc, g)?;
    let before = c.joins().len();
    close_level(alloc, g, &all, c, &[], 1, 0)?;
    Ok(c.joins().len() != before)
}
