//! The joins of a round.

ghost use Rattle.std.specs.Prelude.{OnOk, length};
ghost use Rattle.pv_classes.specs.Calls.{IsClasses};
ghost use Rattle.pv_rounds.specs.Joining.{AreWithin, JoinsAll};

use crate::owed::Owed;
use pv_classes::{Classes, Reason};
use pv_graph::Kids;
use pv_value::Memory;
use std::alloc::Global;

/// Joins the two sides of each instance, by its axiom. After `Memory` the classes are given up.
pub(crate) fn join_all(alloc: Global, classes: &mut Classes, owed: &[Owed]) -> Result<(), Memory>
    requires classes { IsClasses classes.old }
    requires within { AreWithin (length classes.old.numbers) owed.now }
    ensures { OnOk result (JoinsAll classes.old classes.new owed.now) }
{
    for one in owed {
        let subst = Kids::new(alloc, &one.subst)?;
        classes.join(alloc, one.left, one.right, Reason::Axiom(one.axiom, subst))?;
    }
    Ok(())
}
