//! The loops around each node.

ghost use Rattle.std.specs.Prelude.{◌≡◌, IfOk};
ghost use Rattle.pv_loops.specs.declared.forest.TheConstants.{MAX_DEPTH};
ghost use Rattle.pv_loops.specs.Outwards.{places_from, AreRows};

use crate::forest::{Loop, MAX_DEPTH};
use crate::lists::Lists;
use std::alloc::{AllocError, Global};

// The places of the loops from this one outwards.
fn row_outwards(alloc: Global, loops: &[Loop], home: Option<u32>) -> Result<Vec<u32>, AllocError>
    ensures { IfOk result (λ row. row.items ≡ places_from MAX_DEPTH loops.now home) }
{
    let mut row = Vec::new(alloc);
    let mut at = home;
    for _ in 0..MAX_DEPTH {
        let Some(i) = at else {
            return Ok(row);
        };
        let Some(next) = loops.get(i as usize) else {
            return Ok(row);
        };
        row.push(i)?;
        at = next.parent;
    }
    Ok(row)
}

/// For each node, which has this home, the places of the loops around it.
pub fn rows_outwards(
    alloc: Global,
    loops: &[Loop],
    homes: &[Option<u32>],
) -> Result<Lists, AllocError>
    ensures { IfOk result (λ rows. AreRows loops.now homes.now rows) }
{
    let mut rows = Vec::new(alloc);
    for home in homes {
        rows.push(row_outwards(alloc, loops, *home)?)?;
    }
    Ok(Lists::new(rows))
}
