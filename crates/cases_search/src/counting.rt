//! Calls of `pv_counted`.
//!
//! | Line | Answer |
//! |---|---|
//! | `counted BYTES PLACE BYTES PLACE` | the counted nodes of the least graph of the roots of two methods, each at its place in a class file |
//! | `cleared BYTES PLACE BYTES PLACE` | the roots of its cleared graph, and the operation and the kids of each node |

use crate::methods::least_of_two;
use crate::showing::all_nodes_text;
use cases_words::answers::Answer;
use cases_words::bench::{Bench, words};
use pv_counted::{clear, counted as counted_nodes};

/// `counted BYTES PLACE BYTES PLACE`
pub fn counted(bench: &Bench, rest: &str) -> Answer {
    let alloc = bench.alloc();
    let least = least_of_two(bench, &words(alloc, rest)?)?;
    let nodes = counted_nodes(alloc, &least)?;
    Ok(format!(in alloc; "{nodes:?}")?)
}

/// `cleared BYTES PLACE BYTES PLACE`
pub fn cleared(bench: &Bench, rest: &str) -> Answer {
    let alloc = bench.alloc();
    let least = least_of_two(bench, &words(alloc, rest)?)?;
    let cleared = clear(alloc, &least)?;
    let nodes = all_nodes_text(alloc, cleared.graph())?;
    Ok(format!(in alloc; "{} {}: {nodes}", cleared.first(), cleared.second())?)
}
