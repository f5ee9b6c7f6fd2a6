//! An order of the nodes in which those of a loop stand together.

ghost use Rattle.std.specs.Prelude.{◌≡◌, ◌<◌, ◌^◌, ◌∷◌, ℕ, [], length, map, reverse, slice_get, slice_index, slice_index_or, Some, IfOk};
ghost use Rattle.std.specs.Cmp.Lexicographic.{slice_cmp};
ghost use Rattle.std.specs.List.{All};
ghost use Rattle.std.specs.List.Sorted.{IsPermutation, IsSortedByKey};
ghost use Rattle.std.specs.Ordering.{nat_cmp};
ghost use Rattle.pv_loops.specs.Outwards.{header_at};
ghost use Rattle.pv_loops.specs.Keys.{key_at, IsKey, AreKeys};

use crate::forest::Loop;
use crate::lists::Lists;
use std::alloc::{AllocError, Global};

// The key of a node inside the loops at these places: the places of their headers in an order of the
// nodes, the outermost first, and then its own.
fn key(
    alloc: Global,
    loops: &[Loop],
    place: &[usize],
    row: &[u32],
    node: u32,
) -> Result<Vec<usize>, AllocError>
    requires node { node < length place.now }
    requires headers { (i : ℕ) (l : Loop) → slice_get loops.now i ≡ Some l → l.header < length place.now }
    requires row { All (λ i. i < length loops.now) row.now }
    ensures { IfOk result (λ key. IsKey place.now (node ∷ map (header_at loops.now) row.now) key.items) }
{
    let mut key = Vec::new(alloc);
    key.push(place[node as usize])?;
    for i in row {
        key.push(place[loops[*i as usize].header as usize])?;
    }
    key.reverse();
    Ok(key)
}

/// The keys of all nodes, whose loops are these.
pub fn keys(
    alloc: Global,
    loops: &[Loop],
    place: &[usize],
    rows: &Lists,
) -> Result<Vec<Vec<usize>>, AllocError>
    requires size { length rows.now ≡ length place.now }
    requires small { length place.now < 2 ^ 32 }
    requires headers { (i : ℕ) (l : Loop) → slice_get loops.now i ≡ Some l → l.header < length place.now }
    requires rows { (x : ℕ) → x < length rows.now → All (λ i. i < length loops.now) (slice_index_or rows.now x []) }
    ensures { IfOk result (λ keys. AreKeys loops.now place.now rows.now keys.items) }
{
    let mut keys = Vec::new(alloc);
    for x in 0..place.len() as u32 {
        keys.push(key(alloc, loops, place, rows.get(x), x)?)?;
    }
    Ok(keys)
}

// The key of a node, or an empty one where there is none.
fn key_of(keys: &[Vec<usize>], x: u32) -> &[usize]
    ensures { result.now ≡ key_at keys.now x }
{
    match keys.get(x as usize) {
        Some(key) => key.as_slice(),
        None => &[],
    }
}

/// These nodes, by their keys.
pub fn sorted_by_key(nodes: Vec<u32>, keys: &[Vec<usize>]) -> Vec<u32>
    ensures permutation { IsPermutation nodes.items result.items }
    ensures sorted { IsSortedByKey (key_at keys.now) (slice_cmp nat_cmp) result.items }
{
    let mut nodes = nodes;
    nodes.sort_unstable_by(|a, b| key_of(keys, *a).cmp(key_of(keys, *b)));
    nodes
}
