//! The order in which a reduction goes over the nodes.

ghost use Rattle.std.specs.Prelude.{◌≡◌, ◌<◌, ℕ, Bool, true, false, length, replicate, slice_index_or, IfOk, OnOk};
ghost use Rattle.std.specs.List.{All};
ghost use Rattle.pv_loops.specs.Shapes.{IsShape};
ghost use Rattle.pv_loops.specs.Reductions.{AreOthers, AreListed, KeepsListed};

use crate::shape::Shape;
use std::alloc::{AllocError, Global};

/// Each node but the entry, once: those that are reached from the entry, in reverse postorder of a walk
/// in depth, and then the others. In this order a sweep of a reduction merges each loop with no loop
/// left in it into its header, so it takes about as many sweeps as loops nest deep.
pub fn others(alloc: Global, shape: &Shape) -> Result<Vec<u32>, AllocError>
    requires { IsShape shape.now }
    ensures { IfOk result (λ nodes. AreOthers (length shape.now) nodes.items) }
{
    let order = reverse_postorder(alloc, shape)?;
    let mut list = NodeList::new(alloc, shape.len() as usize)?;
    list.add_all(&order)?;
    list.add_rest(shape.len())?;
    let NodeList { listed: _, nodes } = list;
    Ok(nodes)
}

// The nodes that are reached from the entry, in reverse postorder of a walk in depth.
fn reverse_postorder(alloc: Global, shape: &Shape) -> Result<Vec<u32>, AllocError>
    requires { IsShape shape.now }
    ensures { IfOk result (λ order. All (λ n. n < length shape.now) order.items) }
{
    let mut walk = Walk::start(alloc, shape.len() as usize)?;
    for _ in 0..u64::MAX {
        if !walk.step(shape)? {
            break;
        }
    }
    let Walk {
        seen: _,
        path: _,
        mut done,
    } = walk;
    done.reverse();
    Ok(done)
}

// A walk in depth: the nodes that are seen, the way to the last one with how many of the edges out of
// each node are followed, and the nodes that are done, in postorder.
#[derive(Drop)]
struct Walk {
    seen: Vec<bool>,
    path: Vec<(u32, usize)>,
    done: Vec<u32>,
}

impl Walk {
    ghost use Rattle.pv_loops.specs.Reductions.{IsWalk};

    // A walk of `count` nodes at the entry.
    fn start(alloc: Global, count: usize) -> Result<Walk, AllocError>
        requires { 0 < count }
        ensures { IfOk result (λ w. IsWalk count w) }
    {
        let mut seen = unmarked(alloc, count)?;
        seen[0] = true;
        let mut path = Vec::new(alloc);
        path.push((0, 0))?;
        Ok(Walk {
            seen,
            path,
            done: Vec::new(alloc),
        })
    }

    // Follows an edge, or leaves the last node of the path. False where the path is at an end.
    fn step(&mut self, shape: &Shape) -> Result<bool, AllocError>
        requires shape { IsShape shape.now }
        requires walk { IsWalk (length shape.now) self.old }
        ensures { OnOk result (IsWalk (length shape.now) self.new) }
    {
        let Some((n, k)) = self.path.pop() else {
            return Ok(false);
        };
        match shape.targets(n).get(k) {
            None => self.done.push(n)?,
            Some(t) => {
                self.path.push((n, k + 1))?;
                if !self.seen[*t as usize] {
                    self.seen[*t as usize] = true;
                    self.path.push((*t, 0))?;
                }
            }
        }
        Ok(true)
    }
}

// Nodes but the entry, each once, and for each node whether it's listed.
#[derive(Drop)]
struct NodeList {
    listed: Vec<bool>,
    nodes: Vec<u32>,
}

impl NodeList {
    // None of `count` nodes.
    fn new(alloc: Global, count: usize) -> Result<NodeList, AllocError>
        requires { 0 < count }
        ensures size { IfOk result (λ l. length l.listed.items ≡ count) }
        ensures listed { IfOk result (λ l. AreListed l.listed.items l.nodes.items) }
    {
        let mut listed = unmarked(alloc, count)?;
        listed[0] = true;
        Ok(NodeList {
            listed,
            nodes: Vec::new(alloc),
        })
    }

    // Lists these nodes.
    fn add_all(&mut self, nodes: &[u32]) -> Result<(), AllocError>
        requires listed { AreListed self.old.listed.items self.old.nodes.items }
        requires within { All (λ n. n < length self.old.listed.items) nodes.now }
        ensures size { OnOk result (length self.new.listed.items ≡ length self.old.listed.items) }
        ensures listed { OnOk result (AreListed self.new.listed.items self.new.nodes.items) }
    {
        for n in nodes {
            self.add(*n)?;
        }
        Ok(())
    }

    // Lists all nodes below `count`.
    fn add_rest(&mut self, count: u32) -> Result<(), AllocError>
        requires listed { AreListed self.old.listed.items self.old.nodes.items }
        requires size { length self.old.listed.items ≡ count }
        ensures { OnOk result (AreOthers count self.new.nodes.items) }
    {
        for n in 0..count {
            self.add(n)?;
        }
        Ok(())
    }

    // Lists a node that isn't listed.
    fn add(&mut self, n: u32) -> Result<(), AllocError>
        requires listed { AreListed self.old.listed.items self.old.nodes.items }
        requires within { n < length self.old.listed.items }
        ensures size { OnOk result (length self.new.listed.items ≡ length self.old.listed.items) }
        ensures listed { OnOk result (AreListed self.new.listed.items self.new.nodes.items) }
        ensures kept { OnOk result (KeepsListed self.old.listed.items self.new.listed.items) }
        ensures added { OnOk result (slice_index_or self.new.listed.items n false ≡ true) }
    {
        if !self.listed[n as usize] {
            self.listed[n as usize] = true;
            self.nodes.push(n)?;
        }
        Ok(())
    }
}

// A mark for each of `count` nodes, not set.
fn unmarked(alloc: Global, count: usize) -> Result<Vec<bool>, AllocError>
    ensures { IfOk result (λ marks. marks.items ≡ replicate count false) }
{
    vec![in alloc; false; count]
}
