//! The trees of a method's flow.

ghost use Rattle.std.specs.Prelude.{◌≡◌, ◌<◌, ◌↔◌, length, map, IfOk, IsTrue};
ghost use Rattle.pv_loops.specs.Ranks.{around};
ghost use Rattle.pv_decide.specs.Trees.{AreForWalks, AreReady, AreOf, IsRegion, scope_of, IsTreeOf, IsSound, IsSite, AreSites};

use crate::aim::{Aim, Scope};
use crate::reaching::ahead;
use crate::site::Site;
use crate::tree::{Region, Target, Tree};
use crate::walking::walk;
use pv_flow::{Block, Flow};
use pv_loops::Forest;
use pv_value::Memory;
use std::alloc::{AllocError, Global};

/// What all walks through the blocks of a method need: the blocks, an order of them that edges follow but
/// for those back to headers, the headers of the loops, and from which blocks an end of the method is known
/// to be ahead, whatever is looked for.
#[derive(Debug, Drop)]
pub struct Trees {
    sites: Vec<Site>,
    order: Vec<u32>,
    headers: Vec<u32>,
    ends: Vec<bool>,
}

impl Trees {
    /// What walks need of a flow and the forest of its loops. A block with 2^32 exits counts as out of memory.
    pub fn new(alloc: Global, flow: &Flow, forest: &Forest) -> Result<Trees, Memory>
        requires { AreForWalks flow.now forest.now }
        ensures { IfOk result (λ trees. AreOf flow.now forest.now trees) }
    {
        let sites = sites(alloc, flow, forest)?;
        let none = vec![in alloc; false; sites.len()]?;
        let ends = ahead(
            &sites,
            Aim {
                scope: Scope::Whole,
                target: Target::Exit,
            },
            none,
        );
        Ok(Trees {
            sites,
            order: Vec::from_slice(alloc, &forest.order)?,
            headers: headers(alloc, forest)?,
            ends,
        })
    }

    /// The tree of a region for a target. Folded with what the exits and tests give, it gives what the
    /// equations say.
    pub fn walk(&self, alloc: Global, region: Region, target: Target) -> Result<Tree, Memory>
        requires ready { AreReady self.now }
        requires region { IsRegion self.now region }
        ensures gives { IfOk result (λ tree. IsTreeOf self.now region target tree) }
        ensures sound { IfOk result (λ tree. IsSound self.now region target tree) }
    {
        let aim = Aim {
            scope: self.scope(region),
            target,
        };
        let ends = Vec::from_slice(alloc, &self.ends)?;
        let ahead = ahead(&self.sites, aim, ends);
        let nodes = walk(alloc, &self.sites, &self.order, aim, &ahead)?;
        Ok(Tree { nodes })
    }

    /// Whether this is the whole method or one of its loops.
    pub fn has(&self, region: Region) -> bool
        ensures { IsTrue result ↔ IsRegion self.now region }
    {
        match region {
            Region::Top => true,
            Region::Loop(i) => (i as usize) < self.headers.len(),
        }
    }

    // The region, by the header of its loop.
    fn scope(&self, region: Region) -> Scope
        requires { IsRegion self.now region }
        ensures { result ≡ scope_of self.now region }
    {
        match region {
            Region::Top => Scope::Whole,
            Region::Loop(i) => Scope::Loop(self.headers[i as usize]),
        }
    }
}

// The headers of the loops around a block, the innermost first.
fn headers_around(alloc: Global, forest: &Forest, b: u32) -> Result<Vec<u32>, Memory>
    requires { b < length forest.now.home.items }
    ensures { IfOk result (λ headers. headers.items ≡ around forest.now b) }
{
    let mut headers = Vec::new(alloc);
    let row = forest.around(b);
    for i in row {
        headers.push(forest.loops[*i as usize].header)?;
    }
    Ok(headers)
}

// The block as walks see it.
fn site(alloc: Global, block: &Block, forest: &Forest, b: u32) -> Result<Site, Memory>
    requires { b < length forest.now.home.items }
    ensures { IfOk result (λ site. IsSite block.now forest.now b site) }
{
    let exits = Vec::from_slice(alloc, block.exits.as_slice())?;
    if exits.len() > 0xFFFF_FFFF {
        return Err(Memory);
    }
    let around = headers_around(alloc, forest, b)?;
    Ok(Site { around, exits })
}

// The blocks as walks see them.
fn sites(alloc: Global, flow: &Flow, forest: &Forest) -> Result<Vec<Site>, Memory>
    requires { AreForWalks flow.now forest.now }
    ensures { IfOk result (λ sites. AreSites flow.now forest.now sites.items) }
{
    let mut sites = Vec::new(alloc);
    for (b, block) in flow.blocks.as_slice().iter().enumerate() {
        sites.push(site(alloc, block, forest, b as u32)?)?;
    }
    Ok(sites)
}

// The headers of the loops of a forest.
fn headers(alloc: Global, forest: &Forest) -> Result<Vec<u32>, AllocError>
    ensures { IfOk result (λ headers. headers.items ≡ map (λ l. l.header) forest.now.loops.items) }
{
    forest.loops.iter().map(|l| l.header).collect(alloc)
}
