//! The trees of linked nodes.

ghost use Rattle.std.specs.Prelude.{◌≡◌, ◌≢◌, ◌<◌, ◌≤◌, ◌+◌, ◌∷◌, ◌++◌, [], ℕ, suc, length, slice_get, slice_set, Some, None, IfOk, IfSome, OnOk, OnErr, IsTrue, ◌↔◌, vec_len};
ghost use Rattle.pv_paths.specs.Paths.{AreLinked, AreTops, Crosses, Joined, Leads, join_of};
ghost use Rattle.pv_paths.specs.Trees.{AreBare, AreMet, AreTopsAt, Climbs, HasLink, IsForest, IsKept, IsMiddle, IsOlder, IsRoot, IsSplit, IsTop, IsWithin, Rises, down_way, labels, up_way};

use pv_value::Memory;
use std::alloc::Global;
use std::marker::Model;

/// A join that is crossed, by its number: from its first node to its second, or back.
#[derive(Clone, Copy, Debug)]
pub enum Way {
    Forth(usize),
    Back(usize),
}

impl Way {
    /// The number of the join.
    pub fn join(self) -> usize
        ensures { result ≡ join_of self }
    {
        match self {
            Way::Forth(join) => join,
            Way::Back(join) => join,
        }
    }
}

// The link upwards of a node, made by a join, of which the first or the second node was below.
#[derive(Clone, Copy)]
struct Link {
    up: u32,
    join: usize,
    is_first: bool,
}

// A join that is crossed on the way from one of its nodes to the other.
#[derive(Clone, Copy)]
struct Middle {
    way: Way,
    from: u32,
    to: u32,
}

// The older of the links of two nodes.
#[derive(Clone, Copy)]
enum Next {
    Left(Link),
    Right(Link),
    Neither,
}

// What is left to do on a path: to get from one node to another by the joins before a number, or to cross a join.
#[derive(Clone, Copy)]
enum Leg {
    Reach(u32, u32, usize),
    Cross(Way),
}

/// Joins of nodes, seen as the number of nodes and the two nodes of each join.
#[derive(Drop)]
pub struct Forest {
    ends: Vec<(u32, u32)>,
    links: Vec<Option<Link>>,
    ranks: Vec<u32>,
}

impl Model for Forest {
    ghost use Rattle.std.specs.Prelude.{length};
    ghost use Rattle.pv_paths.specs.Paths.{Joined};

    ghost Value = { Joined };

    ghost use Rattle.pv_paths.specs.Trees.{IsKept};

    ghost view = { λ f. record { nodes = length f.links.items; ends = f.ends.items } };

    ghost invariant = { λ f. IsKept f.links.items f.ends.items f.ranks.items };
}

// No link for each node.
fn bare_links(alloc: Global, nodes: usize) -> Result<Vec<Option<Link>>, Memory>
    ensures { IfOk result (λ links. AreBare nodes links.items) }
{
    let mut links = Vec::with_capacity(alloc, nodes)?;
    for i in 0..nodes {
        links.push(None)?;
    }
    Ok(links)
}

// The node at the top of the tree of a node.
fn top(links: &[Option<Link>], n: u32) -> u32
    requires rises { Rises links.now }
    requires within { IsWithin links.now }
    requires node { n < length links.now }
    ensures root { IsRoot links.now result }
    ensures climbs { (t : ℕ) → labels links.now ≤ t → Climbs links.now t n result }
{
    let mut top = n;
    while let Some(link) = links[top as usize] {
        top = link.up;
    }
    top
}

// The link upwards of a node, if a join before this number made it.
fn link_before(links: &[Option<Link>], before: usize, n: u32) -> Option<Link>
    requires { n < length links.now }
    ensures link { IfSome result (λ l. HasLink links.now n l) }
    ensures before { IfSome result (λ l. l.join < before) }
    ensures none { result ≡ None → IsTop links.now before n }
{
    match links[n as usize] {
        Some(link) => { if link.join < before { Some(link) } else { None } }
        None => None,
    }
}

// The node at the top of the tree of a node, by the links that joins before this number made.
fn top_before(links: &[Option<Link>], before: usize, n: u32) -> u32
    requires rises { Rises links.now }
    requires within { IsWithin links.now }
    requires node { n < length links.now }
    ensures node { result < length links.now }
    ensures climbs { Climbs links.now before n result }
{
    let mut top = n;
    while let Some(link) = link_before(links, before, top) {
        top = link.up;
    }
    top
}

// .. for each of the first nodes.
fn tops_before(
    alloc: Global,
    links: &[Option<Link>],
    before: usize,
    nodes: u32,
) -> Result<Vec<u32>, Memory>
    requires rises { Rises links.now }
    requires within { IsWithin links.now }
    requires nodes { nodes ≤ length links.now }
    ensures { IfOk result (λ tops. AreTopsAt links.now before nodes tops.items) }
{
    let mut tops = Vec::new(alloc);
    for n in 0..nodes {
        tops.push(top_before(links, before, n))?;
    }
    Ok(tops)
}

// The join of a link, crossed upwards.
fn upwards(ends: &[(u32, u32)], link: Link) -> Middle
    requires { link.join < length ends.now }
    ensures crosses { Crosses ends.now (suc link.join) result.way result.from result.to }
    ensures way { result.way ≡ up_way link }
{
    let (first, second) = ends[link.join];
    if link.is_first {
        Middle {
            way: Way::Forth(link.join),
            from: first,
            to: second,
        }
    } else {
        Middle {
            way: Way::Back(link.join),
            from: second,
            to: first,
        }
    }
}

// The join of a link, crossed downwards.
fn downwards(ends: &[(u32, u32)], link: Link) -> Middle
    requires { link.join < length ends.now }
    ensures crosses { Crosses ends.now (suc link.join) result.way result.from result.to }
    ensures way { result.way ≡ down_way link }
{
    let (first, second) = ends[link.join];
    if link.is_first {
        Middle {
            way: Way::Back(link.join),
            from: second,
            to: first,
        }
    } else {
        Middle {
            way: Way::Forth(link.join),
            from: first,
            to: second,
        }
    }
}

// The older of two links, each of which may be missing.
fn older(left: Option<Link>, right: Option<Link>) -> Next
    ensures { IsOlder left right result }
{
    match left {
        Some(link) => match right {
            Some(other) => {
                if other.join < link.join {
                    Next::Right(other)
                } else {
                    Next::Left(link)
                }
            }
            None => Next::Left(link),
        },
        None => match right {
            Some(other) => Next::Right(other),
            None => Next::Neither,
        },
    }
}

// The newest join between two nodes that are not one, and that have one top at some time.
fn newest(links: &[Option<Link>], ends: &[(u32, u32)], a: u32, b: u32) -> Middle
    requires forest { IsForest links.now ends.now }
    requires first { a < length links.now }
    requires second { b < length links.now }
    requires apart { a ≢ b }
    requires met { (t : ℕ) × AreMet links.now t a b }
    ensures { IsMiddle links.now ends.now a b result (join_of result.way) }
{
    let (mut x, mut y) = (a, b);
    'climbing: loop {
        match older(links[x as usize], links[y as usize]) {
            Next::Left(link) => {
                if link.up == y {
                    return upwards(ends, link);
                }
                x = link.up;
            }
            Next::Right(link) => {
                if link.up == x {
                    return downwards(ends, link);
                }
                y = link.up;
            }
            Next::Neither => unreachable!(),
        }
    }
}

// Puts the two parts of a way between two nodes, which are one or met, and the join between them on a stack,
// the first part on top.
fn split(
    links: &[Option<Link>],
    ends: &[(u32, u32)],
    legs: &mut Vec<Leg>,
    from: u32,
    to: u32,
) -> Result<(), Memory>
    requires forest { IsForest links.now ends.now }
    requires first { from < length links.now }
    requires second { to < length links.now }
    requires met { (t : ℕ) × AreMet links.now t from to }
    ensures { OnOk result (IsSplit links.now ends.now from to legs.old.items legs.new.items) }
{
    if from == to {
        return Ok(());
    }
    let middle = newest(links, ends, from, to);
    let join = middle.way.join();
    legs.push(Leg::Reach(middle.to, to, join))?;
    legs.push(Leg::Cross(middle.way))?;
    legs.push(Leg::Reach(from, middle.from, join))?;
    Ok(())
}

// A path between two nodes that have one top before a join, through the joins before it.
fn path_between(
    alloc: Global,
    links: &[Option<Link>],
    ends: &[(u32, u32)],
    before: usize,
    a: u32,
    b: u32,
) -> Result<Vec<Way>, Memory>
    requires forest { IsForest links.now ends.now }
    requires first { a < length links.now }
    requires second { b < length links.now }
    requires met { AreMet links.now before a b }
    ensures { IfOk result (λ path. Leads ends.now before path.items a b) }
{
    let mut path = Vec::new(alloc);
    let mut legs = Vec::new(alloc);
    legs.push(Leg::Reach(a, b, before))?;
    'legs: while let Some(leg) = legs.pop() {
        match leg {
            Leg::Reach(from, to, _before) => split(links, ends, &mut legs, from, to)?,
            Leg::Cross(way) => path.push(way)?,
        }
    }
    Ok(path)
}

// Sets the link of the top of a tree.
fn set_link(links: &mut Vec<Option<Link>>, n: u32, link: Link)
    requires { n < length links.old.items }
    ensures { links.new.items ≡ slice_set links.old.items n (Some link) }
{
    links[n as usize] = Some(link);
}

// Whether the tree of a top has the greater rank.
fn is_higher(ranks: &Vec<u32>, x: u32, y: u32) -> bool
    requires first { x < length ranks.now.items }
    requires second { y < length ranks.now.items }
{
    ranks[x as usize] > ranks[y as usize]
}

// The rank of the top y, where x is put under it.
fn raise(ranks: &mut Vec<u32>, x: u32, y: u32)
    requires first { x < length ranks.old.items }
    requires second { y < length ranks.old.items }
    ensures { length ranks.new.items ≡ length ranks.old.items }
{
    if ranks[x as usize] == ranks[y as usize] {
        ranks[y as usize] = ranks[y as usize].saturating_add(1);
    }
}

// Takes one more join: where its nodes aren't linked yet, the tree of lower rank is put under the other.
fn unite(
    links: &mut Vec<Option<Link>>,
    ranks: &mut Vec<u32>,
    ends: &[(u32, u32)],
    first: u32,
    second: u32,
)
    requires kept { IsKept links.old.items ends.now ranks.old.items }
    requires first { first < length links.old.items }
    requires second { second < length links.old.items }
    ensures kept { IsKept links.new.items (ends.now ++ (first, second) ∷ []) ranks.new.items }
    ensures nodes { length links.new.items ≡ length links.old.items }
{
    let (x, y) = (top(links, first), top(links, second));
    if x == y {
        return;
    }
    let join = ends.len();
    if is_higher(ranks, x, y) {
        let link = Link {
            up: x,
            join,
            is_first: false,
        };
        set_link(links, y, link);
        return;
    }
    raise(ranks, x, y);
    let link = Link {
        up: y,
        join,
        is_first: true,
    };
    set_link(links, x, link);
}

impl Forest {
    /// The forest of some nodes, without joins.
    pub fn new(alloc: Global, nodes: usize) -> Result<Forest, Memory>
        ensures { IfOk result (λ f. f ≡ record { nodes = nodes; ends = [] }) }
    {
        Ok(Forest {
            ends: Vec::new(alloc),
            links: bare_links(alloc, nodes)?,
            ranks: vec![in alloc; 0; nodes]?,
        })
    }

    /// Puts a join of two nodes after the others. Where memory runs out the forest stays as it was. The time is that
    /// of two climbs to the top of a tree, whose height grows with the logarithm of the number of its nodes.
    pub fn push(&mut self, first: u32, second: u32) -> Result<(), Memory>
        requires first { first < self.old.nodes }
        requires second { second < self.old.nodes }
        ensures nodes { self.new.nodes ≡ self.old.nodes }
        ensures ok { OnOk result (self.new.ends ≡ self.old.ends ++ (first, second) ∷ []) }
        ensures err { OnErr result (self.new.ends ≡ self.old.ends) }
    {
        self.ends.reserve(1)?;
        unite(&mut self.links, &mut self.ranks, &self.ends, first, second);
        self.ends.push((first, second)).unwrap();
        Ok(())
    }

    /// A path between two nodes that are linked by the first `before` joins, through these joins alone. The time is
    /// that of one climb for each join of the path. Out of memory is the one error.
    pub fn path(&self, alloc: Global, before: usize, a: u32, b: u32) -> Result<Vec<Way>, Memory>
        requires first { a < self.now.nodes }
        requires second { b < self.now.nodes }
        requires linked { AreLinked self.now.ends before a b }
        ensures { IfOk result (λ path. Leads self.now.ends before path.items a b) }
    {
        path_between(alloc, &self.links, &self.ends, before, a, b)
    }
    /// For each of the first `nodes` nodes the top of its tree by the first `before` joins: a node that they link to it,
    /// and the same one for all nodes that they link. The time is that of one climb for each node. Out of memory is the one error.
    pub fn tops(&self, alloc: Global, before: usize, nodes: u32) -> Result<Vec<u32>, Memory>
        requires { nodes ≤ self.now.nodes }
        ensures { IfOk result (λ tops. AreTops self.now before nodes tops.items) }
    {
        tops_before(alloc, &self.links, before, nodes)
    }
}
