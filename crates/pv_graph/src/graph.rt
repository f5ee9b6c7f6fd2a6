//! A graph, which numbers its nodes.

ghost use Rattle.std.specs.Prelude.{◌≡◌, ◌≢◌, ◌↔◌, ◌<◌, ◌+◌, ◌^◌, ◌∷◌, ◌++◌, [], length, slice_get, true, false, Some, List, ℕ, IsTrue, IfOk, OnOk, OnErr, vec_len, vec_capacity};
ghost use Rattle.pv_graph.specs.Graphs.{IsGraph, IsRanged, form_at};
ghost use Rattle.pv_graph.specs.Walks.{MeetsVariable};
ghost use Rattle.std.specs.Bool.{OnTrue, OnFalse};
ghost use Rattle.pv_graph.specs.Nodes.{node_of, AreTied, IsOpen, IsAbsent};
ghost use Rattle.pv_graph.specs.Index.{IsIndex};
ghost use Rattle.pv_graph.specs.Reach.{IsSearched};
ghost use Rattle.pv_graph.specs.Ops.{HasSort, is_depth, is_variable};
ghost use Rattle.pv_graph.specs.Calls.{AreFreeMarks, AreNodes, AreSettledMarks, AreSorts, Added, FitsOver, Begun, HaveItsSort, HaveOneSort, IsBase, IsDistinct, IsFinished, IsFree, IsOpenTheta, IsSame, IsSettledIn, LeavesNoSortOpen, MayAdd, Sealed, Tied, empty_graph};

use crate::base::{base_sorts, see_ranges};
use crate::fault::GraphFault;
use crate::index::Index;
use crate::known::Known;
use crate::node::{Node, NodeId, Op, OpSort};
use crate::prepared::{Prepared, prepared_of};
use crate::reach::{Look, left_out, marks_of, negated, uses_of};
use crate::sort::{sort_of, sorts_of};
use pv_value::Memory;
use std::alloc::Global;
use std::marker::Model;

// The most nodes that a graph has.
const MOST_NODES: usize = 0xFFFF_FFFF;

/// A graph, seen as its nodes and their sorts, whether it is open, how many nodes its base has, and
/// whether it is prepared.
#[derive(Drop)]
pub struct Graph {
    nodes: Vec<Node>,
    sorts: Vec<OpSort>,
    index: Index,
    is_open: bool,
    base: u32,
    prepared: Option<Prepared>,
    known: Known,
}

impl Model for Graph {
    ghost use Rattle.pv_graph.specs.Graphs as graphs;
    ghost use Rattle.pv_graph.specs.Kept.{graph_of, IsStored};

    ghost Value = { graphs.Graph };

    ghost view = { λ g. graph_of g.nodes.items g.sorts.items g.is_open g.base g.prepared };

    ghost invariant = { λ g. IsStored (graph_of g.nodes.items g.sorts.items g.is_open g.base g.prepared) g.index.numbers g.prepared g.known };
}

// Makes room for one more node, of which there are then fewer than 2^32.
fn reserve(nodes: &mut Vec<Node>, sorts: &mut Vec<OpSort>) -> Result<(), Memory>
    ensures nodes { nodes.new.items ≡ nodes.old.items }
    ensures sorts { sorts.new.items ≡ sorts.old.items }
    ensures few { OnOk result (vec_len nodes.new + 1 < 2 ^ 32) }
    ensures node_room { OnOk result (vec_len nodes.new < vec_capacity nodes.new) }
    ensures sort_room { OnOk result (vec_len sorts.new < vec_capacity sorts.new) }
{
    if nodes.len() >= MOST_NODES {
        return Err(Memory);
    }
    nodes.reserve(1)?;
    sorts.reserve(1)?;
    Ok(())
}

// Puts a node after the others, where there is room.
fn put(nodes: &mut Vec<Node>, sorts: &mut Vec<OpSort>, node: Node, sort: OpSort)
    requires node_room { vec_len nodes.old < vec_capacity nodes.old }
    requires sort_room { vec_len sorts.old < vec_capacity sorts.old }
    ensures nodes { nodes.new.items ≡ nodes.old.items ++ node ∷ [] }
    ensures sorts { sorts.new.items ≡ sorts.old.items ++ sort ∷ [] }
{
    nodes.push(node).unwrap();
    sorts.push(sort).unwrap();
}

// Copies of nodes.
fn copy_nodes(alloc: Global, nodes: &[Node]) -> Result<Vec<Node>, Memory>
    ensures { IfOk result (λ copies. copies.items ≡ nodes.now) }
{
    let mut copies = Vec::new(alloc);
    for node in nodes {
        copies.push(node.copy(alloc)?)?;
    }
    Ok(copies)
}

// The least numbers of nodes, of which there are fewer than 2^32.
fn index_of(alloc: Global, nodes: &[Node]) -> Result<Index, Memory>
    requires { length nodes.now < 2 ^ 32 }
    ensures { IfOk result (λ index. IsIndex nodes.now index.numbers) }
{
    let mut index = Index::new(alloc);
    for (n, node) in nodes.iter().enumerate() {
        if node.is_open() || index.get(node).is_some() {
            continue;
        }
        index.insert(node.copy(alloc)?, n as NodeId)?;
    }
    Ok(index)
}

// Whether two nodes have the sort of node n.
fn have_its_sort(sorts: &Vec<OpSort>, n: NodeId, first: NodeId, second: NodeId) -> bool
    requires n { n < vec_len sorts.now }
    requires first { first < vec_len sorts.now }
    requires second { second < vec_len sorts.now }
    ensures { IsTrue result ↔ HaveOneSort sorts.now.items n first second }
{
    let sort = sorts[n as usize];
    sorts[first as usize] == sort && sorts[second as usize] == sort
}

// The depth of a theta without kids.
fn depth_of(node: &Node) -> u32
    requires { IsOpen node.now }
    ensures { node.now ≡ node_of (Op.Theta result) [] }
{
    match node.op {
        Op::Theta(d) => d,
        _ => unreachable!(),
    }
}

// Whether no theta is left without kids.
fn are_tied(nodes: &[Node]) -> bool
    ensures { IsTrue result ↔ AreTied nodes.now }
{
    for node in nodes {
        if node.is_open() {
            return false;
        }
    }
    true
}

impl Graph {
    /// The graph without nodes, which is open.
    pub fn new(alloc: Global) -> Graph
        ensures { result ≡ empty_graph }
    {
        Graph {
            nodes: Vec::new(alloc),
            sorts: Vec::new(alloc),
            index: Index::new(alloc),
            is_open: true,
            base: 0,
            prepared: None,
            known: Known::new(alloc),
        }
    }

    /// The node with this number.
    pub fn node(&self, n: NodeId) -> &Node
        requires { n < length self.now.nodes }
        ensures { slice_get self.now.nodes n ≡ Some result.now }
    {
        &self.nodes[n as usize]
    }

    /// The sort of a node.
    pub fn sort(&self, n: NodeId) -> OpSort
        requires { n < length self.now.nodes }
        ensures { slice_get self.now.sorts n ≡ Some result }
    {
        self.sorts[n as usize]
    }

    /// How many nodes there are: fewer than 2^32.
    pub fn len(&self) -> u32
        ensures len { result ≡ length self.now.nodes }
        ensures graph { IsGraph self.now }
    {
        self.nodes.len() as u32
    }

    /// Whether the base is open: thetas are begun and tied, and no theta is added with its kids.
    pub fn is_open(&self) -> bool
        ensures { result ≡ self.now.is_open }
    {
        self.is_open
    }

    // Puts a node after the others, and gives it its number.
    fn append(&mut self, alloc: Global, node: Node, sort: OpSort) -> Result<NodeId, Memory>
        requires absent { IsAbsent self.old.nodes node }
        requires tied { IsOpen node → ⊥ }
        requires sorted { HasSort self.old.sorts node.op node.kids sort }
        requires ranged { IsRanged node.op }
        requires variables { self.old.is_open ≡ false → is_variable node.op ≡ false }
        ensures ok { IfOk result (λ n. Added self.old self.new node.op node.kids n) }
        ensures few { IfOk result (λ n. n + 1 < 2 ^ 32) }
        ensures err { OnErr result (IsSame self.old self.new) }
    {
        let copy = node.copy(alloc)?;
        reserve(&mut self.nodes, &mut self.sorts)?;
        let n = self.nodes.len() as NodeId;
        self.index.insert(copy, n)?;
        put(&mut self.nodes, &mut self.sorts, node, sort);
        self.prepared = None;
        if self.is_open {
            self.base = n + 1;
        }
        Ok(n)
    }

    /// The least number of the node with this operation and these kids, which is added after the others
    /// where there is none. After an error the graph is as it was: `Sort` says that the operation
    /// doesn't take such kids, `Memory` that memory ran out, that the graph has 2^32 - 1 nodes, or that it is
    /// sealed and the operation is a variable.
    pub fn add(&mut self, alloc: Global, op: Op, kids: &[NodeId]) -> Result<NodeId, GraphFault>
        requires kids { AreNodes self.old kids.now }
        requires theta { MayAdd self.old op }
        ensures ok { IfOk result (λ n. Added self.old self.new op kids.now n) }
        ensures few { IfOk result (λ n. n + 1 < 2 ^ 32) }
        ensures sort { result ≡ Err GraphFault.Sort → FitsOver self.old op kids.now → ⊥ }
        ensures err { OnErr result (IsSame self.old self.new) }
    {
        let node = Node::new(alloc, op, kids)?;
        if let Some(n) = self.index.get(&node) {
            return Ok(n);
        }
        if !self.is_open && node.op.is_variable() {
            return Err(GraphFault::Memory);
        }
        let sorts = sorts_of(alloc, &self.sorts, kids)?;
        let Some(sort) = sort_of(alloc, &node.op, &sorts)? else {
            return Err(GraphFault::Sort);
        };
        Ok(self.append(alloc, node, sort)?)
    }

    /// A theta without kids, of this depth and sort, which is added after the others. After `Memory`
    /// the graph is as it was.
    pub fn theta(&mut self, alloc: Global, d: u32, sort: OpSort) -> Result<NodeId, Memory>
        requires open { self.old.is_open ≡ true }
        requires depth { IsTrue (is_depth d) }
        requires sort { sort ≢ OpSort.R }
        ensures ok { IfOk result (λ n. Begun self.old self.new d sort n) }
        ensures err { OnErr result (IsSame self.old self.new) }
    {
        let node = Node::new(alloc, Op::Theta(d), &[])?;
        reserve(&mut self.nodes, &mut self.sorts)?;
        let n = self.nodes.len() as NodeId;
        self.known.begin(n)?;
        put(&mut self.nodes, &mut self.sorts, node, sort);
        self.prepared = None;
        self.base = n + 1;
        Ok(n)
    }

    /// Gives a theta its kids, which are of its sort. After an error the graph is as it was: `Sort` says
    /// that a kid is of another sort.
    pub fn tie(
        &mut self,
        alloc: Global,
        n: NodeId,
        first: NodeId,
        second: NodeId,
    ) -> Result<(), GraphFault>
        requires open { IsOpenTheta self.old n }
        requires kids { AreNodes self.old (first ∷ second ∷ []) }
        ensures ok { OnOk result (Tied self.old self.new n first second) }
        ensures sort { result ≡ Err GraphFault.Sort → HaveItsSort self.old n first second → ⊥ }
        ensures err { OnErr result (IsSame self.old self.new) }
    {
        if !have_its_sort(&self.sorts, n, first, second) {
            return Err(GraphFault::Sort);
        }
        let d = depth_of(&self.nodes[n as usize]);
        let node = Node::new(alloc, Op::Theta(d), &[first, second])?;
        let copy = node.copy(alloc)?;
        let least = self.index.least(&node, n);
        self.index.insert(copy, least)?;
        self.nodes[n as usize] = node;
        self.known.forget(n);
        self.prepared = None;
        Ok(())
    }

    /// Closes the base, where no theta is left without kids; else nothing changes. It takes no memory.
    pub fn seal(&mut self) -> bool
        requires { self.old.is_open ≡ true }
        ensures yes { OnTrue result (IsFinished self.old) }
        ensures sealed { OnTrue result (Sealed self.old self.new) }
        ensures no { OnFalse result (IsFinished self.old → ⊥) }
        ensures same { OnFalse result (IsSame self.old self.new) }
    {
        if !are_tied(&self.nodes) {
            return false;
        }
        self.is_open = false;
        true
    }

    /// An equal graph.
    pub fn copy(&self, alloc: Global) -> Result<Graph, Memory>
        ensures { IfOk result (λ copy. IsSame self.now copy) }
    {
        Ok(Graph {
            nodes: copy_nodes(alloc, &self.nodes)?,
            sorts: Vec::from_slice(alloc, &self.sorts)?,
            index: index_of(alloc, &self.nodes)?,
            is_open: self.is_open,
            base: self.base,
            prepared: None,
            known: Known::new(alloc),
        })
    }

    /// The sealed graph of these nodes, each of which may name later ones. `Sort` says that some node's
    /// kids are too few, too many, of the wrong sort or no nodes, `Memory` that memory ran out or that
    /// there are 2^32 nodes or more. Its time is linear in the number of nodes and kids.
    pub fn of_base(alloc: Global, nodes: Vec<Node>) -> Result<Graph, GraphFault>
        requires distinct { IsDistinct nodes.items }
        requires cycles { LeavesNoSortOpen nodes.items }
        ensures ok { IfOk result (λ g. IsBase g nodes.items) }
        ensures sort { result ≡ Err GraphFault.Sort → (sorts : List OpSort) → AreSorts nodes.items sorts → ⊥ }
    {
        if nodes.len() > MOST_NODES {
            return Err(GraphFault::Memory);
        }
        let Some(sorts) = base_sorts(alloc, &nodes)? else {
            return Err(GraphFault::Sort);
        };
        see_ranges(&nodes);
        let index = index_of(alloc, &nodes)?;
        Ok(Graph {
            base: nodes.len() as u32,
            nodes,
            sorts,
            index,
            is_open: false,
            prepared: None,
            known: Known::new(alloc),
        })
    }

    // The nodes that reach one to be reached, but not through those that are assumed.
    fn marks(&self, alloc: Global, assumed: &[NodeId], look: Look) -> Result<Vec<bool>, Memory>
        ensures { IfOk result (λ marks. IsSearched self.now.nodes assumed.now look marks.items) }
    {
        let out = left_out(alloc, self.nodes.len(), assumed)?;
        let uses = uses_of(alloc, 0, &self.nodes, &out)?;
        let marks = marks_of(alloc, &self.nodes, &out, &uses, look)?;
        Ok(marks)
    }

    /// For each node whether a depth is free in it. Its time is linear in the number of nodes and kids.
    pub fn free_marks(&self, alloc: Global, d: u32) -> Result<Vec<bool>, Memory>
        ensures { IfOk result (λ marks. AreFreeMarks self.now d marks.items) }
    {
        self.marks(alloc, &[], Look::Free(d))
    }

    /// For each node whether it is settled, with some nodes assumed to end. Its time is linear in the
    /// number of nodes, kids and assumed nodes.
    pub fn settled_marks(&self, alloc: Global, assumed: &[NodeId]) -> Result<Vec<bool>, Memory>
        ensures { IfOk result (λ marks. AreSettledMarks self.now assumed.now marks.items) }
    {
        let unsettled = self.marks(alloc, assumed, Look::All)?;
        Ok(negated(alloc, &unsettled)?)
    }

    /// Whether a depth is free in a node. Its time is linear in the number of nodes and kids.
    pub fn free(&self, alloc: Global, n: NodeId, d: u32) -> Result<bool, Memory>
        requires { n < length self.now.nodes }
        ensures { IfOk result (λ yes. IsTrue yes ↔ IsFree self.now d n) }
    {
        let free = self.free_marks(alloc, d)?;
        Ok(free[n as usize])
    }

    /// Whether a variable is reached from a node through kids through which a depth is free, so that the depth may be
    /// free in what stands for it. Its time is linear in the number of nodes and kids.
    pub fn meets_variable(&self, alloc: Global, n: NodeId, d: u32) -> Result<bool, Memory>
        requires { n < length self.now.nodes }
        ensures { IfOk result (λ yes. IsTrue yes ↔ MeetsVariable (form_at self.now.nodes) d n) }
    {
        let meets = self.marks(alloc, &[], Look::Variable(d))?;
        Ok(meets[n as usize])
    }

    /// Whether a node is settled, with some nodes assumed to end. Its time is linear in the number of
    /// nodes, kids and assumed nodes.
    pub fn settled(&self, alloc: Global, n: NodeId, assumed: &[NodeId]) -> Result<bool, Memory>
        requires { n < length self.now.nodes }
        ensures { IfOk result (λ yes. IsTrue yes ↔ IsSettledIn self.now assumed.now n) }
    {
        let settled = self.settled_marks(alloc, assumed)?;
        Ok(settled[n as usize])
    }

    /// Whether a depth is free in a node, while the graph grows: what it finds is kept, and a later call
    /// looks only at nodes that were added or may have changed since.
    pub fn free_growing(&mut self, alloc: Global, n: NodeId, d: u32) -> Result<bool, Memory>
        requires there { n < length self.old.nodes }
        requires depth { IsTrue (is_depth d) }
        ensures yes { IfOk result (λ yes. IsTrue yes ↔ IsFree self.old d n) }
        ensures same { self.new ≡ self.old }
    {
        if let Some(yes) = self.known.mark(d, n) {
            return Ok(yes);
        }
        self.known.learn(alloc, &self.nodes, d)?;
        let marks = &self.known.marks[d as usize - 1];
        Ok(marks[n as usize])
    }

    /// Keeps for every node what `free_now` and `settled_now` answer, until the next node is added or
    /// tied. Its time is linear in the number of nodes and kids.
    pub fn prepare(&mut self, alloc: Global) -> Result<(), Memory>
        ensures ok { OnOk result (self.new ≡ record self.old { is_prepared = true }) }
        ensures err { OnErr result (IsSame self.old self.new) }
    {
        let found = prepared_of(alloc, &self.nodes)?;
        self.prepared = Some(found);
        Ok(())
    }

    /// Whether a depth is free in a node, on a prepared graph. It takes no memory.
    pub fn free_now(&self, n: NodeId, d: u32) -> bool
        requires prepared { self.now.is_prepared ≡ true }
        requires there { n < length self.now.nodes }
        ensures { IsTrue result ↔ IsFree self.now d n }
    {
        match &self.prepared {
            Some(found) if 1 <= d && d <= 16 => found.free[d as usize - 1][n as usize],
            _ => false,
        }
    }

    /// Whether a node is settled, on a prepared graph. It takes no memory.
    pub fn settled_now(&self, n: NodeId) -> bool
        requires prepared { self.now.is_prepared ≡ true }
        requires there { n < length self.now.nodes }
        ensures { IsTrue result ↔ IsSettledIn self.now [] n }
    {
        match &self.prepared {
            Some(found) => !found.unsettled[n as usize],
            None => unreachable!(),
        }
    }
}
