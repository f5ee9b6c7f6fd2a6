//! The classes of the nodes of a graph.

ghost use Rattle.std.specs.Prelude.{◌≡◌, ◌≢◌, ◌<◌, ◌↔◌, [], List, length, IsTrue, IfOk, OnOk};
ghost use Rattle.std.specs.List.{All};
ghost use Rattle.pv_graph.specs.declared.node.Node.{Node};
ghost use Rattle.pv_classes.specs.Partition.{at, AreOne};
ghost use Rattle.pv_classes.specs.Numbered.{nodes_with};
ghost use Rattle.pv_classes.specs.Forms.{AreFirst, AreMembers, IsClassWith};
ghost use Rattle.pv_classes.specs.Calls.{AddsBlock, CanRestore, Closes, Copies, Grows, IsClasses, IsNew, IsSaved, Joins, Knows, KnowsFirst, Restores};

use crate::block::{Block, copy_blocks};
use crate::closing;
use crate::congruence::{Congruence, join_nodes};
use crate::forms::{first_keys, node_with};
use crate::join::{Join, Reason, copy_joins};
use crate::known::{empty_congruence, learn};
use pv_graph::{Graph, NodeId, Op};
use pv_value::Memory;
use std::alloc::Global;
use std::marker::Model;

// The most blocks that there are.
const MOST_BLOCKS: usize = 0xFFFF_FFFF;

/// Classes of the nodes of a graph, seen as the number of each node's class, the joins and the blocks,
/// and beside these an index, of which contracts say only which nodes it knows (`Knows`).
#[derive(Drop)]
pub struct Classes {
    congruence: Congruence,
    joins: Vec<Join>,
    blocks: Vec<Block>,
}

impl Model for Classes {
    ghost use Rattle.std.specs.Coded.{codes};
    ghost use Rattle.pv_classes.specs.Blocks.{block_code};
    ghost use Rattle.pv_classes.specs.Calls as calls;

    ghost Value = { calls.Classes };

    ghost coded = { Prim.hlevel (codes, block_code) };

    ghost use Rattle.pv_classes.specs.Index.{AreJoined};
    ghost use Rattle.pv_classes.specs.Congruence.{index_of};

    ghost view = { λ c. calls.classes_of (index_of c.congruence) c.joins.items c.blocks.items };

    ghost invariant = { λ c. AreJoined c.congruence.parts c.joins.items };
}

/// Classes as they were saved, without their joins and blocks.
#[derive(Drop)]
pub struct Saved {
    congruence: Congruence,
    joins: usize,
    blocks: usize,
}

impl Model for Saved {
    ghost use Rattle.pv_classes.specs.Calls as calls;
    ghost use Rattle.pv_classes.specs.Congruence.{index_of};

    ghost Value = { calls.Saved };

    ghost view = { λ s. record { index = index_of s.congruence; joins = s.joins; blocks = s.blocks } };
}

impl Classes {
    /// The classes of a graph's nodes, each of its own.
    pub fn new(alloc: Global, g: &Graph) -> Result<Classes, Memory>
        ensures { IfOk result (λ c. IsNew g.now.nodes c) }
    {
        let mut classes = Classes {
            congruence: empty_congruence(alloc)?,
            joins: Vec::new(alloc),
            blocks: Vec::new(alloc),
        };
        learn(alloc, g, &mut classes.congruence, &classes.joins)?;
        Ok(classes)
    }

    /// How many nodes there are. Like the other calls that only read, it takes no memory.
    pub fn len(&self) -> u32
        ensures len { result ≡ length self.now.numbers }
        ensures classes { IsClasses self.now }
    {
        self.congruence.parts.len()
    }

    /// Whether there is no node.
    pub fn is_empty(&self) -> bool
        ensures { IsTrue result ↔ (self.now.numbers ≡ []) }
    {
        self.congruence.parts.len() == 0
    }

    /// The number of a node's class, which is the least node of that class.
    pub fn of(&self, n: NodeId) -> NodeId
        requires { n < length self.now.numbers }
        ensures { result ≡ at self.now.numbers n }
    {
        self.congruence.parts.number(n)
    }

    /// Whether two nodes are in one class.
    pub fn joined(&self, a: NodeId, b: NodeId) -> bool
        requires first { a < length self.now.numbers }
        requires second { b < length self.now.numbers }
        ensures { IsTrue result ↔ AreOne self.now.numbers a b }
    {
        self.of(a) == self.of(b)
    }

    /// The numbers of all nodes' classes, by node.
    pub fn numbers(&self, alloc: Global) -> Result<Vec<NodeId>, Memory>
        ensures { IfOk result (λ numbers. numbers.items ≡ self.now.numbers) }
    {
        self.congruence.parts.numbers(alloc)
    }

    /// The nodes of a node's class: one of them, and the others, in no order.
    pub fn members(&self, n: NodeId) -> (NodeId, &[NodeId])
        requires { n < length self.now.numbers }
        ensures { AreMembers self.now.numbers n result.0 result.1.now }
    {
        self.congruence.parts.members(n)
    }

    /// The number of a class with a node of this operation whose kids are, place by place, in the classes of
    /// these nodes, if there is one. It is found by one look-up, and by a look at the nodes that wait. After a
    /// closing with no fixed depth none waits, and such nodes are in one class.
    pub fn class_with(
        &self,
        alloc: Global,
        g: &Graph,
        op: &Op,
        over: &[NodeId],
    ) -> Result<Option<NodeId>, Memory>
        requires knows { Knows g.now.nodes self.now }
        requires over { All (λ k. k < length self.now.numbers) over.now }
        ensures { IfOk result (λ found. IsClassWith g.now.nodes self.now.numbers op.now over.now found) }
    {
        match node_with(alloc, g, &self.congruence, op, over)? {
            Some(n) => Ok(Some(self.congruence.parts.number(n))),
            None => Ok(None),
        }
    }

    /// For each node whether it is the first of its form in its class. The form of a node is its operation over the classes of
    /// its kids: two nodes of one form match the same patterns. It takes a key of each node that isn't alone in its class.
    pub fn first_of_forms(&self, alloc: Global, g: &Graph) -> Result<Vec<bool>, Memory>
        requires { Knows g.now.nodes self.now }
        ensures { IfOk result (λ firsts. AreFirst g.now.nodes self.now.numbers firsts.items) }
    {
        first_keys(alloc, g, &self.congruence.parts)
    }

    /// All joins so far, those of `close` included, the oldest first.
    pub fn joins(&self) -> &[Join]
        ensures { result.now ≡ self.now.joins }
    {
        &self.joins
    }

    /// The added blocks in order.
    pub fn blocks(&self) -> &[Block]
        ensures { result.now ≡ self.now.blocks }
    {
        &self.blocks
    }

    /// The nodes whose operation has this number, ascending: none, for a number that no node has.
    pub fn nodes_with(&self, number: u8) -> &[NodeId]
        ensures { (nodes : List Node) → Knows nodes self.now → result.now ≡ nodes_with number nodes }
    {
        self.congruence.known.by_number.get(u32::from(number))
    }

    /// Gives each new node of the graph a class of its own. Where copies are still there, the index is made
    /// anew, and the next closing looks at all nodes; so drop copies before.
    pub fn grow(&mut self, alloc: Global, g: &Graph) -> Result<(), Memory>
        requires { KnowsFirst g.now.nodes self.old }
        ensures { OnOk result (Grows g.now.nodes self.old self.new) }
    {
        learn(alloc, g, &mut self.congruence, &self.joins)
    }

    /// Joins the classes of two nodes, for a reason other than that of `close`. All calls together move the n nodes
    /// n log n times at most, and put the parents of each node that moves with those that wait.
    pub fn join(&mut self, alloc: Global, a: NodeId, b: NodeId, why: Reason) -> Result<(), Memory>
        requires first { a < length self.old.numbers }
        requires second { b < length self.old.numbers }
        requires why { why ≢ Reason.Kids }
        ensures { OnOk result (Joins self.old self.new a b why) }
    {
        let join = Join {
            first: a,
            second: b,
            why,
        };
        join_nodes(alloc, &mut self.congruence, &mut self.joins, join)
    }

    /// Joins nodes of one operation with joined kids, but thetas, evals, passes and shifts of a fixed
    /// depth, until none is left. Only the nodes are looked at whose kids' classes changed since the last
    /// closing.
    pub fn close(&mut self, alloc: Global, g: &Graph, fixed: &[u32]) -> Result<(), Memory>
        requires { Knows g.now.nodes self.old }
        ensures { OnOk result (Closes g.now.nodes fixed.now self.old self.new) }
    {
        closing::close(alloc, g, fixed, &mut self.congruence, &mut self.joins)
    }

    /// Equal classes, with the same joins and blocks, which are copied. Where the copy is let go again, `save` costs less.
    pub fn copy(&self, alloc: Global) -> Result<Classes, Memory>
        ensures { IfOk result (λ copy. Copies self.now copy) }
    {
        Ok(Classes {
            congruence: self.congruence.copy(alloc)?,
            joins: copy_joins(alloc, &self.joins)?,
            blocks: copy_blocks(alloc, &self.blocks)?,
        })
    }

    /// Saves the classes, all but the joins and blocks, and goes on with equal ones, which share the index. So what is
    /// joined from here on can be taken back by `restore`. It costs no more where there are many joins.
    pub fn save(&mut self, alloc: Global) -> Result<Saved, Memory>
        ensures saved { IfOk result (λ saved. IsSaved self.old saved) }
        ensures same { OnOk result (Copies self.old self.new) }
    {
        let copy = self.congruence.copy(alloc)?;
        let congruence = std::mem::replace(&mut self.congruence, copy);
        Ok(Saved {
            congruence,
            joins: self.joins.len(),
            blocks: self.blocks.len(),
        })
    }

    /// Goes back to classes that were saved before, and gives the joins and the blocks since then.
    pub fn restore(
        &mut self,
        alloc: Global,
        saved: Saved,
    ) -> Result<(Vec<Join>, Vec<Block>), Memory>
        requires { CanRestore saved self.old }
        ensures { IfOk result (λ more. Restores saved self.old self.new more.0.items more.1.items) }
    {
        let Saved {
            congruence,
            joins,
            blocks,
        } = saved;
        let blocks = self.blocks.split_off(blocks)?;
        let joins = self.joins.split_off(joins)?;
        self.congruence = congruence;
        Ok((joins, blocks))
    }

    /// Puts a block after the others, and gives its number, which counts from 0.
    pub fn add_block(&mut self, block: Block) -> Result<u32, Memory>
        ensures { IfOk result (λ n. AddsBlock self.old self.new block n) }
    {
        if self.blocks.len() >= MOST_BLOCKS {
            return Err(Memory);
        }
        let n = self.blocks.len() as u32;
        self.blocks.push(block)?;
        Ok(n)
    }
}
