//! Steps under new numbers.

ghost use Rattle.std.specs.Prelude.{◌≡◌, IfOk, map};
ghost use Rattle.pv_trim.specs.Moving.{count, moved, moved_congruence, moved_fact, moved_facts, moved_pair, moved_reason};
ghost use Rattle.pv_trim.specs.Marks.{is_on};

use crate::ranks::Ranks;
use pv_graph::{Kids, NodeId};
use pv_list::Listed;
use pv_steps::{Congruence, Fact, Reason, Step};
use pv_value::Memory;
use std::alloc::Global;

// The kept nodes and steps, which have new numbers.
#[derive(Drop)]
pub(crate) struct Numbers {
    pub(crate) nodes: Ranks,
    pub(crate) steps: Ranks,
}

impl Numbers {
    fn node(&self, n: NodeId) -> NodeId
        ensures { result ≡ count (is_on self.now.nodes) n }
    {
        self.nodes.before(n)
    }

    fn pair(&self, pair: (NodeId, NodeId)) -> (NodeId, NodeId)
        ensures { result ≡ moved_pair (count (is_on self.now.nodes)) pair }
    {
        (self.node(pair.0), self.node(pair.1))
    }

    fn fact(&self, fact: Fact) -> Fact
        ensures { result ≡ moved_fact (count (is_on self.now.steps)) fact }
    {
        Fact {
            step: self.steps.before(fact.step),
            place: fact.place,
        }
    }

    fn facts(&self, pair: (Fact, Fact)) -> (Fact, Fact)
        ensures { result ≡ moved_facts (count (is_on self.now.steps)) pair }
    {
        (self.fact(pair.0), self.fact(pair.1))
    }

    fn reason(&self, reason: Reason) -> Reason
        ensures { result ≡ moved_reason (count (is_on self.now.steps)) reason }
    {
        match reason {
            Reason::Same => Reason::Same,
            Reason::By(fact) => Reason::By(self.fact(fact)),
            Reason::Pair(j) => Reason::Pair(j),
        }
    }

    fn kids(&self, alloc: Global, kids: &[NodeId]) -> Result<Kids, Memory>
        ensures { IfOk result (λ new. new ≡ map (count (is_on self.now.nodes)) kids.now) }
    {
        let mut new = Vec::new(alloc);
        for n in kids {
            new.push(self.node(*n))?;
        }
        Kids::new(alloc, &new)
    }

    fn pairs(
        &self,
        alloc: Global,
        pairs: &[(NodeId, NodeId)],
    ) -> Result<Listed<(NodeId, NodeId)>, Memory>
        ensures { IfOk result (λ new. new ≡ map (moved_pair (count (is_on self.now.nodes))) pairs.now) }
    {
        let mut new = Vec::new(alloc);
        for pair in pairs {
            new.push(self.pair(*pair))?;
        }
        Ok(Listed::from(new))
    }

    fn fact_pairs(
        &self,
        alloc: Global,
        pairs: &[(Fact, Fact)],
    ) -> Result<Listed<(Fact, Fact)>, Memory>
        ensures { IfOk result (λ new. new ≡ map (moved_facts (count (is_on self.now.steps))) pairs.now) }
    {
        let mut new = Vec::new(alloc);
        for pair in pairs {
            new.push(self.facts(*pair))?;
        }
        Ok(Listed::from(new))
    }

    fn reasons(&self, alloc: Global, reasons: &[Reason]) -> Result<Listed<Reason>, Memory>
        ensures { IfOk result (λ new. new ≡ map (moved_reason (count (is_on self.now.steps))) reasons.now) }
    {
        let mut new = Vec::new(alloc);
        for reason in reasons {
            new.push(self.reason(*reason))?;
        }
        Ok(Listed::from(new))
    }

    fn congruence(&self, alloc: Global, congruence: &Congruence) -> Result<Congruence, Memory>
        ensures { IfOk result (λ new. new ≡ moved_congruence (count (is_on self.now.nodes)) (count (is_on self.now.steps)) congruence.now) }
    {
        Ok(Congruence {
            left: self.node(congruence.left),
            right: self.node(congruence.right),
            reasons: self.reasons(alloc, congruence.reasons.as_slice())?,
        })
    }

    fn set(&self, alloc: Global, set: &[Congruence]) -> Result<Listed<Congruence>, Memory>
        ensures { IfOk result (λ new. new ≡ map (moved_congruence (count (is_on self.now.nodes)) (count (is_on self.now.steps))) set.now) }
    {
        let mut new = Vec::new(alloc);
        for congruence in set {
            new.push(self.congruence(alloc, congruence)?)?;
        }
        Ok(Listed::from(new))
    }

    // The step under the new numbers.
    pub(crate) fn step(&self, alloc: Global, step: &Step) -> Result<Step, Memory>
        ensures { IfOk result (λ new. new ≡ moved (count (is_on self.now.nodes)) (count (is_on self.now.steps)) step.now) }
    {
        Ok(match step {
            Step::Node(n, op, kids) => Step::Node(
                self.node(*n),
                op.copy(alloc)?,
                self.kids(alloc, kids.as_slice())?,
            ),
            Step::Axiom(number, a, b, nodes) => Step::Axiom(
                *number,
                self.node(*a),
                self.node(*b),
                self.kids(alloc, nodes.as_slice())?,
            ),
            Step::Use(number, a, b, nodes) => Step::Use(
                *number,
                self.node(*a),
                self.node(*b),
                self.kids(alloc, nodes.as_slice())?,
            ),
            Step::Flip(a, b, fact) => Step::Flip(self.node(*a), self.node(*b), self.fact(*fact)),
            Step::Chain(a, b, first, second) => Step::Chain(
                self.node(*a),
                self.node(*b),
                self.fact(*first),
                self.fact(*second),
            ),
            Step::Set(set) => Step::Set(self.set(alloc, set.as_slice())?),
            Step::Open(d, pairs) => Step::Open(*d, self.pairs(alloc, pairs.as_slice())?),
            Step::Close(d, facts) => Step::Close(*d, self.fact_pairs(alloc, facts.as_slice())?),
            Step::Assume(p, nodes) => {
                Step::Assume(self.node(*p), self.kids(alloc, nodes.as_slice())?)
            }
            Step::Finish(p, q, token, fault, result, heap) => Step::Finish(
                self.node(*p),
                self.node(*q),
                self.reason(*token),
                self.reason(*fault),
                self.reason(*result),
                self.reason(*heap),
            ),
        })
    }
}
