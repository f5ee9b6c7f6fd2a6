//! The evaluation of nodes.

ghost use Rattle.std.specs.Prelude.{◌≡◌, ◌+◌, ◌≤◌, ◌∷◌, [], Some, MatchResult};
ghost use Rattle.pv_graph.specs.Ops.{shape, plain};
ghost use Rattle.pv_denote.specs.Denote.{values};
ghost use Rattle.pv_denote.specs.Meaning.{index_of};
ghost use Rattle.pv_denote.specs.Given.{Gives, Stops, MayEvaluate, over_kids, value_of};

use crate::iterations::Iterations;
use crate::part::{count, fault, heap, result_part, truth, unit};
use crate::setting::Setting;
use crate::stop::Stop;
use pv_graph::{NodeId, Op};
use pv_value::{Fault, Outcome, Val};

impl Setting<'_> {
    /// The value of a node, with fuel for it and one unit less for its kids.
    #[cycle(evaluation)]
    pub fn value(&self, n: NodeId, at: Iterations, fuel: u64) -> Result<Val, Stop>
        requires { MayEvaluate self.now.graph.now (n ∷ []) (index_of at.from_depth_1) fuel }
        ensures { Gives result (value_of self.now fuel n (index_of at.from_depth_1)) }
    {
        if fuel == 0 {
            return Err(Stop::NoValue);
        }
        let node = self.graph.node(n);
        let kids = node.kids.as_slice();
        match node.op {
            Op::Phi => self.phi(kids, at, fuel - 1),
            Op::Theta(depth) => self.theta(depth, kids, at, fuel - 1),
            Op::Eval(depth) => self.eval(depth, kids, at, fuel - 1),
            Op::Pass(depth) => self.pass(depth, kids, at, fuel - 1),
            Op::Shift(depth) => self.shift(depth, kids, at, fuel - 1),
            Op::Root => self.root(kids, at, fuel - 1),
            _ => self.plain(&node.op, kids, at, fuel - 1),
        }
    }

    /// An operation that needs the values of all its kids.
    #[cycle(evaluation)]
    fn plain(&self, op: &Op, kids: &[NodeId], at: Iterations, fuel: u64) -> Result<Val, Stop>
        requires ready { MayEvaluate self.now.graph.now kids.now (index_of at.from_depth_1) (fuel + 1) }
        requires plain { shape op.now ≡ plain }
        ensures { Gives result (over_kids self.now fuel op.now kids.now (index_of at.from_depth_1)) }
    {
        let values = self.values(kids, at, fuel)?;
        self.strict(op, values.as_slice())
    }

    /// The values of all kids.
    #[cycle(evaluation)]
    fn values(&self, kids: &[NodeId], at: Iterations, fuel: u64) -> Result<Vec<Val>, Stop>
        requires ready { MayEvaluate self.now.graph.now kids.now (index_of at.from_depth_1) (fuel + 1) }
        ensures { let found = values (λ k. value_of self.now fuel k (index_of at.from_depth_1)) kids.now in MatchResult result (λ vs. found ≡ Some vs.items) (λ e. Stops e found) }
    {
        let mut values = Vec::new(self.alloc);
        for kid in kids {
            values.push(self.value(*kid, at, fuel)?)?;
        }
        Ok(values)
    }

    /// The second kid where the first is true, else the third.
    #[cycle(evaluation)]
    fn phi(&self, kids: &[NodeId], at: Iterations, fuel: u64) -> Result<Val, Stop>
        requires ready { MayEvaluate self.now.graph.now kids.now (index_of at.from_depth_1) (fuel + 1) }
        ensures { Gives result (over_kids self.now fuel Op.Phi kids.now (index_of at.from_depth_1)) }
    {
        let [test, yes, no] = kids else {
            return Err(Stop::NoValue);
        };
        let is_true = truth(&self.value(*test, at, fuel)?)?;
        self.value(if is_true { *yes } else { *no }, at, fuel)
    }

    /// The first kid at iteration 0, else the second one iteration earlier.
    #[cycle(evaluation)]
    fn theta(&self, depth: u32, kids: &[NodeId], at: Iterations, fuel: u64) -> Result<Val, Stop>
        requires ready { MayEvaluate self.now.graph.now kids.now (index_of at.from_depth_1) (fuel + 1) }
        requires low { 1 ≤ depth }
        requires high { depth ≤ 16 }
        ensures { Gives result (over_kids self.now fuel (Op.Theta depth) kids.now (index_of at.from_depth_1)) }
    {
        let [first, later] = kids else {
            return Err(Stop::NoValue);
        };
        let k = at.at(depth);
        if k == 0 {
            return self.value(*first, at, fuel);
        }
        self.value(*later, at.with(depth, k - 1), fuel)
    }

    /// The first kid at the iteration that the second counts.
    #[cycle(evaluation)]
    fn eval(&self, depth: u32, kids: &[NodeId], at: Iterations, fuel: u64) -> Result<Val, Stop>
        requires ready { MayEvaluate self.now.graph.now kids.now (index_of at.from_depth_1) (fuel + 1) }
        requires low { 1 ≤ depth }
        requires high { depth ≤ 16 }
        ensures { Gives result (over_kids self.now fuel (Op.Eval depth) kids.now (index_of at.from_depth_1)) }
    {
        let [looked_at, iterations] = kids else {
            return Err(Stop::NoValue);
        };
        let k = count(&self.value(*iterations, at, fuel)?)?;
        self.value(*looked_at, at.with(depth, k), fuel)
    }

    /// The first iteration at which the kid is true, where it is false at each earlier one. Each later
    /// iteration is looked at with one unit of fuel less.
    #[cycle(evaluation)]
    fn pass(&self, depth: u32, kids: &[NodeId], at: Iterations, fuel: u64) -> Result<Val, Stop>
        requires ready { MayEvaluate self.now.graph.now kids.now (index_of at.from_depth_1) (fuel + 1) }
        requires low { 1 ≤ depth }
        requires high { depth ≤ 16 }
        ensures { Gives result (over_kids self.now fuel (Op.Pass depth) kids.now (index_of at.from_depth_1)) }
    {
        let [test] = kids else {
            return Err(Stop::NoValue);
        };
        for k in 0..fuel {
            let v = self.value(*test, at.with(depth, k), fuel - k)?;
            if truth(&v)? {
                return Ok(Val::Count(k));
            }
        }
        Err(Stop::NoValue)
    }

    /// The kid one iteration later.
    #[cycle(evaluation)]
    fn shift(&self, depth: u32, kids: &[NodeId], at: Iterations, fuel: u64) -> Result<Val, Stop>
        requires ready { MayEvaluate self.now.graph.now kids.now (index_of at.from_depth_1) (fuel + 1) }
        requires low { 1 ≤ depth }
        requires high { depth ≤ 16 }
        ensures { Gives result (over_kids self.now fuel (Op.Shift depth) kids.now (index_of at.from_depth_1)) }
    {
        let [kid] = kids else {
            return Err(Stop::NoValue);
        };
        self.value(*kid, at.with(depth, at.at(depth) + 1), fuel)
    }

    /// The end of a method, once its token has a value: with the fault, or with the result, which is
    /// needed only where the fault is clear.
    #[cycle(evaluation)]
    fn root(&self, kids: &[NodeId], at: Iterations, fuel: u64) -> Result<Val, Stop>
        requires ready { MayEvaluate self.now.graph.now kids.now (index_of at.from_depth_1) (fuel + 1) }
        ensures { Gives result (over_kids self.now fuel Op.Root kids.now (index_of at.from_depth_1)) }
    {
        let [token, thrown, returned, after] = kids else {
            return Err(Stop::NoValue);
        };
        unit(&self.value(*token, at, fuel)?)?;
        let thrown = fault(&self.value(*thrown, at, fuel)?)?;
        let after = heap(self.value(*after, at, fuel)?)?;
        if thrown != Fault::Clear {
            return Ok(Val::End(Outcome::Threw(thrown, after)));
        }
        let returned = result_part(&self.value(*returned, at, fuel)?)?;
        Ok(Val::End(Outcome::Returned(returned, after)))
    }
}
