//! The matches of an axiom whose left side starts at a node.

ghost use Rattle.std.specs.Prelude.{◌≡◌, ◌↔◌, ◌++◌, ◌∷◌, [], ◌<◌, ◌≤◌, ℕ, List, length, map, IfOk, IsTrue, MatchOption, OnOk, Some, true};
ghost use Rattle.std.specs.Bool.{OnFalse, OnTrue};
ghost use Rattle.std.specs.Int.{bit_at};
ghost use Rattle.pv_graph.specs.Graphs.{IsGraph};
ghost use Rattle.pv_pattern.specs.Instances.{Names};
ghost use Rattle.pv_pattern.specs.Patterns.{not_free, over, settled, variables_of};
ghost use Rattle.pv_pattern.specs.Seen.{axiom_seen, head_seen, listed, seen, side_seen};
ghost use Rattle.pv_marks.specs.Marks.{AreClassMarks, HasBit};
ghost use Rattle.pv_match.specs.Bindings.{Agrees, IsMembers, IsWhole, bound, named};
ghost use Rattle.pv_match.specs.Reading.{reads_all, IsReadable};
ghost use Rattle.pv_match.specs.Finishing.{AddsParams, AllSided, AreKids, AreMatchesAt, AreReadAt, AreShown, HasAt, IsDepthOf, Matched, NoneAgree, NotMatched, ShowsNothing, Sided};
ghost use Rattle.pv_match.specs.Parameters.{is_among, number_param, params_in};

use crate::binding::Binding;
use crate::found::{Match, Param};
use crate::reader::Reader;
use crate::shown::{constant_in, depth_in, kind_in, symbol_in};
use pv_graph::{NodeId, Op};
use pv_pattern::{Axiom, Head, NameId, Pattern, Side};
use pv_value::{Kind, Memory, Num, Sym};
use std::alloc::Global;

// Whether a bit is set in the mark of a class; no class has a bit past the marks.
fn has_bit(marks: &[u32], class: u32, q: u32) -> bool
    requires { q ≤ 16 }
    ensures { IsTrue result ↔ HasBit marks.now q class }
{
    match marks.get(class as usize) {
        Some(mark) => (*mark >> q) & 1 == 1,
        None => false,
    }
}

// A number as a depth of loops.
fn as_depth(d: u32) -> Option<u32>
    ensures { MatchOption result ((1 ≤ d) × (d ≤ 16) → ⊥) (λ e. (e ≡ d) × (1 ≤ d) × (d ≤ 16)) }
{
    if 1 <= d && d <= 16 { Some(d) } else { None }
}

impl Reader<'_> {
    // The depth that a binding has.
    fn depth_at(&self, b: &Binding) -> Option<u32>
        ensures { MatchOption result (is_among (bound b.now) NameId.Depth ≡ true → NoneAgree self.now.graph.now self.now.numbers.now b.now) (λ d. (m : Names) → Agrees self.now.graph.now self.now.numbers.now m b.now → m.depth ≡ d) }
    {
        let node = self.node_at(b.place(NameId::Depth)?)?;
        depth_in(&node.op)
    }

    // A symbol that a binding has.
    fn symbol_at(&self, b: &Binding, s: u32) -> Option<&Sym>
        ensures { MatchOption result (is_among (bound b.now) (NameId.Symbol s) ≡ true → NoneAgree self.now.graph.now self.now.numbers.now b.now) (λ sym. (m : Names) → Agrees self.now.graph.now self.now.numbers.now m b.now → m.symbols s ≡ sym.now) }
    {
        let node = self.node_at(b.place(NameId::Symbol(s))?)?;
        symbol_in(&node.op)
    }

    // A kind that a binding has.
    fn kind_at(&self, b: &Binding, k: u32) -> Option<Kind>
        ensures { MatchOption result (is_among (bound b.now) (NameId.Kind k) ≡ true → NoneAgree self.now.graph.now self.now.numbers.now b.now) (λ kind. (m : Names) → Agrees self.now.graph.now self.now.numbers.now m b.now → m.kinds k ≡ kind) }
    {
        let node = self.node_at(b.place(NameId::Kind(k))?)?;
        kind_in(&node.op)
    }

    // A constant that a binding has.
    fn constant_at(&self, b: &Binding, j: u32) -> Option<Num>
        ensures { MatchOption result (is_among (bound b.now) (NameId.Constant j) ≡ true → NoneAgree self.now.graph.now self.now.numbers.now b.now) (λ n. (m : Names) → Agrees self.now.graph.now self.now.numbers.now m b.now → m.constants j ≡ n) }
    {
        let node = self.node_at(b.place(NameId::Constant(j))?)?;
        constant_in(&node.op)
    }

    // The depth that a binding has, which is one of a loop.
    fn depth_within(&self, b: &Binding) -> Option<u32>
        requires { IsGraph self.now.graph.now }
        ensures { MatchOption result (is_among (bound b.now) NameId.Depth ≡ true → NoneAgree self.now.graph.now self.now.numbers.now b.now) (λ d. IsDepthOf self.now.graph.now self.now.numbers.now b.now d) }
    {
        as_depth(self.depth_at(b)?)
    }

    // Whether a bit is set for the class of a variable.
    fn class_has(&self, b: &Binding, marks: &[u32], j: u32, q: u32) -> bool
        requires { q ≤ 16 }
        ensures { IsTrue result ↔ HasAt marks.now b.now j q }
    {
        match b.vars.get(j as usize) {
            Some(class) => has_bit(marks, *class, q),
            None => false,
        }
    }

    // Whether the class of a variable is settled.
    fn settled_holds(&self, b: &Binding, marks: &[u32], j: u32) -> bool
        ensures { Sided self.now.graph.now self.now.numbers.now marks.now b.now (settled j) result }
    {
        self.class_has(b, marks, j, 0)
    }

    // Whether the depth isn't free in the class of a variable.
    fn free_holds(&self, b: &Binding, marks: &[u32], j: u32) -> bool
        requires { IsGraph self.now.graph.now }
        ensures { Sided self.now.graph.now self.now.numbers.now marks.now b.now (not_free j) result }
    {
        match self.depth_within(b) {
            Some(d) => self.class_has(b, marks, j, d),
            None => false,
        }
    }

    // Whether a condition holds.
    fn holds(&self, b: &Binding, marks: &[u32], side: Side) -> bool
        requires { IsGraph self.now.graph.now }
        ensures { Sided self.now.graph.now self.now.numbers.now marks.now b.now (side_seen side) result }
    {
        match side {
            Side::Settled(j) => self.settled_holds(b, marks, j),
            Side::NotFree(j) => self.free_holds(b, marks, j),
            Side::SymbolsDiffer(s, t) => match (self.symbol_at(b, s), self.symbol_at(b, t)) {
                (Some(s), Some(t)) => s.name != t.name || s.desc != t.desc,
                _ => false,
            },
            Side::KindsDiffer(k, l) => match (self.kind_at(b, k), self.kind_at(b, l)) {
                (Some(k), Some(l)) => k != l,
                _ => false,
            },
            Side::NotByte(k) => match self.kind_at(b, k) {
                Some(k) => k != Kind::Byte,
                None => false,
            },
            Side::ConstantsDiffer(j, k) => match (self.constant_at(b, j), self.constant_at(b, k)) {
                (Some(j), Some(k)) => j != k,
                _ => false,
            },
        }
    }

    // Whether all conditions hold.
    fn all_hold(&self, b: &Binding, marks: &[u32], sides: &[Side]) -> bool
        requires { IsGraph self.now.graph.now }
        ensures { AllSided self.now.graph.now self.now.numbers.now marks.now b.now (map side_seen sides.now) result }
    {
        for side in sides {
            if !self.holds(b, marks, *side) {
                return false;
            }
        }
        true
    }

    // Adds the parameters of a name, which a node is to show; false where it shows none.
    fn add_params(&self, name: NameId, n: NodeId, params: &mut Vec<Param>) -> Result<bool, Memory>
        ensures shown { IfOk result (λ yes. OnTrue yes (AddsParams self.now.graph.now self.now.numbers.now (named name n) params.old.items params.new.items)) }
        ensures not { IfOk result (λ yes. OnFalse yes (ShowsNothing self.now.graph.now self.now.numbers.now (named name n))) }
    {
        let Some(node) = self.node_at(n) else {
            return Ok(false);
        };
        match name {
            NameId::Depth => match depth_in(&node.op) {
                Some(d) => params.push(Param::Depth(d))?,
                None => return Ok(false),
            },
            NameId::Symbol(_) => match symbol_in(&node.op) {
                Some(sym) => params.push(Param::Symbol(sym.clone()?))?,
                None => return Ok(false),
            },
            NameId::Kind(_) => match kind_in(&node.op) {
                Some(kind) => params.push(Param::Kind(kind))?,
                None => return Ok(false),
            },
            NameId::Constant(_) => match constant_in(&node.op) {
                Some(c) => add_number(c, params)?,
                None => return Ok(false),
            },
            NameId::Operation => add_op_params(&node.op, params)?,
        }
        Ok(true)
    }

    // The parameters of a binding; `None` where some node doesn't show its name.
    fn params(&self, alloc: Global, b: &Binding) -> Result<Option<Vec<Param>>, Memory>
        ensures { IfOk result (λ r. MatchOption r (NoneAgree self.now.graph.now self.now.numbers.now b.now) (λ params. AreShown self.now.graph.now self.now.numbers.now b.now params.items)) }
    {
        let mut params = Vec::new(alloc);
        for named in &b.names {
            if !self.add_params(named.name, named.node, &mut params)? {
                return Ok(None);
            }
        }
        Ok(Some(params))
    }

    // The classes of a family's kids.
    fn kid_classes(&self, alloc: Global, b: &Binding) -> Result<Vec<u32>, Memory>
        ensures { IfOk result (λ kids. AreKids self.now.graph.now self.now.numbers.now b.now kids.items) }
    {
        let mut classes = Vec::new(alloc);
        if let Some(n) = b.place(NameId::Operation) {
            for kid in self.kids_at(n) {
                classes.push(self.class(*kid))?;
            }
        }
        Ok(classes)
    }

    // The match that a binding of the left side gives, where its conditions hold.
    fn matched(
        &self,
        alloc: Global,
        rule: &Axiom,
        b: &Binding,
        marks: &[u32],
    ) -> Result<Option<Match>, Memory>
        requires graph { IsGraph self.now.graph.now }
        requires readable { IsReadable (axiom_seen rule.now) }
        requires whole { IsWhole (axiom_seen rule.now) b.now }
        ensures { IfOk result (λ r. (assumed : List ℕ) → AreClassMarks self.now.graph.now self.now.numbers.now assumed marks.now → MatchOption r (NotMatched self.now.graph.now self.now.numbers.now assumed (axiom_seen rule.now) b.now) (λ x. Matched self.now.graph.now self.now.numbers.now assumed (axiom_seen rule.now) b.now x)) }
    {
        if !self.all_hold(b, marks, &rule.sides) {
            return Ok(None);
        }
        let Some(params) = self.params(alloc, b)? else {
            return Ok(None);
        };
        let mut classes = self.kid_classes(alloc, b)?;
        classes.extend_from_slice(&b.vars)?;
        Ok(Some(Match {
            axiom: rule.number,
            params,
            classes,
        }))
    }

    // The bindings under which an operation over patterns starts at a node.
    fn read_at(
        &self,
        alloc: Global,
        head: Head,
        patterns: &[Pattern],
        n: NodeId,
    ) -> Result<Vec<Binding>, Memory>
        requires members { IsMembers self.now.graph.now self.now.numbers.now self.now.members.now.groups.items }
        requires read { reads_all 0 (listed (map seen patterns.now)) ≡ Some (variables_of (listed (map seen patterns.now))) }
        ensures { IfOk result (λ bs. AreReadAt self.now.graph.now self.now.numbers.now (over (head_seen head) (listed (map seen patterns.now))) n bs.items) }
    {
        let mut found = Vec::new(alloc);
        if let Some(b) = self.bind_head(alloc, &Binding::empty(alloc), head, n)? {
            self.extend_all(alloc, patterns, self.kids_at(n), &b, &mut found)?;
        }
        Ok(found)
    }

    // The matches of an axiom whose left side is an operation over patterns and starts at a node.
    fn matches_over(
        &self,
        alloc: Global,
        rule: &Axiom,
        head: Head,
        patterns: &[Pattern],
        n: NodeId,
        marks: &[u32],
    ) -> Result<Vec<Match>, Memory>
        requires graph { IsGraph self.now.graph.now }
        requires members { IsMembers self.now.graph.now self.now.numbers.now self.now.members.now.groups.items }
        requires readable { IsReadable (axiom_seen rule.now) }
        requires left { over (head_seen head) (listed (map seen patterns.now)) ≡ (axiom_seen rule.now).left }
        ensures { IfOk result (λ list. (assumed : List ℕ) → AreClassMarks self.now.graph.now self.now.numbers.now assumed marks.now → AreMatchesAt self.now.graph.now self.now.numbers.now assumed (axiom_seen rule.now) n list.items) }
    {
        let bindings = self.read_at(alloc, head, patterns, n)?;
        let mut found = Vec::new(alloc);
        for b in &bindings {
            if let Some(x) = self.matched(alloc, rule, b, marks)? {
                found.push(x)?;
            }
        }
        Ok(found)
    }

    // The matches of an axiom whose left side starts at a node.
    pub(crate) fn matches_at(
        &self,
        alloc: Global,
        rule: &Axiom,
        n: NodeId,
        marks: &[u32],
    ) -> Result<Vec<Match>, Memory>
        requires graph { IsGraph self.now.graph.now }
        requires members { IsMembers self.now.graph.now self.now.numbers.now self.now.members.now.groups.items }
        requires readable { IsReadable (axiom_seen rule.now) }
        ensures { IfOk result (λ list. (assumed : List ℕ) → AreClassMarks self.now.graph.now self.now.numbers.now assumed marks.now → AreMatchesAt self.now.graph.now self.now.numbers.now assumed (axiom_seen rule.now) n list.items) }
    {
        match &rule.left {
            Pattern::Over(head, patterns) => self.matches_over(
                alloc, rule, *head, patterns, n, marks,
            ),
            _ => Ok(Vec::new(alloc)),
        }
    }
}

// Adds a constant as a parameter.
fn add_number(n: Num, params: &mut Vec<Param>) -> Result<(), Memory>
    ensures { OnOk result (params.new.items ≡ params.old.items ++ number_param n) }
{
    match n {
        Num::Int(c) => params.push(Param::Int(c))?,
        Num::Long(c) => params.push(Param::Long(c))?,
        Num::Ref(_) => {}
    }
    Ok(())
}

// Adds the parameter of an operation.
fn add_op_params(op: &Op, params: &mut Vec<Param>) -> Result<(), Memory>
    ensures { OnOk result (params.new.items ≡ params.old.items ++ params_in op.now) }
{
    match op {
        Op::Int(c) => params.push(Param::Int(*c))?,
        Op::Long(c) => params.push(Param::Long(*c))?,
        Op::Theta(d) | Op::Eval(d) | Op::Pass(d) | Op::Shift(d) => params.push(Param::Depth(*d))?,
        Op::GetStatic(s) | Op::PutStatic(s) | Op::GetField(s) | Op::PutField(s) => {
            params.push(Param::Symbol(s.clone()?))?
        }
        Op::CallEnd(s) | Op::CallRes(s) | Op::CallFault(s) | Op::CallHeap(s) => {
            params.push(Param::Symbol(s.clone()?))?
        }
        Op::Load(k) | Op::Store(k) => params.push(Param::Kind(*k))?,
        _ => {}
    }
    Ok(())
}
