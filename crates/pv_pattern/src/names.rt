//! What an axiom names, found where a node stands for its left side.

ghost use Rattle.std.specs.Prelude.{◌≡◌, ◌↔◌, IfSome, IsTrue, MatchOption, None, Some, map};
ghost use Rattle.pv_graph.specs.Graphs.{form_at, form_of};
ghost use Rattle.pv_pattern.specs.Found.{HasName, empty_symbol, head_name, is_name, kids_of, names_of, place, place_in, same_name, shown_of};
ghost use Rattle.pv_pattern.specs.Patterns.{fixed};
ghost use Rattle.pv_pattern.specs.Seen.{head_seen, listed, seen};

use crate::pattern::{Head, Pattern};
use pv_graph::{Graph, Node, NodeId, Op};
use pv_value::{Kind, Num, Sym};

/// What an axiom names: its depth, its symbols, kinds and constants by number, and the operation of a
/// family.
#[derive(Clone, Copy)]
pub enum NameId {
    Depth,
    Symbol(u32),
    Kind(u32),
    Constant(u32),
    Operation,
}

// A left side at a node of a graph, with the kids of a family and the nodes of the variables.
#[derive(Clone, Copy)]
pub(crate) struct Reading<'a> {
    pub(crate) graph: &'a Graph,
    pub(crate) left: &'a Pattern,
    pub(crate) at: NodeId,
    pub(crate) kids: &'a [NodeId],
    pub(crate) vars: &'a [NodeId],
}

/// What an axiom names of an operation.
pub fn head_name(head: Head) -> Option<NameId>
    ensures { result ≡ head_name (head_seen head) }
{
    match head {
        Head::Theta | Head::Eval | Head::Pass | Head::Shift => Some(NameId::Depth),
        Head::GetStatic(s) | Head::PutStatic(s) | Head::GetField(s) | Head::PutField(s) => {
            Some(NameId::Symbol(s))
        }
        Head::Load(k) | Head::Store(k) => Some(NameId::Kind(k)),
        _ => None,
    }
}

/// The operation of a head whose parameters are fixed; `None` where the axiom names the parameter.
pub fn fixed_op(head: Head) -> Option<Op>
    ensures { MatchOption result (HasName (head_seen head)) (λ op. head_seen head ≡ fixed op) }
{
    match head {
        Head::Int(c) => Some(Op::Int(c)),
        Head::Long(c) => Some(Op::Long(c)),
        Head::Null => Some(Op::Null),
        Head::This => Some(Op::This),
        Head::Unit => Some(Op::Unit),
        Head::Zero => Some(Op::Zero),
        Head::Succ => Some(Op::Succ),
        Head::Both => Some(Op::Both),
        Head::Phi => Some(Op::Phi),
        Head::Scalar(op) => Some(Op::Scalar(op)),
        Head::Aeq => Some(Op::Aeq),
        Head::Thrown => Some(Op::Thrown),
        Head::IsClear => Some(Op::IsClear),
        Head::Length => Some(Op::Length),
        _ => None,
    }
}

fn is_same(a: NameId, b: NameId) -> bool
    ensures { result ≡ same_name a b }
{
    match (a, b) {
        (NameId::Depth, NameId::Depth) => true,
        (NameId::Symbol(s), NameId::Symbol(t)) => s == t,
        (NameId::Kind(k), NameId::Kind(l)) => k == l,
        (NameId::Constant(j), NameId::Constant(k)) => j == k,
        (NameId::Operation, NameId::Operation) => true,
        _ => false,
    }
}

// Whether an axiom names this of an operation.
fn names(head: Head, name: NameId) -> bool
    ensures { result ≡ is_name (head_name (head_seen head)) name }
{
    match head_name(head) {
        Some(found) => is_same(found, name),
        None => false,
    }
}

pub(crate) fn is_same_op(a: &Op, b: &Op) -> bool
    ensures { IsTrue result ↔ (a.now ≡ b.now) }
{
    a == b
}

// The node with this number, if there is one.
pub(crate) fn node_at(graph: &Graph, n: NodeId) -> Option<&Node>
    ensures { MatchOption result (form_at graph.now.nodes n ≡ None) (λ node. form_at graph.now.nodes n ≡ Some (form_of node.now)) }
{
    if n < graph.len() {
        Some(graph.node(n))
    } else {
        None
    }
}

// The kids of a node; none where there is no such node.
fn kids_at(graph: &Graph, n: NodeId) -> &[NodeId]
    ensures { result.now ≡ kids_of (form_at graph.now.nodes n) }
{
    match node_at(graph, n) {
        Some(node) => node.kids.as_slice(),
        None => &[],
    }
}

// The node at the first place of a name.
#[cycle(place)]
fn place(graph: &Graph, name: NameId, pattern: &Pattern, n: NodeId) -> Option<NodeId>
    ensures { result ≡ place (form_at graph.now.nodes) name (seen pattern.now) n }
{
    match pattern {
        Pattern::Constant(j) => is_same(NameId::Constant(*j), name).then_some(n),
        Pattern::OverEach(_, _) => is_same(NameId::Operation, name).then_some(n),
        Pattern::Over(head, patterns) => {
            if names(*head, name) {
                Some(n)
            } else {
                place_in(graph, name, patterns, kids_at(graph, n))
            }
        }
        _ => None,
    }
}

// The node at the first place of a name in patterns over kids.
#[cycle(place)]
fn place_in(graph: &Graph, name: NameId, patterns: &[Pattern], kids: &[NodeId]) -> Option<NodeId>
    ensures { result ≡ place_in (form_at graph.now.nodes) name (listed (map seen patterns.now)) kids.now }
{
    let mut rest = kids;
    for pattern in patterns {
        let [kid, after @ ..] = rest else {
            return None;
        };
        if let Some(n) = place(graph, name, pattern, *kid) {
            return Some(n);
        }
        rest = after;
    }
    None
}

impl Reading<'_> {
    // The operation at the first place of a name.
    fn shown(&self, name: NameId) -> Option<&Op>
        ensures { MatchOption result (shown_of self.now name ≡ None) (λ op. shown_of self.now name ≡ Some op.now) }
    {
        let n = place(self.graph, name, self.left, self.at)?;
        let node = node_at(self.graph, n)?;
        Some(&node.op)
    }

    // The depth.
    pub(crate) fn depth(&self) -> u32
        ensures { result ≡ (names_of self.now).depth }
    {
        match self.shown(NameId::Depth) {
            Some(Op::Theta(d) | Op::Eval(d) | Op::Pass(d) | Op::Shift(d)) => *d,
            _ => 0,
        }
    }

    // A symbol; `None` stands for the one with empty parts.
    fn symbol(&self, s: u32) -> Option<&Sym>
        ensures some { IfSome result (λ sym. (names_of self.now).symbols s ≡ sym.now) }
        ensures none { result ≡ None → (names_of self.now).symbols s ≡ empty_symbol }
    {
        match self.shown(NameId::Symbol(s)) {
            Some(Op::GetStatic(sym) | Op::PutStatic(sym) | Op::GetField(sym) | Op::PutField(sym)) =>
                { Some(sym) }
            _ => None,
        }
    }

    // The name of a symbol.
    pub(crate) fn name(&self, s: u32) -> &[u8]
        ensures { result.now ≡ ((names_of self.now).symbols s).name }
    {
        match self.symbol(s) {
            Some(sym) => sym.name.bytes(),
            None => &[],
        }
    }

    // The descriptor of a symbol.
    pub(crate) fn desc(&self, s: u32) -> &[u8]
        ensures { result.now ≡ ((names_of self.now).symbols s).desc }
    {
        match self.symbol(s) {
            Some(sym) => sym.desc.bytes(),
            None => &[],
        }
    }

    // The class of a symbol.
    fn class(&self, s: u32) -> &[u8]
        ensures { result.now ≡ ((names_of self.now).symbols s).class }
    {
        match self.symbol(s) {
            Some(sym) => sym.class.bytes(),
            None => &[],
        }
    }

    // Whether this is a symbol of the axiom.
    pub(crate) fn is_symbol(&self, s: u32, sym: &Sym) -> bool
        ensures { IsTrue result ↔ (sym.now ≡ (names_of self.now).symbols s) }
    {
        sym.class.bytes() == self.class(s)
            && sym.name.bytes() == self.name(s)
            && sym.desc.bytes() == self.desc(s)
    }

    // A kind.
    pub(crate) fn kind(&self, k: u32) -> Kind
        ensures { result ≡ (names_of self.now).kinds k }
    {
        match self.shown(NameId::Kind(k)) {
            Some(Op::Load(kind) | Op::Store(kind)) => *kind,
            _ => Kind::Int,
        }
    }

    // A constant.
    pub(crate) fn constant(&self, j: u32) -> Num
        ensures { result ≡ (names_of self.now).constants j }
    {
        match self.shown(NameId::Constant(j)) {
            Some(Op::Int(c)) => Num::Int(*c),
            Some(Op::Long(c)) => Num::Long(*c),
            _ => Num::Int(0),
        }
    }

    // Whether this is the operation of the family.
    pub(crate) fn is_operation(&self, op: &Op) -> bool
        ensures { IsTrue result ↔ (op.now ≡ (names_of self.now).op_) }
    {
        match self.shown(NameId::Operation) {
            Some(found) => is_same_op(op, found),
            None => is_same_op(op, &Op::Unit),
        }
    }
}
