//! Whether a pattern stands at a node.

ghost use Rattle.std.specs.Prelude.{◌≡◌, ◌↔◌, IsTrue, MatchOption, Some, map, slice_get};
ghost use Rattle.std.specs.List.{AllZip};
ghost use Rattle.pv_graph.specs.Forms.{form};
ghost use Rattle.pv_pattern.specs.Found.{HasName, IsNotUnder, names_of, view_of};
ghost use Rattle.pv_pattern.specs.Patterns.{over_each};
ghost use Rattle.pv_pattern.specs.Instances.{IsConstantAt, IsEach, Narrows, StandAll, Stands, atom_of, folded, head_op, type_by};
ghost use Rattle.pv_pattern.specs.Seen.{atom_seen, by_seen, each_seen, head_seen, listed, seen};

use crate::folding::{field_type, folded, kind_type};
use crate::names::{Reading, fixed_op, is_same_op, node_at};
use crate::numbers::op_number;
use crate::pattern::{Atom, By, Each, Head, Pattern};
use pv_denote::{Operands, takes};
use pv_graph::{NodeId, Op};
use pv_value::{JType, Num, ScalarOp};

impl Reading<'_> {
    fn atom(&self, atom: Atom) -> Num
        ensures { result ≡ atom_of (names_of self.now) (atom_seen atom) }
    {
        match atom {
            Atom::Number(n) => n,
            Atom::Named(j) => self.constant(j),
        }
    }

    // The constant that an operation gives over these.
    fn folded(&self, op: ScalarOp, atoms: &[Atom]) -> Option<Num>
        ensures { result ≡ folded (names_of self.now) op (map atom_seen atoms.now) }
    {
        match (takes(op), atoms) {
            (Operands::One(_), [a]) => folded(op, &[self.atom(*a)]),
            (Operands::Two(_, _), [a, b]) => folded(op, &[self.atom(*a), self.atom(*b)]),
            _ => None,
        }
    }

    // The type by which a node narrows.
    fn type_by(&self, by: By) -> Option<JType>
        ensures { result ≡ type_by (names_of self.now) (by_seen by) }
    {
        match by {
            By::Symbol(s) => field_type(self.desc(s)),
            By::Kind(k) => Some(kind_type(self.kind(k))),
        }
    }

    // Whether a node is this operation over these kids.
    fn is_node(&self, n: NodeId, op: &Op, kids: &[NodeId]) -> bool
        ensures { IsTrue result ↔ (view_of self.now n ≡ Some (form op.now kids.now)) }
    {
        match node_at(self.graph, n) {
            Some(node) => is_same_op(&node.op, op) && node.kids.as_slice() == kids,
            None => false,
        }
    }

    // Whether a node is this constant.
    fn is_constant(&self, n: NodeId, c: Num) -> bool
        ensures { IsTrue result ↔ IsConstantAt (view_of self.now) n c }
    {
        match c {
            Num::Int(c) => self.is_node(n, &Op::Int(c), &[]),
            Num::Long(c) => self.is_node(n, &Op::Long(c), &[]),
            Num::Ref(_) => false,
        }
    }

    // Whether a variable stands for this node.
    fn is_var(&self, j: u32, n: NodeId) -> bool
        ensures { IsTrue result ↔ (slice_get self.now.vars.now j ≡ Some n) }
    {
        match self.vars.get(j as usize) {
            Some(var) => *var == n,
            None => false,
        }
    }

    // Whether this is an operation that the axiom names the depth, the symbol or the kind of.
    fn has_named_op(&self, head: Head, op: &Op) -> bool
        requires { HasName (head_seen head) }
        ensures { IsTrue result ↔ (op.now ≡ head_op (names_of self.now) (head_seen head)) }
    {
        match (head, op) {
            (Head::Theta, Op::Theta(d)) => *d == self.depth(),
            (Head::Eval, Op::Eval(d)) => *d == self.depth(),
            (Head::Pass, Op::Pass(d)) => *d == self.depth(),
            (Head::Shift, Op::Shift(d)) => *d == self.depth(),
            (Head::GetStatic(s), Op::GetStatic(sym)) => self.is_symbol(s, sym),
            (Head::PutStatic(s), Op::PutStatic(sym)) => self.is_symbol(s, sym),
            (Head::GetField(s), Op::GetField(sym)) => self.is_symbol(s, sym),
            (Head::PutField(s), Op::PutField(sym)) => self.is_symbol(s, sym),
            (Head::Load(k), Op::Load(kind)) => *kind == self.kind(k),
            (Head::Store(k), Op::Store(kind)) => *kind == self.kind(k),
            _ => false,
        }
    }

    // Whether this is the operation of a head.
    fn has_op(&self, head: Head, op: &Op) -> bool
        ensures { IsTrue result ↔ (op.now ≡ head_op (names_of self.now) (head_seen head)) }
    {
        match fixed_op(head) {
            Some(fixed) => is_same_op(op, &fixed),
            None => self.has_named_op(head, op),
        }
    }

    // Whether a node is what the operation of a family has in place of a kid.
    fn is_each(&self, each: Each, kid: NodeId, n: NodeId) -> bool
        ensures { IsTrue result ↔ IsEach (view_of self.now) (names_of self.now) (each_seen each) kid n }
    {
        match each {
            Each::Bare => kid == n,
            Each::Shifted => self.is_node(n, &Op::Shift(self.depth()), &[kid]),
            Each::Evaluated(j) => match self.vars.get(j as usize) {
                Some(var) => self.is_node(n, &Op::Eval(self.depth()), &[kid, *var]),
                None => false,
            },
        }
    }

    // Whether these nodes are so for each kid of the family.
    fn are_each(&self, each: Each, kids: &[NodeId]) -> bool
        ensures { IsTrue result ↔ AllZip (IsEach (view_of self.now) (names_of self.now) (each_seen each)) self.now.kids.now kids.now }
    {
        let mut rest = kids;
        for kid in self.kids {
            let [n, after @ ..] = rest else {
                return false;
            };
            if !self.is_each(each, *kid, *n) {
                return false;
            }
            rest = after;
        }
        rest.is_empty()
    }

    // Whether a node is the operation of a family over what it has for each kid.
    fn is_over_each(&self, which: u32, each: Each, n: NodeId) -> bool
        ensures { IsTrue result ↔ Stands (view_of self.now) (names_of self.now) (over_each which (each_seen each)) n }
    {
        match node_at(self.graph, n) {
            Some(node) => {
                self.is_operation(&node.op)
                    && op_number(&node.op) == which
                    && self.are_each(each, node.kids.as_slice())
            }
            None => false,
        }
    }

    // The kids of a node, where it is this operation on numbers.
    fn kids_under(&self, op: ScalarOp, n: NodeId) -> Option<&[NodeId]>
        ensures { MatchOption result (IsNotUnder (view_of self.now) op n) (λ kids. view_of self.now n ≡ Some (form (Op.Scalar op) kids.now)) }
    {
        let node = node_at(self.graph, n)?;
        if is_same_op(&node.op, &Op::Scalar(op)) {
            Some(node.kids.as_slice())
        } else {
            None
        }
    }

    // Whether a pattern stands at a node.
    #[cycle(stands)]
    pub(crate) fn stands(&self, pattern: &Pattern, n: NodeId) -> bool
        ensures { IsTrue result ↔ Stands (view_of self.now) (names_of self.now) (seen pattern.now) n }
    {
        match pattern {
            Pattern::Var(j) => self.is_var(*j, n),
            Pattern::Constant(j) => self.is_var(*j, n) && self.is_constant(n, self.constant(*j)),
            Pattern::Fold(op, atoms) => match self.folded(*op, atoms) {
                Some(c) => self.is_constant(n, c),
                None => false,
            },
            Pattern::Narrowed(by, inner) => match self.type_by(*by) {
                Some(t) => self.narrows(t, inner, n),
                None => false,
            },
            Pattern::Over(head, patterns) => match node_at(self.graph, n) {
                Some(node) => {
                    self.has_op(*head, &node.op) && self.all_stand(patterns, node.kids.as_slice())
                }
                None => false,
            },
            Pattern::OverEach(which, each) => self.is_over_each(*which, *each, n),
        }
    }

    // Whether patterns stand at nodes, one at each.
    #[cycle(stands)]
    fn all_stand(&self, patterns: &[Pattern], kids: &[NodeId]) -> bool
        ensures { IsTrue result ↔ StandAll (view_of self.now) (names_of self.now) (listed (map seen patterns.now)) kids.now }
    {
        let mut rest = kids;
        for pattern in patterns {
            let [kid, after @ ..] = rest else {
                return false;
            };
            if !self.stands(pattern, *kid) {
                return false;
            }
            rest = after;
        }
        rest.is_empty()
    }

    // Whether a node narrows to a type one at which a pattern stands.
    #[cycle(stands)]
    fn narrows(&self, t: JType, inner: &Pattern, n: NodeId) -> bool
        ensures { IsTrue result ↔ Narrows (view_of self.now) t (Stands (view_of self.now) (names_of self.now) (seen inner.now)) n }
    {
        let op = match t {
            JType::Z => ScalarOp::Iand,
            JType::B => ScalarOp::I2b,
            JType::C => ScalarOp::I2c,
            JType::S => ScalarOp::I2s,
            _ => return self.stands(inner, n),
        };
        match (t, self.kids_under(op, n)) {
            (JType::Z, Some([kid, one])) => {
                self.stands(inner, *kid) && self.is_node(*one, &Op::Int(1), &[])
            }
            (JType::B | JType::C | JType::S, Some([kid])) => self.stands(inner, *kid),
            _ => false,
        }
    }
}
