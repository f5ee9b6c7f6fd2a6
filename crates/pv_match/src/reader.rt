//! The bindings under which a left side stands.

ghost use Rattle.std.specs.Prelude.{◌≡◌, ◌↔◌, ◌<◌, ℕ, length, map, IfOk, IfSome, IsTrue, MatchOption, ◌∷◌, [], None, OnOk, Some, slice_get};
ghost use Rattle.pv_graph.specs.Graphs.{form_at, form_of};
ghost use Rattle.pv_pattern.specs.Instances.{Names};
ghost use Rattle.pv_pattern.specs.Binding.{names, names_in, listed_name};
ghost use Rattle.pv_pattern.specs.Found.{head_name, kids_of};
ghost use Rattle.pv_pattern.specs.Patterns.{constant, over, over_each, bare, var};
ghost use Rattle.pv_pattern.specs.Seen.{each_seen, head_seen, listed, seen};
ghost use Rattle.pv_marks.specs.Classes.{class_of};
ghost use Rattle.pv_match.specs.Standing.{AllStandIn, StandsIn};
ghost use Rattle.pv_match.specs.Bindings.{AddsWhere, Agrees, AreRead, AreStarts, Binds, BindsHead, BindsVar, IsConstantNode, IsConstantOf, IsMembers, IsNamed, IsRead, NeverBinds, NeverBindsHead, NeverBindsVar, ShowsAt};
ghost use Rattle.pv_match.specs.Reading.{next_var, reads, reads_all};

use crate::binding::{Binding, Named};
use crate::heads::{head_number, is_under_head};
use crate::members::Members;
use crate::shown::{constant_in, depth_in, is_same_op, is_same_symbol, kind_in, symbol_in};
use pv_graph::{Graph, Node, NodeId};
use pv_pattern::{Each, Head, NameId, Pattern, head_name};
use pv_value::Memory;
use std::alloc::Global;

// A graph, the class of each node, and the members of each class.
#[derive(Clone, Copy)]
pub(crate) struct Reader<'a> {
    pub(crate) graph: &'a Graph,
    pub(crate) numbers: &'a [NodeId],
    pub(crate) members: &'a Members,
}

// A binding, and the node whose operation it took.
#[derive(Drop)]
struct Start {
    node: NodeId,
    binding: Binding,
}

impl Reader<'_> {
    // The node with this number, if there is one.
    pub(crate) fn node_at(&self, n: NodeId) -> Option<&Node>
        ensures { MatchOption result (form_at self.now.graph.now.nodes n ≡ None) (λ node. form_at self.now.graph.now.nodes n ≡ Some (form_of node.now)) }
    {
        if n < self.graph.len() {
            Some(self.graph.node(n))
        } else {
            None
        }
    }

    // The kids of a node; none where there is no such node.
    pub(crate) fn kids_at(&self, n: NodeId) -> &[NodeId]
        ensures { result.now ≡ kids_of (form_at self.now.graph.now.nodes n) }
    {
        match self.node_at(n) {
            Some(node) => node.kids.as_slice(),
            None => &[],
        }
    }

    // The class of a node.
    pub(crate) fn class(&self, n: NodeId) -> u32
        ensures { result ≡ class_of self.now.numbers.now n }
    {
        match self.numbers.get(n as usize) {
            Some(class) => *class,
            None => 0,
        }
    }

    // Whether two lists of nodes have the same classes, place by place.
    fn have_same_classes(&self, first: &[NodeId], second: &[NodeId]) -> bool
        ensures { IsTrue result ↔ (map (class_of self.now.numbers.now) first.now ≡ map (class_of self.now.numbers.now) second.now) }
    {
        if first.len() != second.len() {
            return false;
        }
        for (i, n) in first.iter().enumerate() {
            if self.class(*n) != self.class(second[i]) {
                return false;
            }
        }
        true
    }

    // Whether two nodes show the same of a name, where the first one shows it.
    fn show_same(&self, name: NameId, a: &Node, b: &Node) -> bool
        ensures { (m : Names) → IsNamed m name a.now.op (map (class_of self.now.numbers.now) a.now.kids) → (IsTrue result ↔ IsNamed m name b.now.op (map (class_of self.now.numbers.now) b.now.kids)) }
    {
        match name {
            NameId::Depth => depth_in(&a.op) == depth_in(&b.op),
            NameId::Symbol(_) => match (symbol_in(&a.op), symbol_in(&b.op)) {
                (Some(s), Some(t)) => is_same_symbol(s, t),
                _ => false,
            },
            NameId::Kind(_) => kind_in(&a.op) == kind_in(&b.op),
            NameId::Constant(_) => constant_in(&a.op) == constant_in(&b.op),
            NameId::Operation => {
                is_same_op(&a.op, &b.op)
                    && self.have_same_classes(a.kids.as_slice(), b.kids.as_slice())
            }
        }
    }

    // Whether nodes with these numbers show the same of a name, where the first one shows it.
    fn show_same_at(&self, name: NameId, a: NodeId, b: NodeId) -> bool
        ensures { (m : Names) → ShowsAt self.now.graph.now self.now.numbers.now m name a → (IsTrue result ↔ ShowsAt self.now.graph.now self.now.numbers.now m name b) }
    {
        match (self.node_at(a), self.node_at(b)) {
            (Some(a), Some(b)) => self.show_same(name, a, b),
            _ => false,
        }
    }

    // A binding with a name that a node shows; `None` where the name stands for something else.
    fn bind(
        &self,
        alloc: Global,
        from: &Binding,
        name: NameId,
        n: NodeId,
    ) -> Result<Option<Binding>, Memory>
        ensures { IfOk result (λ r. MatchOption r (NeverBinds self.now.graph.now self.now.numbers.now from.now name n) (λ new. Binds self.now.graph.now self.now.numbers.now from.now name n new)) }
    {
        match from.place(name) {
            Some(m) if self.show_same_at(name, m, n) => Ok(Some(from.copy(alloc)?)),
            Some(_) => Ok(None),
            None => Ok(Some(from.with_name(alloc, name, n)?)),
        }
    }

    // A binding with the name of a head, whose operation a node has.
    pub(crate) fn bind_head(
        &self,
        alloc: Global,
        from: &Binding,
        head: Head,
        n: NodeId,
    ) -> Result<Option<Binding>, Memory>
        ensures { IfOk result (λ r. MatchOption r (NeverBindsHead self.now.graph.now self.now.numbers.now from.now (head_seen head) n) (λ new. BindsHead self.now.graph.now self.now.numbers.now from.now (head_seen head) n new)) }
    {
        match self.node_at(n) {
            Some(node) if is_under_head(head, &node.op) => match head_name(head) {
                Some(name) => self.bind(alloc, from, name, n),
                None => Ok(Some(from.copy(alloc)?)),
            },
            _ => Ok(None),
        }
    }

    // A binding with a variable in a class; `None` where the variable stands in another.
    fn bind_var(
        &self,
        alloc: Global,
        from: &Binding,
        j: u32,
        class: u32,
    ) -> Result<Option<Binding>, Memory>
        requires { IsRead (length from.now.vars.items) (var j) }
        ensures { IfOk result (λ r. MatchOption r (NeverBindsVar self.now.graph.now self.now.numbers.now from.now j class) (λ new. BindsVar self.now.graph.now self.now.numbers.now from.now j class new)) }
    {
        match from.vars.get(j as usize) {
            Some(known) if *known == class => Ok(Some(from.copy(alloc)?)),
            Some(_) => Ok(None),
            None => Ok(Some(from.with_var(alloc, class)?)),
        }
    }

    // Whether a node is a constant.
    fn is_constant(&self, n: NodeId) -> bool
        ensures { IsTrue result ↔ IsConstantNode self.now.graph.now n }
    {
        match self.node_at(n) {
            Some(node) => constant_in(&node.op).is_some() && node.kids.as_slice().is_empty(),
            None => false,
        }
    }

    // Adds the bindings under which a variable for constants is one of these nodes.
    fn add_constants(
        &self,
        alloc: Global,
        j: u32,
        nodes: &[NodeId],
        from: &Binding,
        found: &mut Vec<Binding>,
    ) -> Result<(), Memory>
        ensures { OnOk result (AddsWhere self.now.graph.now self.now.numbers.now found.old.items found.new.items from.now (λ m. IsConstantOf self.now.graph.now m j nodes.now) (NameId.Constant j ∷ []) (Some (length from.now.vars.items))) }
    {
        for n in nodes {
            if self.is_constant(*n) {
                if let Some(b) = self.bind(alloc, from, NameId::Constant(j), *n)? {
                    found.push(b)?;
                }
            }
        }
        Ok(())
    }

    // Adds the bindings under which a variable for constants stands in a class.
    fn extend_constant(
        &self,
        alloc: Global,
        j: u32,
        class: u32,
        from: &Binding,
        found: &mut Vec<Binding>,
    ) -> Result<(), Memory>
        requires members { IsMembers self.now.graph.now self.now.numbers.now self.now.members.now.groups.items }
        requires read { IsRead (length from.now.vars.items) (constant j) }
        ensures { OnOk result (AddsWhere self.now.graph.now self.now.numbers.now found.old.items found.new.items from.now (λ m. StandsIn self.now.graph.now self.now.numbers.now m (constant j) class) (names (constant j)) (reads (length from.now.vars.items) (constant j))) }
    {
        if let Some(b) = self.bind_var(alloc, from, j, class)? {
            self.add_constants(alloc, j, self.members.with(class, 0), &b, found)?;
            self.add_constants(alloc, j, self.members.with(class, 1), &b, found)?;
        }
        Ok(())
    }

    // Adds the bindings under which a family's operation over its kids stands in a class.
    fn extend_family(
        &self,
        alloc: Global,
        which: u32,
        class: u32,
        from: &Binding,
        found: &mut Vec<Binding>,
    ) -> Result<(), Memory>
        requires members { IsMembers self.now.graph.now self.now.numbers.now self.now.members.now.groups.items }
        ensures { OnOk result (AddsWhere self.now.graph.now self.now.numbers.now found.old.items found.new.items from.now (λ m. StandsIn self.now.graph.now self.now.numbers.now m (over_each which bare) class) (names (over_each which bare)) (Some (length from.now.vars.items))) }
    {
        for n in self.members.with(class, which) {
            if let Some(b) = self.bind(alloc, from, NameId::Operation, *n)? {
                found.push(b)?;
            }
        }
        Ok(())
    }

    // Adds the bindings under which a family stands in a class. Only bare kids are read.
    fn extend_each(
        &self,
        alloc: Global,
        which: u32,
        each: Each,
        class: u32,
        from: &Binding,
        found: &mut Vec<Binding>,
    ) -> Result<(), Memory>
        requires members { IsMembers self.now.graph.now self.now.numbers.now self.now.members.now.groups.items }
        requires read { IsRead (length from.now.vars.items) (over_each which (each_seen each)) }
        ensures { OnOk result (AddsWhere self.now.graph.now self.now.numbers.now found.old.items found.new.items from.now (λ m. StandsIn self.now.graph.now self.now.numbers.now m (over_each which (each_seen each)) class) (names (over_each which (each_seen each))) (reads (length from.now.vars.items) (over_each which (each_seen each)))) }
    {
        match each {
            Each::Bare => self.extend_family(alloc, which, class, from, found),
            _ => Ok(()),
        }
    }

    // The nodes of a class that have the operation of a head, each with its binding.
    fn starts(
        &self,
        alloc: Global,
        head: Head,
        class: u32,
        from: &Binding,
    ) -> Result<Vec<Start>, Memory>
        requires members { IsMembers self.now.graph.now self.now.numbers.now self.now.members.now.groups.items }
        ensures { IfOk result (λ starts. AreStarts self.now.graph.now self.now.numbers.now (head_seen head) class from.now starts.items) }
    {
        let mut starts = Vec::new(alloc);
        for n in self.members.with(class, head_number(head)) {
            if let Some(binding) = self.bind_head(alloc, from, head, *n)? {
                starts.push(Start { node: *n, binding })?;
            }
        }
        Ok(starts)
    }

    // Adds the bindings under which a pattern stands in a class.
    #[cycle(extend)]
    fn extend(
        &self,
        alloc: Global,
        pattern: &Pattern,
        class: u32,
        from: &Binding,
        found: &mut Vec<Binding>,
    ) -> Result<(), Memory>
        requires members { IsMembers self.now.graph.now self.now.numbers.now self.now.members.now.groups.items }
        requires read { IsRead (length from.now.vars.items) (seen pattern.now) }
        ensures { OnOk result (AddsWhere self.now.graph.now self.now.numbers.now found.old.items found.new.items from.now (λ m. StandsIn self.now.graph.now self.now.numbers.now m (seen pattern.now) class) (names (seen pattern.now)) (reads (length from.now.vars.items) (seen pattern.now))) }
    {
        match pattern {
            Pattern::Var(j) => {
                if let Some(b) = self.bind_var(alloc, from, *j, class)? {
                    found.push(b)?;
                }
                Ok(())
            }
            Pattern::Constant(j) => self.extend_constant(alloc, *j, class, from, found),
            Pattern::OverEach(which, each) => {
                self.extend_each(alloc, *which, *each, class, from, found)
            }
            Pattern::Over(head, patterns) => {
                let starts = self.starts(alloc, *head, class, from)?;
                for start in &starts {
                    self.extend_all(
                        alloc,
                        patterns,
                        self.kids_at(start.node),
                        &start.binding,
                        found,
                    )?;
                }
                Ok(())
            }
            _ => Ok(()),
        }
    }

    // Adds the bindings under which patterns stand in the classes of these kids, one in each.
    #[cycle(extend)]
    pub(crate) fn extend_all(
        &self,
        alloc: Global,
        patterns: &[Pattern],
        kids: &[NodeId],
        from: &Binding,
        found: &mut Vec<Binding>,
    ) -> Result<(), Memory>
        requires members { IsMembers self.now.graph.now self.now.numbers.now self.now.members.now.groups.items }
        requires read { AreRead (length from.now.vars.items) (listed (map seen patterns.now)) }
        ensures { OnOk result (AddsWhere self.now.graph.now self.now.numbers.now found.old.items found.new.items from.now (λ m. AllStandIn self.now.graph.now self.now.numbers.now m (listed (map seen patterns.now)) (map (class_of self.now.numbers.now) kids.now)) (names_in (listed (map seen patterns.now))) (reads_all (length from.now.vars.items) (listed (map seen patterns.now)))) }
    {
        let mut bindings = Vec::new(alloc);
        bindings.push(from.copy(alloc)?)?;
        let mut rest = kids;
        for pattern in patterns {
            let [kid, after @ ..] = rest else {
                return Ok(());
            };
            let mut next = Vec::new(alloc);
            for b in &bindings {
                self.extend(alloc, pattern, self.class(*kid), b, &mut next)?;
            }
            bindings = next;
            rest = after;
        }
        if rest.is_empty() {
            found.append(&mut bindings)?;
        }
        Ok(())
    }
}
