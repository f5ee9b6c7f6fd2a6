//! The axioms of a table by the operations with which their left sides begin.

ghost use Rattle.std.specs.Prelude.{ℕ, List, map, IfOk, OnOk};
ghost use Rattle.pv_graph.specs.Walks.{In};
ghost use Rattle.pv_graph.specs.declared.node.Node.{Node};
ghost use Rattle.pv_classes.specs.Calls.{Knows};
ghost use Rattle.pv_pattern.specs.Seen.{axiom_seen};
ghost use Rattle.pv_match.specs.Rules.{AddsRule, AreItems, AreRules, HasItems};

use crate::heads::head_number;
use crate::kept::add_kept;
use crate::members::{Group, put, with_number};
use pv_classes::Classes;
use pv_graph::NodeId;
use pv_pattern::{Axiom, OP_NUMBERS, Pattern};
use pv_value::Memory;
use std::alloc::Global;

// Puts an axiom under the number of the operation with which its left side begins.
fn add_rule(alloc: Global, rules: &mut Vec<Group>, i: usize, rule: &Axiom) -> Result<(), Memory>
    ensures { OnOk result (AddsRule (axiom_seen rule.now) i rules.old.items rules.new.items) }
{
    let Pattern::Over(head, _) = &rule.left else {
        return Ok(());
    };
    let Ok(place) = u32::try_from(i) else {
        return Err(Memory);
    };
    put(alloc, rules, head_number(*head), place)?;
    Ok(())
}

// The places of the axioms in a table, in groups by the number of the operation with which the left side begins.
pub(crate) fn rules_of(alloc: Global, table: &[Axiom]) -> Result<Vec<Group>, Memory>
    ensures { IfOk result (λ rules. AreRules (map axiom_seen table.now) rules.items) }
{
    let mut rules = Vec::new(alloc);
    for (i, rule) in table.iter().enumerate() {
        add_rule(alloc, &mut rules, i, rule)?;
    }
    Ok(rules)
}

// Lists the nodes that are kept and whose operation has a number, if there is a rule under it.
fn add_items(
    classes: &Classes,
    kept: &[bool],
    rules: &[Group],
    number: u8,
    items: &mut Vec<NodeId>,
) -> Result<(), Memory>
    ensures stay { OnOk result ((n : ℕ) → In items.old.items n → In items.new.items n) }
    ensures added { OnOk result ((nodes : List Node) → Knows nodes classes.now → HasItems nodes kept.now rules.now number items.new.items) }
{
    if with_number(rules, u32::from(number)).is_empty() {
        return Ok(());
    }
    add_kept(kept, classes.nodes_with(number), items)?;
    Ok(())
}

// The nodes at which a left side may begin: those that are kept and whose operation has the number of a rule.
pub(crate) fn items_of(
    alloc: Global,
    classes: &Classes,
    kept: &[bool],
    rules: &[Group],
) -> Result<Vec<NodeId>, Memory>
    ensures { IfOk result (λ items. (nodes : List Node) → Knows nodes classes.now → AreItems nodes kept.now rules.now items.items) }
{
    let mut items = Vec::new(alloc);
    for number in 0..OP_NUMBERS as u8 {
        add_items(classes, kept, rules, number, &mut items)?;
    }
    Ok(items)
}
