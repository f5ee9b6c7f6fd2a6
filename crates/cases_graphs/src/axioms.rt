//! Calls of `pv_pattern` on the tables of `pv_scalar`, `pv_loopax`, `pv_heapax` and `pv_choiceax`: two lines, and a
//! step of a line `graph`.
//!
//! | Line | Answer |
//! |---|---|
//! | `axioms` | the numbers of the axioms of each table, in order |
//! | `axiom NUMBER` | the equation of the axiom with this number, and its conditions |
//!
//! | Step | Answer |
//! |---|---|
//! | `instance NUMBER LEFT RIGHT NODES ASSUMED ..` | whether two nodes are the left and the right side of an axiom under the substitution NODES, with these nodes assumed to end, and, of none, on a prepared copy |
//!
//! NODES are numbers with commas between them, `-` for none: the kids of a family, and then a node for each variable.
//!
//! In an equation `x0` is a variable and `k1` one for a constant, numbered by their first places in the left side; `s0`
//! and `s1` are symbols and `K0` and `K1` kinds. `fold(..)` is the constant of that value, and `nar_s0(..)` or
//! `nar_K0(..)` the narrowing to the type of a symbol or of a kind. The conditions are `[x0]` for settled, `{d:x0}` for a
//! node in which the depth isn't free, and what differs.

ghost use Rattle.std.specs.Prelude.{IfOk, IfSome, map};
ghost use Rattle.std.specs.List.{AllByRecursion};
ghost use Rattle.pv_pattern.specs.Binding.{BindsItsNames};
ghost use Rattle.pv_pattern.specs.Seen.{axiom_seen};

use crate::graphs::{prepared, read_numbers};
use cases_words::answers::{Answer, List, NoAnswer, said, shown};
use cases_words::bench::{Bench, number};
use cases_words::values::OPERATIONS;
use pv_choiceax::choice_axioms;
use pv_choiceax::laws::law_choice_names;
use pv_graph::{Graph, NodeId};
use pv_heapax::heap_axioms;
use pv_heapax::laws::law_heap_names;
use pv_loopax::laws::law_loop_names;
use pv_loopax::loop_axioms;
use pv_pattern::{Atom, Axiom, By, Each, Head, Pattern, Side, instance, instance_now};
use pv_scalar::laws::law_scalar_names;
use pv_scalar::scalar_axioms;
use pv_value::{Memory, Num, ScalarOp};
use std::alloc::Global;

/// `axioms`
pub fn axioms(bench: &Bench) -> Answer {
    let alloc = bench.alloc();
    let mut list = List::new(alloc);
    list.add(numbers_text(alloc, &scalar_axioms(alloc)?)?.as_str())?;
    list.add(numbers_text(alloc, &loop_axioms(alloc)?)?.as_str())?;
    list.add(numbers_text(alloc, &heap_axioms(alloc)?)?.as_str())?;
    list.add(numbers_text(alloc, &choice_axioms(alloc)?)?.as_str())?;
    list.into_text()
}

fn numbers_text(alloc: Global, table: &[Axiom]) -> Answer {
    let mut text = String::new(alloc);
    for rule in table {
        if !text.is_empty() {
            text.push(' ')?;
        }
        text.push_str(shown(alloc, rule.number)?.as_str())?;
    }
    Ok(text)
}

/// `axiom NUMBER`
pub fn equation(bench: &Bench, rest: &str) -> Answer {
    let alloc = bench.alloc();
    let n = number(rest)?;
    let table = table_of(alloc, n)?;
    let rule = with_number(&table, n).ok_or(NoAnswer::Unreadable)?;
    let mut text = pattern_text(alloc, &rule.left)?;
    text.push_str(" = ")?;
    text.push_str(pattern_text(alloc, &rule.right)?.as_str())?;
    for side in &rule.sides {
        text.push(' ')?;
        text.push_str(side_text(alloc, *side)?.as_str())?;
    }
    Ok(text)
}

/// `instance NUMBER LEFT RIGHT NODES ASSUMED ..`
pub fn instance_text(alloc: Global, graph: &Graph, question: &[&str]) -> Answer {
    let [n, left, right, nodes, assumed @ ..] = question else {
        return Err(NoAnswer::Unreadable);
    };
    let n = number(n)?;
    let table = table_of(alloc, n)?;
    let rule = with_number(&table, n).ok_or(NoAnswer::Unreadable)?;
    let (left, right) = (number(left)?, number(right)?);
    let nodes = read_list(alloc, nodes)?;
    let assumed = read_numbers(alloc, assumed)?;
    let searched = instance(alloc, graph, &assumed, rule, &nodes, left, right)?;
    if !assumed.is_empty() {
        return shown(alloc, searched);
    }
    let copy = prepared(alloc, graph)?;
    let now = instance_now(&copy, rule, &nodes, left, right);
    shown(alloc, (searched, now))
}

fn read_list(alloc: Global, word: &str) -> Result<Vec<NodeId>, NoAnswer> {
    let mut nodes = Vec::new(alloc);
    if word == "-" {
        return Ok(nodes);
    }
    for node in word.split(',') {
        nodes.push(number(node)?)?;
    }
    Ok(nodes)
}

// The table that has the axiom with this number, if any has.
fn table_of(alloc: Global, n: u32) -> Result<Vec<Axiom>, Memory>
    ensures { IfOk result (λ table. AllByRecursion BindsItsNames (map axiom_seen table.items)) }
{
    match n {
        3000.. => {
            law_choice_names();
            choice_axioms(alloc)
        }
        301..=399 | 1000..=2999 => {
            law_loop_names();
            loop_axioms(alloc)
        }
        501..=599 => {
            law_heap_names();
            heap_axioms(alloc)
        }
        _ => {
            law_scalar_names();
            scalar_axioms(alloc)
        }
    }
}

fn with_number(table: &[Axiom], n: u32) -> Option<&Axiom>
    requires { AllByRecursion BindsItsNames (map axiom_seen table.now) }
    ensures { IfSome result (λ rule. BindsItsNames (axiom_seen rule.now)) }
{
    for rule in table {
        if rule.number == n {
            return Some(rule);
        }
    }
    None
}

#[cycle(sides)]
fn pattern_text(alloc: Global, pattern: &Pattern) -> Answer {
    match pattern {
        Pattern::Var(j) => Ok(format!(in alloc; "x{j}")?),
        Pattern::Constant(j) => Ok(format!(in alloc; "k{j}")?),
        Pattern::Fold(op, atoms) => fold_text(alloc, *op, atoms),
        Pattern::Narrowed(by, inner) => {
            let inner = pattern_text(alloc, inner)?;
            match by {
                By::Symbol(s) => Ok(format!(in alloc; "nar_s{s}({inner})")?),
                By::Kind(k) => Ok(format!(in alloc; "nar_K{k}({inner})")?),
            }
        }
        Pattern::Over(head, patterns) => {
            let mut text = head_text(alloc, *head)?;
            text.push_str(patterns_text(alloc, patterns)?.as_str())?;
            Ok(text)
        }
        Pattern::OverEach(n, Each::Bare) => Ok(format!(in alloc; "operation {n} of kids")?),
        Pattern::OverEach(n, Each::Shifted) => {
            Ok(format!(in alloc; "operation {n} of shift_d(kids)")?)
        }
        Pattern::OverEach(n, Each::Evaluated(j)) => {
            Ok(format!(in alloc; "operation {n} of eval_d(kids,x{j})")?)
        }
    }
}

// The kids of an operation in brackets, nothing for none.
#[cycle(sides)]
fn patterns_text(alloc: Global, patterns: &[Pattern]) -> Answer {
    let mut text = String::new(alloc);
    for pattern in patterns {
        text.push(if text.is_empty() { '(' } else { ',' })?;
        text.push_str(pattern_text(alloc, pattern)?.as_str())?;
    }
    if !text.is_empty() {
        text.push(')')?;
    }
    Ok(text)
}

fn fold_text(alloc: Global, op: ScalarOp, atoms: &[Atom]) -> Answer {
    let mut text = String::from_str(alloc, "fold(")?;
    text.push_str(operation_name(op))?;
    let mut before = '(';
    for atom in atoms {
        text.push(before)?;
        text.push_str(atom_text(alloc, *atom)?.as_str())?;
        before = ',';
    }
    text.push_str("))")?;
    Ok(text)
}

fn atom_text(alloc: Global, atom: Atom) -> Answer {
    match atom {
        Atom::Number(Num::Int(n)) => shown(alloc, n),
        Atom::Number(Num::Long(n)) => Ok(format!(in alloc; "{n}L")?),
        Atom::Number(Num::Ref(n)) => Ok(format!(in alloc; "{n}R")?),
        Atom::Named(j) => Ok(format!(in alloc; "k{j}")?),
    }
}

fn operation_name(op: ScalarOp) -> &'static str {
    for (name, item) in &OPERATIONS {
        if *item == op {
            return name;
        }
    }
    "?"
}

fn head_text(alloc: Global, head: Head) -> Answer {
    match head {
        Head::Int(n) => shown(alloc, n),
        Head::Long(n) => Ok(format!(in alloc; "{n}L")?),
        Head::Null => said(alloc, "null"),
        Head::This => said(alloc, "this"),
        Head::Unit => said(alloc, "unit"),
        Head::Zero => said(alloc, "zero"),
        Head::Succ => said(alloc, "succ"),
        Head::Both => said(alloc, "both"),
        Head::Phi => said(alloc, "phi"),
        Head::Scalar(op) => said(alloc, operation_name(op)),
        Head::Aeq => said(alloc, "aeq"),
        Head::Thrown => said(alloc, "thrown"),
        Head::IsClear => said(alloc, "isclear"),
        Head::Length => said(alloc, "length"),
        Head::Theta => said(alloc, "theta_d"),
        Head::Eval => said(alloc, "eval_d"),
        Head::Pass => said(alloc, "pass_d"),
        Head::Shift => said(alloc, "shift_d"),
        Head::GetStatic(s) => Ok(format!(in alloc; "getstatic_s{s}")?),
        Head::PutStatic(s) => Ok(format!(in alloc; "putstatic_s{s}")?),
        Head::GetField(s) => Ok(format!(in alloc; "getfield_s{s}")?),
        Head::PutField(s) => Ok(format!(in alloc; "putfield_s{s}")?),
        Head::Load(k) => Ok(format!(in alloc; "load_K{k}")?),
        Head::Store(k) => Ok(format!(in alloc; "store_K{k}")?),
    }
}

fn side_text(alloc: Global, side: Side) -> Answer {
    match side {
        Side::Settled(j) => Ok(format!(in alloc; "[x{j}]")?),
        Side::NotFree(j) => Ok(format!(in alloc; "{{d:x{j}}}")?),
        Side::SymbolsDiffer(s, t) => Ok(format!(in alloc; "{{s{s},s{t} differ}}")?),
        Side::KindsDiffer(k, l) => Ok(format!(in alloc; "{{K{k},K{l} differ}}")?),
        Side::NotByte(k) => Ok(format!(in alloc; "{{K{k} not Byte}}")?),
        Side::ConstantsDiffer(j, k) => Ok(format!(in alloc; "{{k{j},k{k} differ}}")?),
    }
}
