//! A section without the steps that nothing needs.

ghost use Rattle.std.specs.Prelude.{◌≡◌, ◌≢◌, ◌<◌, ◌≤◌, [], IfOk, false, length, reverse};
ghost use Rattle.std.specs.List.{AllByRecursion};
ghost use Rattle.pv_graph.specs.Graphs.{IsWellMade};
ghost use Rattle.pv_steps.specs.Accepted.{Derives};
ghost use Rattle.pv_axioms.specs.Entries.{ByAxioms};
ghost use Rattle.pv_cert.specs.StepLines.{StepFits};
ghost use Rattle.pv_trim.specs.Citing.{IsLean};
ghost use Rattle.pv_trim.specs.Moving.{count, kept_steps};
ghost use Rattle.pv_trim.specs.Marks.{is_on};
ghost use Rattle.pv_trim.specs.Spelling.{HaveMembers};

use crate::ends::ends_of;
use crate::marks::marks_of;
use crate::moved::Numbers;
use crate::ranks::Ranks;
use crate::spelled::steps_fit;
use pv_alike::Least;
use pv_list::Listed;
use pv_steps::Step;
use pv_value::Memory;
use std::alloc::Global;

// The kept steps in order, under their new numbers.
fn kept(alloc: Global, steps: &[Step], numbers: &Numbers) -> Result<Vec<Step>, Memory>
    ensures { IfOk result (λ new. reverse new.items ≡ kept_steps (is_on numbers.now.steps) (count (is_on numbers.now.nodes)) (count (is_on numbers.now.steps)) (reverse steps.now)) }
{
    let mut new = Vec::new(alloc);
    for k in 0..steps.len() {
        if numbers.steps.has(k) {
            new.push(numbers.step(alloc, &steps[k])?)?;
        }
    }
    Ok(new)
}

// The steps on which the last one rests, where the roots are two nodes.
fn needed(alloc: Global, least: &Least, steps: &[Step]) -> Result<Vec<Step>, Memory>
    requires made { IsWellMade least.now.graph }
    requires sealed { least.now.graph.is_open ≡ false }
    requires first { least.now.first < length least.now.graph.nodes }
    requires second { least.now.second < length least.now.graph.nodes }
    requires two { least.now.first ≢ least.now.second }
    requires derives { Derives ByAxioms least.now.graph least.now.first least.now.second steps.now }
    ensures derives { IfOk result (λ new. Derives ByAxioms least.now.graph least.now.first least.now.second new.items) }
    ensures lean { IfOk result (λ new. IsLean new.items) }
    ensures members { IfOk result (λ new. HaveMembers new.items) }
    ensures size { IfOk result (λ new. length new.items ≤ length steps.now) }
{
    let ends = ends_of(alloc, steps)?;
    let marks = marks_of(alloc, steps, &ends, least.graph().len())?;
    let numbers = Numbers {
        nodes: Ranks::new(alloc, marks.nodes)?,
        steps: Ranks::new(alloc, marks.steps)?,
    };
    kept(alloc, steps, &numbers)
}

/// The steps of an accepted section that its last step needs, in their order and under new numbers.
///
/// They are accepted over the same graph (`derives`). Each of them is the last, or a later one cites it (`lean`).
/// Each has a spelling, so that they can be written as a section of a certificate (`spelled`). There are no more of
/// them than before (`size`). Where the roots are one node, no step is needed (`none`).
///
/// Time and memory are linear in the number of nodes of the graph and the size of the steps. The only error is that
/// memory runs out.
pub fn trim(alloc: Global, least: &Least, steps: &Listed<Step>) -> Result<Listed<Step>, Memory>
    requires made { IsWellMade least.now.graph }
    requires sealed { least.now.graph.is_open ≡ false }
    requires first { least.now.first < length least.now.graph.nodes }
    requires second { least.now.second < length least.now.graph.nodes }
    requires derives { Derives ByAxioms least.now.graph least.now.first least.now.second steps.now }
    ensures none { IfOk result (λ new. least.now.first ≡ least.now.second → new ≡ []) }
    ensures derives { IfOk result (λ new. Derives ByAxioms least.now.graph least.now.first least.now.second new) }
    ensures lean { IfOk result (λ new. IsLean new) }
    ensures spelled { IfOk result (λ new. AllByRecursion StepFits new) }
    ensures size { IfOk result (λ new. length new ≤ length steps.now) }
{
    if least.first() == least.second() {
        return Ok(Listed::from(Vec::new(alloc)));
    }
    let new = needed(alloc, least, steps.as_slice())?;
    steps_fit(&new);
    Ok(Listed::from(new))
}
