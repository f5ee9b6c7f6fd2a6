//! The steps for two roots, by the way in which they met.

ghost use Rattle.std.specs.Prelude.{◌≡◌, ◌≢◌, ◌<◌, ℕ, [], IfOk, length, Some};
ghost use Rattle.std.specs.List.{AllByRecursion};
ghost use Rattle.pv_axioms.specs.Entries.{ByAxioms};
ghost use Rattle.pv_cert.specs.StepLines.{StepFits};
ghost use Rattle.pv_endings.specs.Endings.{IsRootOver};
ghost use Rattle.pv_endings.specs.declared.root.RootParts as parts;
ghost use Rattle.pv_prove.specs.declared.meeting.Meeting.TheVariants.{Kids, Roots};
ghost use Rattle.pv_prove.specs.Finding.{MeetIn};
ghost use Rattle.pv_steps.specs.Accepted.{Derives};
ghost use Rattle.pv_trim.specs.Citing.{IsLean};
ghost use Rattle.pv_certify.specs.Met.{HaveMadeSome, HaveMet};

use pv_alike::Least;
use pv_endings::{RootParts, root_parts};
use pv_explain::{BothSearches, RootPair, ending_section, section};
use pv_graph::{Graph, NodeId};
use pv_list::Listed;
use pv_prove::{Meeting, Search, Searches};
use pv_steps::Step;
use pv_trim::trim;
use pv_value::Memory;
use std::alloc::Global;

// What a search made, as its joins are explained.
fn made_by<'a>(search: &'a Search) -> pv_explain::Search<'a>
    ensures graph { result.graph.now ≡ search.now.graph }
    ensures blocks { result.blocks.now ≡ search.now.classes.blocks }
    ensures joins { result.joins.now ≡ search.now.classes.joins }
{
    pv_explain::Search {
        graph: &search.graph,
        blocks: search.classes.blocks(),
        joins: search.classes.joins(),
    }
}

// Steps for two roots that the plain search joined.
fn steps_for_roots(
    alloc: Global,
    least: &Least,
    searches: &Searches,
) -> Result<Listed<Step>, Memory>
    requires first { least.now.first < length least.now.graph.nodes }
    requires second { least.now.second < length least.now.graph.nodes }
    requires apart { least.now.first ≢ least.now.second }
    requires made { HaveMadeSome least.now searches.now }
    requires met { MeetIn least.now searches.now (Some Roots) }
    ensures { IfOk result (λ steps. Derives ByAxioms least.now.graph least.now.first least.now.second steps) }
{
    let plain = made_by(&searches.plain);
    section(alloc, least.graph(), &plain, least.first(), least.second())
}

// The kids of a root.
fn parts_of(graph: &Graph, p: NodeId) -> RootParts
    requires { (parts : parts.RootParts) × IsRootOver graph.now p parts }
    ensures { IsRootOver graph.now p result }
{
    root_parts(graph, p).unwrap()
}

// The two roots of a least graph, with their kids.
fn root_pair(least: &Least) -> RootPair
    requires first { (parts : parts.RootParts) × IsRootOver least.now.graph least.now.first parts }
    requires second { (parts : parts.RootParts) × IsRootOver least.now.graph least.now.second parts }
    ensures first { result.first ≡ least.now.first }
    ensures second { result.second ≡ least.now.second }
    ensures left { IsRootOver least.now.graph least.now.first result.left }
    ensures right { IsRootOver least.now.graph least.now.second result.right }
{
    let (first, second) = (least.first(), least.second());
    RootPair {
        first,
        second,
        left: parts_of(least.graph(), first),
        right: parts_of(least.graph(), second),
    }
}

// Steps for two roots whose kids met.
fn steps_for_kids(alloc: Global, least: &Least, searches: &Searches) -> Result<Listed<Step>, Memory>
    requires made { HaveMadeSome least.now searches.now }
    requires met { MeetIn least.now searches.now (Some Kids) }
    ensures { IfOk result (λ steps. Derives ByAxioms least.now.graph least.now.first least.now.second steps) }
{
    let roots = root_pair(least);
    let ending = searches.ending();
    let both = BothSearches {
        plain: made_by(&searches.plain),
        ending: made_by(ending),
        ends: &ending.endings,
    };
    ending_section(alloc, least.graph(), &both, &roots)
}

/// The steps of a section that derives that the roots of a least graph are equal, which met in two searches. Each of them is the
/// last or is cited by a later one, and each has a spelling. Where the roots are one node there are none. Out of memory is the one
/// error.
pub fn certify(
    alloc: Global,
    least: &Least,
    searches: &Searches,
    meeting: Meeting,
) -> Result<Listed<Step>, Memory>
    requires first { least.now.first < length least.now.graph.nodes }
    requires second { least.now.second < length least.now.graph.nodes }
    requires met { HaveMet least.now searches.now meeting }
    ensures derives { IfOk result (λ steps. Derives ByAxioms least.now.graph least.now.first least.now.second steps) }
    ensures lean { IfOk result (λ steps. IsLean steps) }
    ensures spelled { IfOk result (λ steps. AllByRecursion StepFits steps) }
    ensures none { IfOk result (λ steps. least.now.first ≡ least.now.second → steps ≡ []) }
{
    let steps = steps_for(alloc, least, searches, meeting)?;
    trim(alloc, least, &steps)
}

// The same, with steps that nothing needs.
fn steps_for(
    alloc: Global,
    least: &Least,
    searches: &Searches,
    meeting: Meeting,
) -> Result<Listed<Step>, Memory>
    requires first { least.now.first < length least.now.graph.nodes }
    requires second { least.now.second < length least.now.graph.nodes }
    requires met { HaveMet least.now searches.now meeting }
    ensures { IfOk result (λ steps. Derives ByAxioms least.now.graph least.now.first least.now.second steps) }
{
    if least.first() == least.second() {
        return Ok(Listed::from(Vec::new(alloc)));
    }
    match meeting {
        Meeting::Roots => steps_for_roots(alloc, least, searches),
        Meeting::Kids => steps_for_kids(alloc, least, searches),
    }
}
