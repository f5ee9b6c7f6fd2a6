//! Calls of `pv_denote`, as steps of a line `graph`.
//!
//! | Step | Answer |
//! |---|---|
//! | `den NODE FUEL ITERATION ..` | the value of a node of a sealed graph with this fuel, `None` if it has none: at these iterations, that of depth 1 first |
//! | `at PLACE NODE FUEL ITERATION ..` | the number at a place of the heap that the node gives, or with which it ends |

ghost use Rattle.std.specs.Prelude.{IsTrue};
ghost use Rattle.pv_denote.specs.Meaning.{AreSmall};

use crate::graphs::read_node;
use crate::settings::Setting;
use cases_words::answers::{Answer, NoAnswer, said, shown};
use cases_words::bench::number;
use cases_words::values::{outcome_text, read_nums, read_place};
use pv_denote::den;
use pv_graph::Graph;
use pv_list::Listed;
use pv_value::{Heap, Input, Num, Val};
use std::alloc::Global;

// The greatest fuel and iteration of `den` is below this.
const LIMIT: u64 = 1 << 62;

/// The world and the input of a line's questions.
#[derive(Drop)]
pub struct Meanings {
    setting: Setting,
    args: Listed<Num>,
}

impl Meanings {
    /// An empty world, and an input without arguments.
    pub fn new(alloc: Global) -> Meanings {
        Meanings {
            setting: Setting::new(alloc),
            args: Listed::from(Vec::new(alloc)),
        }
    }

    /// Takes in what a step says.
    pub fn take(&mut self, alloc: Global, step: &[&str]) -> Answer {
        match step {
            ["args", args @ ..] => self.args = read_nums(alloc, args)?,
            _ => self.setting.take(alloc, step)?,
        }
        said(alloc, "-")
    }

    /// `den NODE FUEL ITERATION ..`
    pub fn den(&self, alloc: Global, graph: &Graph, question: &[&str]) -> Answer {
        match self.value(alloc, graph, question)? {
            None => said(alloc, "None"),
            Some(value) => value_text(alloc, value),
        }
    }

    /// `at PLACE NODE FUEL ITERATION ..`
    pub fn at(&self, alloc: Global, graph: &Graph, place: &str, question: &[&str]) -> Answer {
        let place = read_place(alloc, place)?;
        match self.value(alloc, graph, question)? {
            None => said(alloc, "None"),
            Some(Val::Heap(heap)) => shown(alloc, heap.get(&place)),
            Some(Val::End(outcome)) => {
                let (_, heap) = outcome_text(alloc, outcome)?;
                shown(alloc, heap.get(&place))
            }
            Some(_) => Err(NoAnswer::Unreadable),
        }
    }

    // The value of a node with some fuel, at some iterations.
    fn value(
        &self,
        alloc: Global,
        graph: &Graph,
        question: &[&str],
    ) -> Result<Option<Val>, NoAnswer> {
        let [node, fuel, iterations @ ..] = question else {
            return Err(NoAnswer::Unreadable);
        };
        let node = read_node(graph, node)?;
        let fuel = number(fuel)?;
        let index = read_iterations(alloc, iterations)?;
        if graph.is_open() || fuel >= LIMIT || !are_small(&index) {
            return Err(NoAnswer::Unreadable);
        }
        let input = self.input(alloc)?;
        Ok(den(
            alloc,
            graph,
            &self.setting.world,
            &input,
            node,
            &index,
            fuel,
        )?)
    }

    fn input(&self, alloc: Global) -> Result<Input, NoAnswer> {
        Ok(Input {
            this: 1,
            args: Listed::from(Vec::from_slice(alloc, self.args.as_slice())?),
            heap: self.setting.heap.copy()?,
        })
    }
}

fn read_iterations(alloc: Global, words: &[&str]) -> Result<Vec<u64>, NoAnswer> {
    let mut iterations = Vec::new(alloc);
    for word in words {
        iterations.push(number(word)?)?;
    }
    Ok(iterations)
}

fn are_small(iterations: &[u64]) -> bool
    ensures { IsTrue result → AreSmall iterations.now }
{
    iterations.iter().all(|k| *k < LIMIT)
}

fn value_text(alloc: Global, value: Val) -> Answer {
    match value {
        Val::Num(n) => shown(alloc, n),
        Val::Count(n) => Ok(format!(in alloc; "Count({n})")?),
        Val::Fault(fault) => Ok(format!(in alloc; "Fault({fault:?})")?),
        Val::Unit => said(alloc, "Unit"),
        Val::Heap(_) => said(alloc, "Heap"),
        Val::End(outcome) => {
            let (text, _) = outcome_text(alloc, outcome)?;
            Ok(text)
        }
    }
}
