//! What is stated at a level.

ghost use Rattle.std.specs.Prelude.{◌≡◌, ℕ, ◌<◌, ◌++◌, ◌∷◌, [], IfOk, IfSome, OnOk, true, false, length, None};
ghost use Rattle.pv_explain.specs.Lines.{sides};
ghost use Rattle.pv_explain.specs.Levels.{AreLow, IsFound};

use crate::follow::Line;
use pv_graph::NodeId;
use pv_paths::Forest;
use pv_value::Memory;
use std::alloc::Global;

/// What is stated so far at a level: the forest and the lines of its joins, in order, and lines of pairs that a join may
/// cite, those of the innermost induction and those of the blocks that are written.
#[derive(Drop)]
pub(crate) struct Level {
    pub(crate) forest: Forest,
    pub(crate) lines: Vec<Line>,
    pub(crate) known: Vec<Line>,
}

impl Level {
    // The outside of all inductions, where nothing is joined yet.
    pub(crate) fn new(alloc: Global, nodes: usize) -> Result<Level, Memory>
        ensures nodes { IfOk result (λ l. l.forest.nodes ≡ nodes) }
        ensures ends { IfOk result (λ l. l.forest.ends ≡ []) }
        ensures lines { IfOk result (λ l. l.lines.items ≡ []) }
        ensures known { IfOk result (λ l. l.known.items ≡ []) }
    {
        Ok(Level {
            forest: Forest::new(alloc, nodes)?,
            lines: Vec::new(alloc),
            known: Vec::new(alloc),
        })
    }

    // One line more.
    pub(crate) fn push(&mut self, line: Line) -> Result<(), Memory>
        requires first { line.first < self.old.forest.nodes }
        requires second { line.second < self.old.forest.nodes }
        ensures nodes { self.new.forest.nodes ≡ self.old.forest.nodes }
        ensures ends { OnOk result (self.new.forest.ends ≡ self.old.forest.ends ++ (line.first, line.second) ∷ []) }
        ensures lines { OnOk result (self.new.lines.items ≡ self.old.lines.items ++ line ∷ []) }
        ensures known { self.new.known.items ≡ self.old.known.items }
    {
        self.forest.push(line.first, line.second)?;
        self.lines.push(line)?;
        Ok(())
    }

    // More lines that a join may cite.
    pub(crate) fn learn(&mut self, more: &[Line]) -> Result<(), Memory>
        ensures forest { self.new.forest ≡ self.old.forest }
        ensures lines { self.new.lines.items ≡ self.old.lines.items }
        ensures known { OnOk result (self.new.known.items ≡ self.old.known.items ++ more.now) }
    {
        self.known.extend_from_slice(more)?;
        Ok(())
    }

    // The level with these lines, and these that a join may cite.
    pub(crate) fn of(
        alloc: Global,
        nodes: usize,
        lines: &[Line],
        known: Vec<Line>,
    ) -> Result<Level, Memory>
        requires { AreLow nodes lines.now }
        ensures nodes { IfOk result (λ l. l.forest.nodes ≡ nodes) }
        ensures ends { IfOk result (λ l. l.forest.ends ≡ sides lines.now) }
        ensures lines { IfOk result (λ l. l.lines.items ≡ lines.now) }
        ensures known { IfOk result (λ l. l.known.items ≡ known.items) }
    {
        let mut level = Level::new(alloc, nodes)?;
        for line in lines {
            level.push(*line)?;
        }
        level.learn(&known)?;
        Ok(level)
    }
}

// Whether the line is of these two nodes.
fn is_of(line: &Line, first: NodeId, second: NodeId) -> bool
    ensures yes { result ≡ true → (line.now.first ≡ first) × (line.now.second ≡ second) }
    ensures no { result ≡ false → line.now.first ≡ first → line.now.second ≡ second → ⊥ }
{
    line.first == first && line.second == second
}

// The last of these lines that is of these two nodes.
pub(crate) fn find(lines: &[Line], first: NodeId, second: NodeId) -> Option<Line>
    ensures found { IfSome result (λ line. IsFound lines.now first second line) }
    ensures none { result ≡ None → (line : Line) → IsFound lines.now first second line → ⊥ }
{
    for i in 0..lines.len() {
        let line = lines[lines.len() - 1 - i];
        if is_of(&line, first, second) {
            return Some(line);
        }
    }
    None
}
