//! The lines on a path, put together.

ghost use Rattle.std.specs.Prelude.{◌≡◌, ℕ, IfOk};
ghost use Rattle.pv_writer.specs.Written.{GoesOn, IsFact};
ghost use Rattle.pv_explain.specs.Lines.{AreFacts, HasLine, IsReached, LineOf, ReachBy};

use pv_graph::NodeId;
use pv_paths::Way;
use pv_steps::{Fact, Reason};
use pv_value::Memory;
use pv_writer::Writer;

/// Two nodes of a search, their copies, and a fact that states that the copies are equal.
#[derive(Clone, Copy)]
pub(crate) struct Line {
    pub(crate) first: NodeId,
    pub(crate) second: NodeId,
    pub(crate) left: NodeId,
    pub(crate) right: NodeId,
    pub(crate) fact: Fact,
}

// Two nodes of the certificate's graph, and a fact that states that they are equal.
#[derive(Clone, Copy)]
pub(crate) struct Equal {
    pub(crate) left: NodeId,
    pub(crate) right: NodeId,
    pub(crate) fact: Fact,
}

// A node that a path leads to, and why it is equal to the first one.
#[derive(Clone, Copy)]
pub(crate) struct Reached {
    pub(crate) node: NodeId,
    pub(crate) why: Reason,
}

// The equality of a line that is crossed, in the direction of the path.
fn crossed(writer: &mut Writer, lines: &[Line], way: Way) -> Result<Equal, Memory>
    requires known { AreFacts writer.old lines.now }
    requires line { HasLine lines.now way }
    ensures line { IfOk result (λ e. LineOf lines.now way e.left e.right) }
    ensures known { IfOk result (λ e. IsFact writer.new e.fact e.left e.right) }
    ensures goes { IfOk result (λ e. GoesOn writer.old writer.new) }
{
    match way {
        Way::Forth(join) => {
            let line = lines[join];
            Ok(Equal {
                left: line.left,
                right: line.right,
                fact: line.fact,
            })
        }
        Way::Back(join) => {
            let line = lines[join];
            let fact = writer.flip(line.right, line.left, line.fact)?;
            Ok(Equal {
                left: line.right,
                right: line.left,
                fact,
            })
        }
    }
}

// One equality more on the way from a node.
fn gone_on(
    writer: &mut Writer,
    first: NodeId,
    so_far: Reached,
    next: Equal,
) -> Result<Reached, Memory>
    requires so_far { IsReached writer.old first so_far }
    requires known { IsFact writer.old next.fact next.left next.right }
    requires next { so_far.node ≡ next.left }
    ensures reached { IfOk result (λ r. IsReached writer.new first r) }
    ensures node { IfOk result (λ r. r.node ≡ next.right) }
    ensures goes { IfOk result (λ r. GoesOn writer.old writer.new) }
{
    let fact = match so_far.why {
        Reason::By(fact) => writer.chain(first, next.right, fact, next.fact)?,
        _ => next.fact,
    };
    Ok(Reached {
        node: next.right,
        why: Reason::By(fact),
    })
}

// Follows a path from a node, and says why the node that it leads to is equal.
pub(crate) fn follow(
    writer: &mut Writer,
    lines: &[Line],
    path: &[Way],
    first: NodeId,
) -> Result<Reached, Memory>
    requires known { AreFacts writer.old lines.now }
    requires path { (y : ℕ) × ReachBy lines.now path.now first y }
    ensures path { IfOk result (λ r. ReachBy lines.now path.now first r.node) }
    ensures reached { IfOk result (λ r. IsReached writer.new first r) }
    ensures goes { IfOk result (λ r. GoesOn writer.old writer.new) }
{
    let mut reached = Reached {
        node: first,
        why: Reason::Same,
    };
    for way in path {
        let next = crossed(writer, lines, *way)?;
        reached = gone_on(writer, first, reached, next)?;
    }
    Ok(reached)
}
