//! The words of an operation, as certificates spell them.
//!
//! `pv_cert` writes whole certificates: the words are cut out of the certificate of which the one step adds a node with
//! this operation.

ghost use Rattle.std.specs.Prelude.{◌≡◌, ◌++◌, ◌+◌, ◌-◌, ◌≤◌, length, slice_range, IfOk, OnOk};
ghost use Rattle.pv_token.specs.Words.{spaced};
ghost use Rattle.pv_cert.specs.Operations.{op_words};
ghost use Rattle.pv_drawings.specs.Alone.{alone};

use pv_cert::{Cert, Section, write_cert};
use pv_graph::{Kids, Op};
use pv_list::Listed;
use pv_steps::Step;
use pv_value::{Memory, Name};
use std::alloc::Global;

// What stands before the words: the three lines of the header of version 2, the title `method %- %-`, and `node 0`.
const BEFORE: usize = 13 + 71 + 72 + 13 + 6;

// What stands after them: two line feeds, and `end` between them.
const AFTER: usize = 5;

// The certificate without a name of which the one step adds a node with this operation.
fn alone(alloc: Global, op: &Op) -> Result<Cert, Memory>
    ensures { IfOk result (λ cert. cert ≡ alone op.now) }
{
    let mut steps = Vec::new(alloc);
    steps.push(Step::Node(0, op.copy(alloc)?, Kids::new(alloc, &[])?))?;
    let mut sections = Vec::new(alloc);
    sections.push(Section {
        name: Name::new(alloc, b"")?,
        desc: Name::new(alloc, b"")?,
        steps: Listed::from(steps),
    })?;
    Ok(Cert {
        first: [0; 32],
        second: [0; 32],
        lemmas: Listed::from(Vec::new(alloc)),
        sections: Listed::from(sections),
    })
}

// What stands between the two.
fn cut(text: &[u8]) -> &[u8]
    requires { BEFORE + AFTER ≤ length text.now }
    ensures { result.now ≡ slice_range text.now BEFORE (length text.now - AFTER) }
{
    &text[BEFORE..text.len() - AFTER]
}

/// Adds the words of an operation at the end, each after a blank.
pub fn push_op(alloc: Global, out: &mut Vec<u8>, op: &Op) -> Result<(), Memory>
    ensures { OnOk result (out.new.items ≡ out.old.items ++ spaced (op_words op.now)) }
{
    let cert = alone(alloc, op)?;
    let text = write_cert(alloc, &cert)?;
    out.extend_from_slice(cut(&text))?;
    Ok(())
}
