//! From which blocks a target or an end of the method is ahead.

ghost use Rattle.std.specs.Prelude.{◌≡◌, ◌<◌, length, IfOk};
ghost use Rattle.std.specs.Bool.{Decides};
ghost use Rattle.pv_decide.specs.Sites.{AreInRange};
ghost use Rattle.pv_decide.specs.Reaching.{HitsAt, LeadsOn, Leads, AreSo, Swept, KnowAhead};

use crate::aim::{Aim, Scope};
use crate::site::Site;
use crate::tree::Target;
use pv_flow::Exit;

// Whether an exit is one to the target, or ends the method.
fn hits(aim: Aim, exit: Exit) -> bool
    ensures { Decides result (HitsAt aim.scope aim.target exit) }
{
    match exit {
        Exit::Return | Exit::Throw => true,
        Exit::To(m) => match aim.target {
            Target::Node(n) => m == n,
            Target::Back => aim.scope == Scope::Loop(m),
            Target::Exit | Target::Return | Target::Leave => false,
        },
    }
}

// Whether an exit is one to the target or an end, or goes to a block from which one is known to be ahead.
fn leads_on(aim: Aim, known: &[bool], exit: Exit) -> bool
    ensures { Decides result (LeadsOn aim.scope aim.target known.now exit) }
{
    if hits(aim, exit) {
        return true;
    }
    match exit {
        Exit::To(m) => (m as usize) < known.len() && known[m as usize],
        Exit::Return | Exit::Throw => false,
    }
}

// Whether an exit of the block b leads on.
fn leads(sites: &[Site], aim: Aim, known: &[bool], b: usize) -> bool
    requires { b < length sites.now }
    ensures { Decides result (Leads sites.now aim.scope aim.target known.now b) }
{
    for exit in &sites[b].exits {
        if leads_on(aim, known, *exit) {
            return true;
        }
    }
    false
}

// Marks the blocks that lead on, and says whether there was one.
fn sweep(sites: &[Site], aim: Aim, known: &mut [bool]) -> bool
    requires size { length known.old ≡ length sites.now }
    requires known { AreSo sites.now aim.scope aim.target known.old }
    ensures known { AreSo sites.now aim.scope aim.target known.new }
    ensures swept { Swept sites.now aim.scope aim.target known.old known.new result }
{
    let mut changed = false;
    let mut b = sites.len();
    while b > 0 {
        b -= 1;
        if !known[b] && leads(sites, aim, known, b) {
            known[b] = true;
            changed = true;
        }
    }
    changed
}

/// From which blocks the target or an end of the method is ahead, where it is known of some. It sweeps over
/// the others until none leads on.
pub(crate) fn ahead(sites: &[Site], aim: Aim, known: Vec<bool>) -> Vec<bool>
    requires range { AreInRange sites.now }
    requires size { length known.items ≡ length sites.now }
    requires known { AreSo sites.now aim.scope aim.target known.items }
    ensures { KnowAhead sites.now aim.scope aim.target result.items }
{
    let mut known = known;
    while sweep(sites, aim, &mut known) {}
    known
}
