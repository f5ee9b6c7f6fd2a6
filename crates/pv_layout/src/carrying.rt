//! What the loops of a method carry: the slots that their blocks write.

ghost use Rattle.std.specs.Prelude.{◌≡◌, true, false, length, replicate, slice_set, IfOk};
ghost use Rattle.pv_frame.specs.Stacks.{is_wide};
ghost use Rattle.pv_runs.specs.Held.{held_at};
ghost use Rattle.pv_runs.specs.Carrying.{writes_heap};
ghost use Rattle.pv_layout.specs.Routine.{IsRoutine};
ghost use Rattle.pv_layout.specs.Carried.{Marks, IsUnion, IsEven, Knows, lost_before, marked_before, Stores, Acts, RunsThrough, AllRunThrough, IsWritten, AreWritten, AreOfSize, AreBelow, Unites, AreCarried};

use pv_flow::{Block, Flow};
use pv_frame::{Action, Frame, Sort, Typed};
use pv_loops::Forest;
use pv_value::Memory;
use std::alloc::Global;

/// What a loop carries besides the token and the operand stack, which every loop carries: the heap, and
/// which of the method's locals. For a block, which of these it writes.
#[derive(Debug, Drop)]
pub struct Writes {
    pub heap: bool,
    pub locals: Vec<bool>,
}

impl Writes {
    // Neither the heap nor one of this many locals.
    fn none(alloc: Global, count: usize) -> Result<Writes, Memory>
        ensures { IfOk result (λ w. Marks count (λ s. false) w) }
    {
        Ok(Writes {
            heap: false,
            locals: unmarked(alloc, count)?,
        })
    }

    // Adds what others write.
    fn add(&mut self, others: &Writes)
        requires { length self.old.locals.items ≡ length others.now.locals.items }
        ensures { IsUnion self.old others.now self.new }
    {
        self.heap = self.heap || others.heap;
        for k in 0..self.locals.len() {
            if others.locals[k] {
                self.locals[k] = true;
            }
        }
    }
}

// None of this many.
fn unmarked(alloc: Global, count: usize) -> Result<Vec<bool>, Memory>
    ensures { IfOk result (λ marks. marks.items ≡ replicate count false) }
{
    Ok(vec![in alloc; false; count]?)
}

// Whether a value of this sort is of category 2 (JVMS 2.11.1).
fn is_wide(sort: Sort) -> bool
    ensures { result ≡ is_wide sort }
{
    matches!(sort, Sort::Long)
}

// Whether an action leaves another heap.
fn writes_heap(action: &Action) -> bool
    ensures { result ≡ writes_heap action.now }
{
    match action {
        Action::PutStatic(_, _)
        | Action::PutField(_, _)
        | Action::StoreElement(_)
        | Action::StoreRef
        | Action::Call(_, _)
        | Action::CallOn(_, _) => true,
        _ => false,
    }
}

// A walk over the actions of a block.
#[derive(Debug, Drop)]
struct Walk {
    // Which locals hold a value of category 2 now, which takes the next local too.
    wide: Vec<bool>,
    // Which locals have been written.
    written: Vec<bool>,
}

impl Walk {
    // Where a block begins with this frame.
    fn start(alloc: Global, frame: &Frame) -> Result<Walk, Memory>
        ensures knows { IfOk result (λ w. Knows (held_at frame.now) w.wide.items) }
        ensures written { IfOk result (λ w. w.written.items ≡ replicate (length frame.now.locals) false) }
    {
        let sorts = frame.locals.as_slice();
        let mut wide = Vec::with_capacity(alloc, sorts.len())?;
        for sort in sorts {
            wide.push(is_wide(*sort))?;
        }
        let written = unmarked(alloc, sorts.len())?;
        Ok(Walk { wide, written })
    }

    // Writes local k, with a value of category 2 or without one; nothing, where there is no local k.
    fn set(&mut self, k: usize, wide: bool)
        requires { IsEven self.old }
        ensures wide { self.new.wide.items ≡ slice_set self.old.wide.items k wide }
        ensures written { self.new.written.items ≡ slice_set self.old.written.items k true }
    {
        if k < self.wide.len() {
            self.wide[k] = wide;
            self.written[k] = true;
        }
    }

    // Writes local k - 1, where its value of category 2 is lost to a store into local k.
    fn lose_before(&mut self, k: usize)
        requires { IsEven self.old }
        ensures wide { self.new.wide.items ≡ lost_before k self.old.wide.items }
        ensures written { self.new.written.items ≡ marked_before k self.old.wide.items self.old.written.items }
    {
        if k > 0 && k <= self.wide.len() && self.wide[k - 1] {
            self.set(k - 1, false);
        }
    }

    // Stores a value into a local (JVMS 2.6.1): one of category 2 takes the next local too, and one that
    // the local was the second half of is lost.
    fn store(&mut self, place: u16, wide: bool)
        requires { IsEven self.old }
        ensures { Stores place wide self.old self.new }
    {
        let k = usize::from(place);
        self.lose_before(k);
        self.set(k, wide);
        if wide {
            self.set(k + 1, false);
        }
    }

    // Goes on with one more action.
    fn act(&mut self, action: &Action)
        requires { IsEven self.old }
        ensures { Acts action.now self.old self.new }
    {
        match action {
            Action::Store(sort, place) => self.store(*place, is_wide(*sort)),
            Action::Increase(place, _) => self.set(usize::from(*place), false),
            _ => {}
        }
    }
}

// What a block writes.
fn written(alloc: Global, typed: &Typed, block: &Block) -> Result<Writes, Memory>
    requires { RunsThrough typed.now.program typed.now.frames block.now }
    ensures { IfOk result (λ w. IsWritten typed.now.program typed.now.frames block.now w) }
{
    let Some(frame) = &typed.frames.as_slice()[block.first as usize] else {
        unreachable!()
    };
    let actions = typed.program.actions.as_slice();
    let mut heap = false;
    let mut walk = Walk::start(alloc, frame)?;
    for action in &actions[block.first as usize..=block.last as usize] {
        heap = heap || writes_heap(action);
        walk.act(action);
    }
    Ok(Writes {
        heap,
        locals: walk.written,
    })
}

// What each block writes.
fn all_written(alloc: Global, typed: &Typed, blocks: &[Block]) -> Result<Vec<Writes>, Memory>
    requires { AllRunThrough typed.now.program typed.now.frames blocks.now }
    ensures { IfOk result (λ all. AreWritten typed.now.program typed.now.frames blocks.now all.items) }
{
    let mut all = Vec::with_capacity(alloc, blocks.len())?;
    for block in blocks {
        all.push(written(alloc, typed, block)?)?;
    }
    Ok(all)
}

// What these blocks write together, of this many locals.
fn united(alloc: Global, blocks: &[Writes], members: &[u32], count: usize) -> Result<Writes, Memory>
    requires size { AreOfSize count blocks.now }
    requires below { AreBelow (length blocks.now) members.now }
    ensures { IfOk result (λ w. Unites count blocks.now members.now w) }
{
    let mut all = Writes::none(alloc, count)?;
    for member in members {
        all.add(&blocks[*member as usize]);
    }
    Ok(all)
}

/// What each loop of a method carries.
pub fn slots_carried(
    alloc: Global,
    typed: &Typed,
    flow: &Flow,
    forest: &Forest,
) -> Result<Vec<Writes>, Memory>
    requires { IsRoutine typed.now.program typed.now.frames flow.now.blocks forest.now }
    ensures { IfOk result (λ all. AreCarried typed.now.program typed.now.frames flow.now.blocks forest.now all.items) }
{
    let mut all = Vec::new(alloc);
    if forest.loops.is_empty() {
        return Ok(all);
    }
    let blocks = all_written(alloc, typed, flow.blocks.as_slice())?;
    let count = usize::from(typed.program.max_locals);
    for one in &forest.loops {
        all.push(united(alloc, &blocks, &one.members, count)?)?;
    }
    Ok(all)
}
