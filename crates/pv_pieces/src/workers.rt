//! What a phase is run by.

ghost use Rattle.std.specs.Prelude.{◌≡◌, ◌<◌};

/// What the pieces of a phase are run by: the runtime, which starts threads, the gate, which each piece passes before its work on an item,
/// and the number of pieces, at least one. None of them changes an answer.
#[derive(Drop)]
pub struct Workers<'a, R, G> {
    pub rt: &'a R,
    pub gate: &'a G,
    count: usize,
    ghost some: { 0 < count },
}

impl<'a, R, G> Workers<'a, R, G> {
    /// This many workers, of which there is one at least.
    pub fn new(rt: &'a R, gate: &'a G, count: usize) -> Workers<'a, R, G>
        requires { 0 < count }
        ensures { result.count ≡ count }
    {
        Workers { rt, gate, count }
    }

    /// The number of pieces.
    pub fn count(&self) -> usize
        ensures value { result ≡ self.now.count }
        ensures some { 0 < result }
    {
        self.count
    }

    /// One worker in place of all, for the phases inside a piece.
    pub fn alone(&self) -> Workers<'a, R, G>
        ensures { result.count ≡ 1 }
    {
        Workers::new(self.rt, self.gate, 1)
    }
}
