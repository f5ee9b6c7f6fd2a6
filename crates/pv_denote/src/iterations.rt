//! The iterations of the loops around a node.

ghost use Rattle.std.specs.Prelude.{◌≡◌, ◌≤◌, ℕ};
ghost use Rattle.pv_denote.specs.Denote.{at_depth};
ghost use Rattle.pv_denote.specs.Meaning.{index_of};

/// The greatest depth of loops.
const MAX_DEPTH: usize = 16;

/// An iteration for each depth of loops, from 1 to 16.
#[derive(Clone, Copy)]
pub struct Iterations {
    pub from_depth_1: [u64; MAX_DEPTH],
}

impl Iterations {
    /// The iterations that a list has, that of depth 1 first: a missing one is 0, and those of depths
    /// that no loop has are left out.
    pub fn new(index: &[u64]) -> Iterations
        ensures { (d : ℕ) → d ≤ 16 → index_of result.from_depth_1 d ≡ index_of index.now d }
    {
        let mut from_depth_1 = [0; MAX_DEPTH];
        let known = index.len().min(MAX_DEPTH);
        from_depth_1[..known].copy_from_slice(&index[..known]);
        Iterations { from_depth_1 }
    }

    /// The iteration at a depth.
    pub fn at(&self, depth: u32) -> u64
        requires low { 1 ≤ depth }
        requires high { depth ≤ 16 }
        ensures { result ≡ index_of self.now.from_depth_1 depth }
    {
        self.from_depth_1[depth as usize - 1]
    }

    /// The same iterations but at one depth.
    pub fn with(mut self, depth: u32, iteration: u64) -> Iterations
        requires low { 1 ≤ depth }
        requires high { depth ≤ 16 }
        ensures { index_of result.from_depth_1 ≡ at_depth (index_of self.from_depth_1) depth iteration }
    {
        self.from_depth_1[depth as usize - 1] = iteration;
        self
    }
}
