//! Laws of blocks, for every program and every flow of it: each is the contract of an empty function.

ghost use Rattle.pv_flow.specs.Laws.{EdgesOfCode, EdgesReach, EdgesWithin, Entry, InOneBlock, Leading, OneFlow, ReachedInBlocks, Straight, Untargeted};

/// Inside a block each instruction goes on to the next one alone, and only the first may be a target.
pub fn law_blocks()
    ensures straight { Straight }
    ensures untargeted { Untargeted }
{}

/// Each instruction that is reached stands in exactly one block, and no other stands in one.
pub fn law_cover()
    ensures one { InOneBlock }
    ensures reached { ReachedInBlocks }
{}

/// A program has one flow, so that the answer of `blocks` is the only one.
pub fn law_one()
    ensures { OneFlow }
{}

/// The exits of an instruction go to its successors, so that the edges of a flow are those of the code.
pub fn law_exits()
    ensures leading { Leading }
    ensures edges { EdgesOfCode }
{}

/// Block 0 begins at place 0; each edge goes to a block of the list, and each block is reached along
/// edges from block 0.
pub fn law_edges()
    ensures entry { Entry }
    ensures within { EdgesWithin }
    ensures reach { EdgesReach }
{}
