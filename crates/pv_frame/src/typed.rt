//! Typed methods.

use crate::frame::Frame;
use crate::program::Program;
use crate::used::Use;
use pv_insn::Insns;
use pv_list::Listed;

/// A method with its typed frames. Its lists go by places in the list of instructions.
#[derive(Drop)]
pub struct Typed {
    /// The instructions, each at its address.
    pub code: Insns,
    /// What each instruction names in the constant pool.
    pub uses: Listed<Use>,
    /// What each instruction does, the method's type and its limits.
    pub program: Program,
    /// The frame before each instruction, `None` exactly where the instruction isn't reached.
    pub frames: Listed<Option<Frame>>,
}
