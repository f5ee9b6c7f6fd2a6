//! Typed frames.

use crate::sort::Sort;
use pv_list::Listed;

/// The sorts of the values before an instruction (JVMS 2.6, 4.10.1): of the operand stack, with its
/// top first, and of the locals.
#[derive(Debug, Drop)]
pub struct Frame {
    pub stack: Listed<Sort>,
    pub locals: Listed<Sort>,
}
