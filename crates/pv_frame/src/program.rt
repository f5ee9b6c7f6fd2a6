//! What there is to run of a method.

use crate::action::Action;
use pv_list::Listed;
use pv_value::Descriptor;

/// What there is to run of a method (JVMS 2.6, 4.6, 4.7.3).
#[derive(Drop)]
pub struct Program {
    /// What the instructions do, in the order of the code.
    pub actions: Listed<Action>,
    /// Whether the method has a `this`: ACC_STATIC isn't set.
    pub instance: bool,
    /// The types of its parameters without `this`, and of its result.
    pub desc: Descriptor,
    /// How wide the operand stack may be, where a long counts two.
    pub max_stack: u16,
    /// The number of its locals, of which a long takes two.
    pub max_locals: u16,
}
