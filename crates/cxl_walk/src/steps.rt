//! The steps of a slot above a node.

use cxl_model::Step;

/// The steps of a slot above a node: the first `len` of `steps`, the others being zero.
#[derive(Clone, Copy)]
pub(crate) struct StepsAbove {
    pub(crate) len: u8,
    pub(crate) steps: [Step; 5],
    /// The slot's number divided by the ways of the window and of these steps.
    pub(crate) rest: u32,
}
