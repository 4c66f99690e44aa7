//! The ways and the address bits of a range's decoders above a node, together.

/// The decoders of one range, or of one plan, in the ports on the way from a node up to its bridge, together.
#[derive(Clone, Copy)]
pub struct Above {
    /// The product of their ways.
    pub ways: u32,
    /// How many address bits they select on.
    pub bits: u32,
}
