//! A region's own decoder: which one of which node, and of how many ways.

/// A decoder of a region.
#[derive(Clone, Copy, Debug, PartialEq, Eq)]
pub struct Own {
    /// The node's number.
    pub node: u32,
    /// The number of the node's decoder.
    pub index: u8,
    /// How many ways it has.
    pub ways: u8,
}
