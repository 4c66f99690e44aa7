//! The steps of an address on its way down, and where such a way can end.

/// One step of an address on its way down: the entry of its target list to which a port's decoder sends
/// it.
#[derive(Clone, Copy, Debug, PartialEq, Eq)]
pub struct Step {
    /// The port's node number.
    pub node: u32,
    /// The number of the decoder that holds the address.
    pub decoder: u8,
    /// The place in the decoder's target list, not the port listed there.
    pub entry: u8,
}

/// Why an address leads to no device byte: the first place on its way that leads no further. The number
/// is that place's node.
#[derive(Clone, Copy, Debug, PartialEq, Eq)]
pub enum Miss {
    /// No usable window holds the address.
    NoWindow,
    /// The node's block breaks one of the rules K2 to K8.
    BadBlock(u32),
    /// No committed decoder of the node holds the address.
    NoDecoder(u32),
    /// No child stands at the port that the node's decoder lists, or under a node that forwards.
    NoChild(u32),
}
