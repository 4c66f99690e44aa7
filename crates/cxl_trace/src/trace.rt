//! A trace: the walk of a host address as far as it leads.

ghost use Rattle.std.specs.Prelude.{◌≤◌};

use cxl_model::{Miss, Step};

/// Where a walk sets out: the usable window that holds the address, and its target there.
#[derive(Clone, Copy, Debug, PartialEq, Eq)]
pub struct Outset {
    /// The window's index.
    pub window: u32,
    /// To which of the window's targets the address goes.
    pub position: u32,
    /// The node number of the bridge that is this target.
    pub bridge: u32,
}

/// A byte of an endpoint's device, with the decoder that leads to it.
#[derive(Clone, Copy, Debug, PartialEq, Eq)]
pub struct EndByte {
    /// The endpoint's node number.
    pub endpoint: u32,
    /// The number of the endpoint's decoder.
    pub decoder: u8,
    /// That decoder's first host address.
    pub base: u64,
    /// The device address.
    pub dpa: u64,
}

/// Where a walk ends.
#[derive(Clone, Copy, Debug, PartialEq, Eq)]
pub enum WalkEnd {
    /// At a byte of a device.
    Comes(EndByte),
    /// At the first place that leads no further.
    Lost(Miss),
}

/// The walk of a host address as far as it leads.
#[derive(Clone, Copy, Debug, PartialEq, Eq)]
pub struct Trace {
    /// `None` where no usable window holds the address.
    pub outset: Option<Outset>,
    /// How many steps there are: one for each port on the way that does not forward and sends the address to a child.
    pub len: u8,
    /// The first `len` are these steps, from the bridge on; the others are zero.
    pub steps: [Step; 5],
    pub end: WalkEnd,
    ghost few: { len ≤ 5 },
}
