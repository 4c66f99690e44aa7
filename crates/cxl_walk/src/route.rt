//! A route: the way of an address from its window down to a device byte.

ghost use Rattle.std.specs.Prelude.{◌≤◌};

use cxl_model::Step;

/// The way of an address down to a byte of a device.
#[derive(Clone, Copy, Debug, PartialEq, Eq)]
pub struct Route {
    /// The index of the window that holds the address.
    pub window: u32,
    /// To which of the window's targets it goes.
    pub position: u32,
    /// The first host address of the endpoint's decoder.
    pub base: u64,
    /// How many steps there are: one for each port on the way that does not forward.
    pub len: u8,
    /// The first `len` are these steps, from the bridge on; the others are zero.
    pub steps: [Step; 5],
    /// The endpoint's node number.
    pub endpoint: u32,
    /// The number of the endpoint's decoder.
    pub decoder: u8,
    /// The device address.
    pub dpa: u64,
    ghost few: { len ≤ 5 },
}
