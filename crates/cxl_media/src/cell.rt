//! A cell of the index: a block and the frame that holds its bytes.

ghost use Rattle.std.specs.Prelude.{◌≡◌, ◌↔◌, IsTrue};
ghost use Rattle.cxl_media.specs.Table.{key_at};

use crate::Frame;

/// A block of the map and the frame that holds its bytes.
#[derive(Drop)]
pub struct Cell {
    /// The block's number.
    pub number: u64,
    /// The endpoint's node number.
    pub ep: u32,
    pub frame: Frame,
}

impl Cell {
    /// Whether it is of this block.
    pub fn is_of(&self, ep: u32, number: u64) -> bool
        ensures { IsTrue result ↔ (key_at self.now ≡ (ep, number)) }
    {
        self.ep == ep && self.number == number
    }
}
