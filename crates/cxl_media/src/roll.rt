//! The trait of media whose blocks can be gone through.

ghost use Rattle.std.specs.Prelude.{◌≡◌, ◌<◌, List, Option, option_map, length};
ghost use Rattle.cxl_media.specs.Blocks.{Key};
ghost use Rattle.cxl_media.specs.Roll.{told_key, key_at_place, IsRoll};

use crate::media::Media;

/// A block of the map: its endpoint's node number, and its own number, of 256 bytes each.
#[derive(Clone, Copy, PartialEq, Eq)]
pub struct At {
    pub ep: u32,
    pub block: u64,
}

/// Media whose blocks can be gone through. Each block of the map stands at exactly one place, so whoever goes through
/// all places meets each block once and no other.
pub trait Roll: Media {
    /// By place: the block that stands there, or `None`.
    ghost roll: { Self → List (Option Key) };

    /// How many places there are. Each block of the map stands at exactly one of them, and no other block at any.
    /// Takes no memory.
    fn places(&self) -> u32
        ensures count { result ≡ length (roll self.now) }
        ensures blocks { IsRoll (roll self.now) (Self.state self.now).blocks };

    /// The block that stands at a place, or `None` where none does. Takes no memory.
    fn at(&self, i: u32) -> Option<At>
        requires { i < length (roll self.now) }
        ensures { option_map told_key result ≡ key_at_place (roll self.now) i };
}
