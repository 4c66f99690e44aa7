//! The caller's room for an answer.

ghost use Rattle.std.specs.Prelude.{◌≡◌, ◌+◌, ◌-◌, ◌<◌, ◌≤◌, ◌++◌, length, min, take};

use cxl_enc::Failed;
use cxl_io::Sink;

/// A sink that puts text into bytes of the caller, from the front on, and tells what it took. It takes no memory. Where no room is
/// left it fails.
#[derive(Drop)]
pub struct TextRoom<'a> {
    bytes: &'a mut [u8],
    taken: usize,
    faults: u64,
    ghost fits: { taken ≤ length bytes.now },
    // It fails only where no room is left.
    ghost full: { 0 < faults → taken ≡ length bytes.now },
}

impl<'a> TextRoom<'a> {
    ghost use Rattle.std.specs.Prelude.{◌≡◌, ◌≤◌, ◌∷◌, [], length};
    ghost use Rattle.cxl_library.specs.Rooms.{sink_of, room_state};

    /// All of these bytes, of which none is taken.
    pub fn new(bytes: &'a mut [u8]) -> TextRoom<'a>
        ensures same_reference { result.bytes.ghost_name ≡ bytes.entry.ghost_name }
        ensures fresh { room_state result ≡ sink_of (result.bytes.ghost_name ∷ []) }
    {
        TextRoom {
            bytes,
            taken: 0,
            faults: 0,
        }
    }

    /// How many bytes it took.
    pub fn taken(&self) -> usize
        ensures value { result ≡ self.now.taken }
        ensures within { result ≤ length self.now.bytes.now }
    {
        self.taken
    }
}

impl Sink for TextRoom<'_> {
    ghost use Rattle.cxl_library.specs.Rooms.{room_state};

    ghost state = { room_state };

    fn write(&mut self, bytes: &[u8]) -> Result<usize, Failed> {
        let n = put_behind(self.bytes, self.taken, bytes);
        if n == 0 {
            self.faults = self.faults.saturating_add(1);
            return Err(Failed);
        }
        self.taken += n;
        Ok(n)
    }
}

/// Puts bytes behind the first `at` ones, as many from the front as there is room for, and answers how many.
fn put_behind(into: &mut [u8], at: usize, bytes: &[u8]) -> usize
    requires within { at ≤ length into.old }
    ensures count { result ≡ min (length into.old - at) (length bytes.now) }
    ensures front { take (at + result) into.new ≡ take at into.old ++ take result bytes.now }
{
    let (_, left) = into.split_at_mut(at);
    let n = bytes.len().min(left.len());
    let (place, _) = left.split_at_mut(n);
    place.copy_from_slice(&bytes[..n]);
    n
}
