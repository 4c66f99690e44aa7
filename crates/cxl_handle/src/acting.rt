//! Lines on a session, with their replies in the caller's room.

ghost use Rattle.std.specs.Prelude.{◌≡◌, ◌≤◌, ◌∷◌, [], length, take};
ghost use Rattle.std.specs.Option.{MatchOption};
ghost use Rattle.cxl_held.specs.Sessions.{IsKept};
ghost use Rattle.cxl_library.specs.Rooms.{sink_of, room_state};
ghost use Rattle.cxl_handle.specs.Owned.{HoldsSuch};
ghost use Rattle.cxl_handle.specs.Told.{HasActed, HasToldLines, IsUnfailed, misused};

use crate::handle::{MISUSED, SessionHandle};
use cxl_held::{Held, Status};
use cxl_library::{SliceSource, TextRoom};
use std::alloc::Global;

impl SessionHandle {
    /// Carries out the lines of a script, one line or more, and tells their replies as `run` does, with its exit status. Where the
    /// room is too small (6) it is full of the replies' front, and the lines up to that reply are carried out. After want of memory
    /// (9) the session is as the lines before the one that met it left it. Where there is no session: status 1, and no text. Takes
    /// memory.
    pub fn act(&mut self, alloc: Global, lines: &[u8], out: &mut [u8], written: &mut usize) -> u8
        ensures acted { MatchOption self.old.held ((result ≡ misused) × (written.new ≡ 0) × (self.new.held ≡ self.old.held))
            (λ old. HoldsSuch self.new.held (λ new. HasActed old new lines.now result (take written.new out.new))) }
        ensures within { written.new ≤ length out.new }
        ensures full { result ≡ 6 → written.new ≡ length out.new }
    {
        match self.take(alloc) {
            Some(own) => {
                let mut held = own;
                let status = act_over(alloc, &mut held, lines, out, written);
                self.put(held);
                status.code()
            }
            None => {
                *written = 0;
                MISUSED
            }
        }
    }
}

/// Carries out lines on a session.
fn act_over(
    alloc: Global,
    held: &mut Held,
    lines: &[u8],
    out: &mut [u8],
    written: &mut usize,
) -> Status
    requires kept { IsKept held.old }
    ensures kept { IsKept held.new }
    ensures told { HasToldLines held.old held.new lines.now result (take written.new out.new) }
    ensures unfailed { IsUnfailed held.new }
    ensures within { written.new ≤ length out.new }
    ensures full { result ≡ Status.WriteFault → written.new ≡ length out.new }
{
    let mut room = TextRoom::new(out);
    let status = act_into(alloc, held, lines, &mut room);
    *written = room.taken();
    status
}

/// The same, into a room that has taken nothing. It fills the bytes that it filled before.
fn act_into(alloc: Global, held: &mut Held, lines: &[u8], room: &mut TextRoom<'_>) -> Status
    requires kept { IsKept held.old }
    requires fresh { room_state room.old ≡ sink_of (room.old.bytes.ghost_name ∷ []) }
    ensures kept { IsKept held.new }
    ensures same_reference { room.new.bytes.ghost_name ≡ room.old.bytes.ghost_name }
    ensures told { HasToldLines held.old held.new lines.now result (take room.new.taken room.new.bytes.now) }
    ensures unfailed { IsUnfailed held.new }
    ensures full { result ≡ Status.WriteFault → room.new.taken ≡ length room.new.bytes.now }
{
    let mut source = SliceSource::new(lines);
    held.act(alloc, &mut source, room)
}
