//! The windows of a table as a topology lets them be used, into the caller's room.

ghost use Rattle.std.specs.Prelude.{◌≡◌, ◌≤◌, [], ◌∷◌, length, take};
ghost use Rattle.cxl_reads.specs.Windows.{AreWindows};
ghost use Rattle.cxl_library.specs.Reads.{IsReadOver};
ghost use Rattle.cxl_library.specs.Rooms.{sink_of, room_state};

use crate::room::TextRoom;
use cxl_inputs::Status;
use std::alloc::Global;

/// The windows of a table as lines, each with its verdict by the bridges of a topology.
pub fn windows(
    alloc: Global,
    cedt: &[u8],
    topo: &[u8],
    out: &mut [u8],
    written: &mut usize,
) -> Status
    ensures answered { IsReadOver (AreWindows cedt.now topo.now) result (take written.new out.new) }
    ensures within { written.new ≤ length out.new }
    ensures full { result ≡ Status.WriteFault → written.new ≡ length out.new }
{
    let mut room = TextRoom::new(out);
    let status = windows_into(alloc, cedt, topo, &mut room);
    *written = room.taken();
    status
}

/// The same, into a room that has taken nothing. It fills the bytes that it filled before.
fn windows_into(alloc: Global, cedt: &[u8], topo: &[u8], room: &mut TextRoom<'_>) -> Status
    requires fresh { room_state room.old ≡ sink_of (room.old.bytes.ghost_name ∷ []) }
    ensures same_reference { room.new.bytes.ghost_name ≡ room.old.bytes.ghost_name }
    ensures answered { IsReadOver (AreWindows cedt.now topo.now) result (take room.new.taken room.new.bytes.now) }
    ensures full { result ≡ Status.WriteFault → room.new.taken ≡ length room.new.bytes.now }
{
    cxl_reads::windows(alloc, cedt, topo, room)
}
