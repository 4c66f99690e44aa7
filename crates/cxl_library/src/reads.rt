//! What files hold, a call each, into the caller's room.

ghost use Rattle.std.specs.Prelude.{◌≡◌, ◌≤◌, [], ◌∷◌, length, take};
ghost use Rattle.cxl_reads.specs.Breaches.{AreBreaches};
ghost use Rattle.cxl_reads.specs.Decoders.{AreDecoders};
ghost use Rattle.cxl_reads.specs.Tree.{IsTreeTold};
ghost use Rattle.cxl_library.specs.Reads.{IsReadOver};
ghost use Rattle.cxl_library.specs.Rooms.{sink_of, room_state};

use crate::room::TextRoom;
use cxl_inputs::Status;
use std::alloc::Global;

/// A topology as lines: the frames of its devices, and each node, also with what the file leaves to a default.
pub fn tree(alloc: Global, topo: &[u8], out: &mut [u8], written: &mut usize) -> Status
    ensures answered { IsReadOver (IsTreeTold topo.now) result (take written.new out.new) }
    ensures within { written.new ≤ length out.new }
    ensures full { result ≡ Status.WriteFault → written.new ≡ length out.new }
{
    let mut room = TextRoom::new(out);
    let status = tree_into(alloc, topo, &mut room);
    *written = room.taken();
    status
}

/// The decoders of any image as lines, also of one that breaks a rule.
pub fn decoders(
    alloc: Global,
    topo: &[u8],
    image: &[u8],
    out: &mut [u8],
    written: &mut usize,
) -> Status
    ensures answered { IsReadOver (AreDecoders topo.now image.now) result (take written.new out.new) }
    ensures within { written.new ≤ length out.new }
    ensures full { result ≡ Status.WriteFault → written.new ≡ length out.new }
{
    let mut room = TextRoom::new(out);
    let status = decoders_into(alloc, topo, image, &mut room);
    *written = room.taken();
    status
}

/// All places that break the first broken rule of an image, as lines.
pub fn breaches(
    alloc: Global,
    cedt: &[u8],
    topo: &[u8],
    image: &[u8],
    out: &mut [u8],
    written: &mut usize,
) -> Status
    ensures answered { IsReadOver (AreBreaches cedt.now topo.now image.now) result (take written.new out.new) }
    ensures within { written.new ≤ length out.new }
    ensures full { result ≡ Status.WriteFault → written.new ≡ length out.new }
{
    let mut room = TextRoom::new(out);
    let status = breaches_into(alloc, cedt, topo, image, &mut room);
    *written = room.taken();
    status
}

/// The same, into a room that has taken nothing. It fills the bytes that it filled before.
fn tree_into(alloc: Global, topo: &[u8], room: &mut TextRoom<'_>) -> Status
    requires fresh { room_state room.old ≡ sink_of (room.old.bytes.ghost_name ∷ []) }
    ensures same_reference { room.new.bytes.ghost_name ≡ room.old.bytes.ghost_name }
    ensures answered { IsReadOver (IsTreeTold topo.now) result (take room.new.taken room.new.bytes.now) }
    ensures full { result ≡ Status.WriteFault → room.new.taken ≡ length room.new.bytes.now }
{
    cxl_reads::tree(alloc, topo, room)
}

/// The same, into a room that has taken nothing. It fills the bytes that it filled before.
fn decoders_into(alloc: Global, topo: &[u8], image: &[u8], room: &mut TextRoom<'_>) -> Status
    requires fresh { room_state room.old ≡ sink_of (room.old.bytes.ghost_name ∷ []) }
    ensures same_reference { room.new.bytes.ghost_name ≡ room.old.bytes.ghost_name }
    ensures answered { IsReadOver (AreDecoders topo.now image.now) result (take room.new.taken room.new.bytes.now) }
    ensures full { result ≡ Status.WriteFault → room.new.taken ≡ length room.new.bytes.now }
{
    cxl_reads::decoders(alloc, topo, image, room)
}

/// The same, into a room that has taken nothing. It fills the bytes that it filled before.
fn breaches_into(
    alloc: Global,
    cedt: &[u8],
    topo: &[u8],
    image: &[u8],
    room: &mut TextRoom<'_>,
) -> Status
    requires fresh { room_state room.old ≡ sink_of (room.old.bytes.ghost_name ∷ []) }
    ensures same_reference { room.new.bytes.ghost_name ≡ room.old.bytes.ghost_name }
    ensures answered { IsReadOver (AreBreaches cedt.now topo.now image.now) result (take room.new.taken room.new.bytes.now) }
    ensures full { result ≡ Status.WriteFault → room.new.taken ≡ length room.new.bytes.now }
{
    cxl_reads::breaches(alloc, cedt, topo, image, room)
}
