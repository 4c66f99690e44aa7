//! Texts of a session behind a script, a call each, into the caller's room.

ghost use Rattle.std.specs.Prelude.{◌≡◌, ◌≤◌, None, Some, [], ◌∷◌, length, take};
ghost use Rattle.cxl_reads.specs.Answers.{image_name};
ghost use Rattle.cxl_library.specs.Behind.{IsToldBehind};
ghost use Rattle.cxl_library.specs.Reads.{IsReadOver};
ghost use Rattle.cxl_library.specs.Rooms.{sink_of, room_state};
ghost use Rattle.cxl_library.specs.Slices.{slices};

use crate::behind::{HeldText, told_from_image, told_from_reset};
use crate::room::TextRoom;
use crate::slices::Slices;
use cxl_inputs::Status;
use std::alloc::Global;

/// A text of a session that opens on the host after reset, carries out a script and is let go: the words that the last line sent,
/// or the image file behind all of them. Nobody reads the replies, and a line that is refused ends nothing. Takes memory.
pub fn held_from_reset(
    alloc: Global,
    of: HeldText,
    cedt: &[u8],
    topo: &[u8],
    script: &[u8],
    out: &mut [u8],
    written: &mut usize,
) -> Status
    ensures answered { IsReadOver (IsToldBehind of (slices cedt.now topo.now []) None script.now) result (take written.new out.new) }
    ensures within { written.new ≤ length out.new }
    ensures full { result ≡ Status.WriteFault → written.new ≡ length out.new }
{
    let mut room = TextRoom::new(out);
    let files = Slices::new(cedt, topo, &[]);
    let status = reset_into(alloc, of, files, script, &mut room);
    *written = room.taken();
    status
}

/// The same of one that opens on the host with the registers of an image.
pub fn held_from_image(
    alloc: Global,
    of: HeldText,
    cedt: &[u8],
    topo: &[u8],
    image: &[u8],
    script: &[u8],
    out: &mut [u8],
    written: &mut usize,
) -> Status
    ensures answered { IsReadOver (IsToldBehind of (slices cedt.now topo.now image.now) (Some image_name) script.now) result (take written.new out.new) }
    ensures within { written.new ≤ length out.new }
    ensures full { result ≡ Status.WriteFault → written.new ≡ length out.new }
{
    let mut room = TextRoom::new(out);
    let files = Slices::new(cedt, topo, image);
    let status = image_into(alloc, of, files, script, &mut room);
    *written = room.taken();
    status
}

/// The same, into a room that has taken nothing. It fills the bytes that it filled before.
fn reset_into(
    alloc: Global,
    of: HeldText,
    files: Slices<'_>,
    script: &[u8],
    room: &mut TextRoom<'_>,
) -> Status
    requires fresh { room_state room.old ≡ sink_of (room.old.bytes.ghost_name ∷ []) }
    ensures same_reference { room.new.bytes.ghost_name ≡ room.old.bytes.ghost_name }
    ensures answered { IsReadOver (IsToldBehind of files.entry None script.now) result (take room.new.taken room.new.bytes.now) }
    ensures full { result ≡ Status.WriteFault → room.new.taken ≡ length room.new.bytes.now }
{
    told_from_reset(alloc, of, files, script, room)
}

/// The same, into a room that has taken nothing. It fills the bytes that it filled before.
fn image_into(
    alloc: Global,
    of: HeldText,
    files: Slices<'_>,
    script: &[u8],
    room: &mut TextRoom<'_>,
) -> Status
    requires fresh { room_state room.old ≡ sink_of (room.old.bytes.ghost_name ∷ []) }
    ensures same_reference { room.new.bytes.ghost_name ≡ room.old.bytes.ghost_name }
    ensures answered { IsReadOver (IsToldBehind of files.entry (Some image_name) script.now) result (take room.new.taken room.new.bytes.now) }
    ensures full { result ≡ Status.WriteFault → room.new.taken ≡ length room.new.bytes.now }
{
    told_from_image(alloc, of, files, script, room)
}
