//! A run over the caller's bytes.

ghost use Rattle.std.specs.Prelude.{◌≡◌, ◌≤◌, [], ◌∷◌, length, take, IfOk};
ghost use Rattle.cxl_commands.specs.Form.{Form, form_of};
ghost use Rattle.cxl_commands.specs.Words.{bytes_of};
ghost use Rattle.cxl_library.specs.Answered.{IsRunOver, IsAnswered};
ghost use Rattle.cxl_library.specs.Rooms.{sink_of, room_state};

use crate::room::TextRoom;
use crate::slice_source::SliceSource;
use crate::slices::Slices;
use cxl_bus::SimBus;
use cxl_enc::Memory;
use cxl_inputs::Status;
use cxl_media::SimMedia;
use cxl_shell::{run, run_ends};
use std::alloc::Global;

/// A run of these words, where there was memory for them.
pub(crate) fn answered(
    alloc: Global,
    words: Result<Vec<String>, Memory>,
    files: Slices<'_>,
    script: &[u8],
    out: &mut [u8],
    written: &mut usize,
) -> Status
    ensures answered { (form : Form) → IfOk words (λ own. form_of (bytes_of own.items) ≡ form)
        → IsAnswered form files.entry script.now result (take written.new out.new) }
    ensures within { written.new ≤ length out.new }
    ensures full { result ≡ Status.WriteFault → written.new ≡ length out.new }
{
    match words {
        Ok(words) => run_over(alloc, words.as_slice(), files, script, out, written),
        Err(Memory) => {
            *written = 0;
            Status::Memory
        }
    }
}

/// A run of these words over files and script, into the room.
fn run_over(
    alloc: Global,
    words: &[String],
    files: Slices<'_>,
    script: &[u8],
    out: &mut [u8],
    written: &mut usize,
) -> Status
    ensures answered { (form : Form) → form_of (bytes_of words.now) ≡ form
        → IsRunOver form files.entry script.now result (take written.new out.new) }
    ensures within { written.new ≤ length out.new }
    ensures full { result ≡ Status.WriteFault → written.new ≡ length out.new }
{
    let mut room = TextRoom::new(out);
    let status = run_into(alloc, words, files, script, &mut room);
    *written = room.taken();
    status
}

/// The same, into a room that has taken nothing. It fills the bytes that it filled before.
fn run_into(
    alloc: Global,
    words: &[String],
    files: Slices<'_>,
    script: &[u8],
    room: &mut TextRoom<'_>,
) -> Status
    requires fresh { room_state room.old ≡ sink_of (room.old.bytes.ghost_name ∷ []) }
    ensures same_reference { room.new.bytes.ghost_name ≡ room.old.bytes.ghost_name }
    ensures answered { (form : Form) → form_of (bytes_of words.now) ≡ form
        → IsRunOver form files.entry script.now result (take room.new.taken room.new.bytes.now) }
    ensures full { result ≡ Status.WriteFault → room.new.taken ≡ length room.new.bytes.now }
{
    run_ends();
    let mut files = files;
    let mut script = SliceSource::new(script);
    let mut regs = SimBus::new(alloc);
    let mut media = SimMedia::new(alloc);
    run(
        alloc,
        words,
        &mut files,
        &mut script,
        room,
        &mut regs,
        &mut media,
    )
}
