//! How a session by handle opens, over the caller's files.

ghost use Rattle.std.specs.Prelude.{◌≡◌, ◌≤◌, ◌<◌, ◌∷◌, Some, None, [], length, take, IfOk, IfErr, OnOk};
ghost use Rattle.std.specs.Option.{MatchOption};
ghost use Rattle.cxl_held.specs.Sessions.{IsKept, IsOpened};
ghost use Rattle.cxl_inputs.specs.Exit.{exit_code};
ghost use Rattle.cxl_library.specs.Reads.{IsReadOver, IsReadTold};
ghost use Rattle.cxl_library.specs.Rooms.{sink_of, room_state};
ghost use Rattle.cxl_library.specs.Slices.{slices, told_in};
ghost use Rattle.cxl_reads.specs.Answers.{table_name, topology_name, image_name};
ghost use Rattle.cxl_handle.specs.Told.{OpensNoneOver, OpensOrTells, misused};

use crate::handle::{MISUSED, SessionHandle};
use cxl_held::{Held, Status};
use cxl_library::{Slices, TextRoom};
use std::alloc::Global;

impl SessionHandle {
    /// Opens a session as `run` does on the host after reset, with status 0 and no text; where none opens, with the text and the exit
    /// status of `run`. A session that is there stays, with status 1 and no text. Takes memory.
    pub fn open_from_reset(
        &mut self,
        alloc: Global,
        cedt: &[u8],
        topo: &[u8],
        out: &mut [u8],
        written: &mut usize,
    ) -> u8
        ensures opened { MatchOption self.old.held
            (OpensOrTells (slices cedt.now topo.now []) None self.new.held result (take written.new out.new))
            (λ held. (result ≡ misused) × (written.new ≡ 0) × (self.new.held ≡ Some held)) }
        ensures within { written.new ≤ length out.new }
        ensures full { result ≡ 6 → written.new ≡ length out.new }
    {
        match self.take(alloc) {
            Some(own) => self.stay(own, written),
            None => {
                let opened = from_reset(alloc, cedt, topo, out, written);
                self.keep(opened)
            }
        }
    }

    /// The same on the host with the registers of an image.
    pub fn open_from_image(
        &mut self,
        alloc: Global,
        cedt: &[u8],
        topo: &[u8],
        image: &[u8],
        out: &mut [u8],
        written: &mut usize,
    ) -> u8
        ensures opened { MatchOption self.old.held
            (OpensOrTells (slices cedt.now topo.now image.now) (Some image_name) self.new.held result (take written.new out.new))
            (λ held. (result ≡ misused) × (written.new ≡ 0) × (self.new.held ≡ Some held)) }
        ensures within { written.new ≤ length out.new }
        ensures full { result ≡ 6 → written.new ≡ length out.new }
    {
        match self.take(alloc) {
            Some(own) => self.stay(own, written),
            None => {
                let opened = from_image(alloc, cedt, topo, image, out, written);
                self.keep(opened)
            }
        }
    }

    /// Keeps the session that it had: there is no text.
    fn stay(&mut self, own: Box<Held>, written: &mut usize) -> u8
        requires { IsKept own.value }
        ensures same { self.new.held ≡ Some own.value }
        ensures none { (result ≡ misused) × (written.new ≡ 0) }
    {
        self.put(own);
        *written = 0;
        MISUSED
    }

    /// Keeps a session that opened: status 0; or the status with which none did.
    fn keep(&mut self, opened: Result<Box<Held>, Status>) -> u8
        requires none { self.old.held ≡ None }
        requires kept { IfOk opened (λ held. IsKept held.value) }
        ensures kept { IfOk opened (λ held. (self.new.held ≡ Some held.value) × (result ≡ 0)) }
        ensures unopened { IfErr opened (λ status. (self.new.held ≡ None) × (result ≡ exit_code status)) }
    {
        match opened {
            Ok(held) => {
                self.put(held);
                0
            }
            Err(status) => status.code(),
        }
    }
}

/// A session over the host of a table and a topology after reset.
fn from_reset(
    alloc: Global,
    cedt: &[u8],
    topo: &[u8],
    out: &mut [u8],
    written: &mut usize,
) -> Result<Box<Held>, Status>
    ensures kept { IfOk result (λ held. IsKept held.value) }
    ensures opened { IfOk result (λ held. IsOpened (told_in (slices cedt.now topo.now [])) table_name topology_name None held.value) }
    ensures quiet { OnOk result (written.new ≡ 0) }
    ensures unopened { IfErr result (λ status. (0 < exit_code status)
        × IsReadOver (OpensNoneOver (slices cedt.now topo.now []) None) status (take written.new out.new)) }
    ensures within { written.new ≤ length out.new }
    ensures full { IfErr result (λ status. status ≡ Status.WriteFault → written.new ≡ length out.new) }
{
    let mut room = TextRoom::new(out);
    let files = Slices::new(cedt, topo, &[]);
    let opened = reset_into(alloc, files, &mut room);
    *written = room.taken();
    opened
}

/// The same with the registers of an image.
fn from_image(
    alloc: Global,
    cedt: &[u8],
    topo: &[u8],
    image: &[u8],
    out: &mut [u8],
    written: &mut usize,
) -> Result<Box<Held>, Status>
    ensures kept { IfOk result (λ held. IsKept held.value) }
    ensures opened { IfOk result (λ held. IsOpened (told_in (slices cedt.now topo.now image.now)) table_name topology_name (Some image_name) held.value) }
    ensures quiet { OnOk result (written.new ≡ 0) }
    ensures unopened { IfErr result (λ status. (0 < exit_code status)
        × IsReadOver (OpensNoneOver (slices cedt.now topo.now image.now) (Some image_name)) status (take written.new out.new)) }
    ensures within { written.new ≤ length out.new }
    ensures full { IfErr result (λ status. status ≡ Status.WriteFault → written.new ≡ length out.new) }
{
    let mut room = TextRoom::new(out);
    let files = Slices::new(cedt, topo, image);
    let opened = image_into(alloc, files, &mut room);
    *written = room.taken();
    opened
}

/// The same from reset, into a room that has taken nothing. It fills the bytes that it filled before.
fn reset_into(
    alloc: Global,
    files: Slices<'_>,
    room: &mut TextRoom<'_>,
) -> Result<Box<Held>, Status>
    requires fresh { room_state room.old ≡ sink_of (room.old.bytes.ghost_name ∷ []) }
    ensures same_reference { room.new.bytes.ghost_name ≡ room.old.bytes.ghost_name }
    ensures kept { IfOk result (λ held. IsKept held.value) }
    ensures opened { IfOk result (λ held. IsOpened (told_in files.entry) table_name topology_name None held.value) }
    ensures quiet { OnOk result (room.new.taken ≡ 0) }
    ensures unopened { IfErr result (λ status. (0 < exit_code status)
        × IsReadOver (OpensNoneOver files.entry None) status (take room.new.taken room.new.bytes.now)) }
    ensures full { IfErr result (λ status. status ≡ Status.WriteFault → room.new.taken ≡ length room.new.bytes.now) }
{
    let mut files = files;
    match Held::open_from_reset(alloc, "cedt", "topology", &mut files, room) {
        Ok(held) => boxed(alloc, held),
        Err(status) => Err(status),
    }
}

/// The same from an image, into a room that has taken nothing. It fills the bytes that it filled before.
fn image_into(
    alloc: Global,
    files: Slices<'_>,
    room: &mut TextRoom<'_>,
) -> Result<Box<Held>, Status>
    requires fresh { room_state room.old ≡ sink_of (room.old.bytes.ghost_name ∷ []) }
    ensures same_reference { room.new.bytes.ghost_name ≡ room.old.bytes.ghost_name }
    ensures kept { IfOk result (λ held. IsKept held.value) }
    ensures opened { IfOk result (λ held. IsOpened (told_in files.entry) table_name topology_name (Some image_name) held.value) }
    ensures quiet { OnOk result (room.new.taken ≡ 0) }
    ensures unopened { IfErr result (λ status. (0 < exit_code status)
        × IsReadOver (OpensNoneOver files.entry (Some image_name)) status (take room.new.taken room.new.bytes.now)) }
    ensures full { IfErr result (λ status. status ≡ Status.WriteFault → room.new.taken ≡ length room.new.bytes.now) }
{
    let mut files = files;
    match Held::open_from_image(alloc, "cedt", "topology", "image", &mut files, room) {
        Ok(held) => boxed(alloc, held),
        Err(status) => Err(status),
    }
}

/// A session in a box, or want of memory.
fn boxed(alloc: Global, held: Held) -> Result<Box<Held>, Status>
    ensures same { IfOk result (λ own. own.value ≡ held) }
    ensures memory { IfErr result (λ status. status ≡ Status.Memory) }
{
    match Box::new(alloc, held) {
        Ok(own) => Ok(own),
        Err(_) => Err(Status::Memory),
    }
}
