//! The register image of a session in the caller's room.

ghost use Rattle.std.specs.Prelude.{◌≡◌, ◌≤◌, ◌<◌, ◌⊎◌, length, take};
ghost use Rattle.std.specs.Option.{MatchOption};
ghost use Rattle.cxl_held.specs.Sessions.{IsKept};
ghost use Rattle.cxl_handle.specs.Told.{IsImageTold, misused};

use crate::handle::{MISUSED, SessionHandle};
use cxl_enc::Memory;
use cxl_held::{Held, Status};
use std::alloc::Global;

impl SessionHandle {
    /// The file of the session's register image as it is, with status 0. Where the room is too small (6) it is full of its front. After
    /// want of memory (9), or where there is no session (1), there is none. Takes memory.
    pub fn image(&mut self, alloc: Global, out: &mut [u8], written: &mut usize) -> u8
        ensures same { self.new.held ≡ self.old.held }
        ensures told { MatchOption self.old.held ((result ≡ misused) × (written.new ≡ 0))
            (λ held. IsImageTold held (length out.new) result (take written.new out.new)) }
        ensures within { written.new ≤ length out.new }
        ensures full { result ≡ 6 → written.new ≡ length out.new }
    {
        match self.take(alloc) {
            Some(held) => {
                let code = put_image(alloc, &held, out, written);
                self.put(held);
                code
            }
            None => {
                *written = 0;
                MISUSED
            }
        }
    }
}

/// Puts the file of a session's register image into a room.
fn put_image(alloc: Global, held: &Held, out: &mut [u8], written: &mut usize) -> u8
    requires { IsKept held.now }
    ensures told { IsImageTold held.now (length out.new) result (take written.new out.new) }
    ensures within { written.new ≤ length out.new }
    ensures full { result ≡ 6 → written.new ≡ length out.new }
{
    match held.image(alloc) {
        Ok(file) => put_front(file.as_slice(), out, written),
        Err(Memory) => {
            *written = 0;
            Status::Memory.code()
        }
    }
}

/// Puts bytes into a room, with status 0; where the room is too small, as many from the front as it has, with 6.
fn put_front(bytes: &[u8], out: &mut [u8], written: &mut usize) -> u8
    ensures whole { result ≡ 0 → take written.new out.new ≡ bytes.now }
    ensures cut { result ≡ 6 → (length out.new < length bytes.now) × (out.new ≡ take (length out.new) bytes.now) }
    ensures full { result ≡ 6 → written.new ≡ length out.new }
    ensures within { written.new ≤ length out.new }
    ensures code { (result ≡ 0) ⊎ (result ≡ 6) }
{
    let room = out.len();
    if room < bytes.len() {
        out.copy_from_slice(&bytes[..room]);
        *written = room;
        return 6;
    }
    let (front, _) = out.split_at_mut(bytes.len());
    front.copy_from_slice(bytes);
    *written = bytes.len();
    0
}
