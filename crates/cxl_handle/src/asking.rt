//! One command on a session as numbers and bytes, with its reply as a record.

ghost use Rattle.std.specs.Prelude.{◌≡◌, ◌⊎◌, ◌↔◌, IsTrue, length};
ghost use Rattle.cxl_enc.specs.Name.{IsName};
ghost use Rattle.cxl_held.specs.Sessions.{IsKept};
ghost use Rattle.cxl_script.specs.declared.command.Command.TheVariants as commands;
ghost use Rattle.cxl_handle.specs.Asking.{IsAccess, IsReplyTold, IsUnasked, HasRunOut, IsDownTold, IsUpTold, IsLoadTold, IsStoreTold};
ghost use Rattle.cxl_handle.specs.Replies.{TellsPlace, TellsHostByte, TellsBytes, TellsStored};

use crate::facts::{
    HostByteFact, PlaceFact, RefusalFact, refusal_of, tell_bytes, tell_host_byte, tell_place,
    tell_stored,
};
use crate::handle::{MISUSED, SessionHandle};
use cxl_enc::{FixedList, Memory, Name};
use cxl_held::{Held, Status};
use cxl_script::{Command, Load, Store, Up};
use std::alloc::Global;

/// The most bytes of a load or a store.
const ACCESS_LIMIT: usize = 256;

impl SessionHandle {
    /// Tells where a host address goes, with status 0; or the refusal, with status 8, and leaves `place`. Where there is no session:
    /// status 1, and nothing is told. Takes no memory.
    pub fn down(
        &mut self,
        alloc: Global,
        h: u64,
        place: &mut PlaceFact,
        refusal: &mut RefusalFact,
    ) -> u8
        ensures { IsDownTold h self.old.held self.new.held result place.old place.new refusal.old refusal.new }
    {
        match self.take(alloc) {
            Some(own) => {
                let mut held = own;
                let code = down_over(alloc, &mut held, h, place, refusal);
                self.put(held);
                code
            }
            None => MISUSED,
        }
    }

    /// Tells which host address goes to a byte of an endpoint's device, with status 0; or the refusal, with status 8, and leaves
    /// `byte`. Where there is no session, or the endpoint's name is none: status 1, and nothing is told. Takes no memory.
    pub fn up(
        &mut self,
        alloc: Global,
        endpoint: &[u8],
        dpa: u64,
        byte: &mut HostByteFact,
        refusal: &mut RefusalFact,
    ) -> u8
        ensures told { IsName endpoint.now → IsUpTold endpoint.now dpa self.old.held self.new.held result byte.old byte.new refusal.old refusal.new }
        ensures unasked { ¬ (IsName endpoint.now) → IsUnasked self.old.held self.new.held result refusal.old refusal.new (byte.new ≡ byte.old) }
    {
        let endpoint = match Name::read(endpoint) {
            Some(endpoint) => endpoint,
            None => return MISUSED,
        };
        match self.take(alloc) {
            Some(own) => {
                let mut held = own;
                let code = up_over(alloc, &mut held, Up { endpoint, dpa }, byte, refusal);
                self.put(held);
                code
            }
            None => MISUSED,
        }
    }

    /// Fills `bytes`, 1 to 256 of them, with those from a host address on, with status 0; or tells the refusal, with status 8, and
    /// leaves them. After want of memory (9), where there is no session, or where they are too many or none (1), nothing is told.
    pub fn load(&mut self, alloc: Global, h: u64, bytes: &mut [u8], refusal: &mut RefusalFact) -> u8
        ensures told { IsAccess (length bytes.old) → IsLoadTold h self.old.held self.new.held result bytes.old bytes.new refusal.old refusal.new }
        ensures unasked { ¬ (IsAccess (length bytes.old)) → IsUnasked self.old.held self.new.held result refusal.old refusal.new (bytes.new ≡ bytes.old) }
    {
        if !is_access(bytes.len()) {
            return MISUSED;
        }
        match self.take(alloc) {
            Some(own) => {
                let mut held = own;
                let code = load_over(alloc, &mut held, h, bytes, refusal);
                self.put(held);
                code
            }
            None => MISUSED,
        }
    }

    /// Puts bytes, 1 to 256 of them, from a host address on, with status 0; or tells the refusal, with status 8. After want of memory
    /// (9), where there is no session, or where they are too many or none (1), nothing is told.
    pub fn store(&mut self, alloc: Global, h: u64, bytes: &[u8], refusal: &mut RefusalFact) -> u8
        ensures told { IsAccess (length bytes.now) → IsStoreTold h bytes.now self.old.held self.new.held result refusal.old refusal.new }
        ensures unasked { ¬ (IsAccess (length bytes.now)) → IsUnasked self.old.held self.new.held result refusal.old refusal.new (Unit {0}) }
    {
        if !is_access(bytes.len()) {
            return MISUSED;
        }
        match self.take(alloc) {
            Some(own) => {
                let mut held = own;
                let code = store_over(alloc, &mut held, h, bytes, refusal);
                self.put(held);
                code
            }
            None => MISUSED,
        }
    }
}

/// Whether a load or a store may have so many bytes.
fn is_access(len: usize) -> bool
    ensures { IsTrue result ↔ IsAccess len }
{
    1 <= len && len <= ACCESS_LIMIT
}

/// Asks a session where a host address goes.
fn down_over(
    alloc: Global,
    held: &mut Held,
    h: u64,
    place: &mut PlaceFact,
    refusal: &mut RefusalFact,
) -> u8
    requires kept { IsKept held.old }
    ensures kept { IsKept held.new }
    ensures told { IsReplyTold (commands.Down h) (λ reply. TellsPlace reply result place.old place.new) refusal.new held.old held.new }
{
    match held.ask(alloc, &Command::Down(h)) {
        Ok(reply) => {
            *refusal = refusal_of(&reply);
            tell_place(&reply, place)
        }
        Err(Memory) => unreachable!(),
    }
}

/// Asks a session which host address goes to a device byte.
fn up_over(
    alloc: Global,
    held: &mut Held,
    up: Up,
    byte: &mut HostByteFact,
    refusal: &mut RefusalFact,
) -> u8
    requires kept { IsKept held.old }
    ensures kept { IsKept held.new }
    ensures told { IsReplyTold (commands.Up up) (λ reply. TellsHostByte reply result byte.old byte.new) refusal.new held.old held.new }
{
    match held.ask(alloc, &Command::Up(up)) {
        Ok(reply) => {
            *refusal = refusal_of(&reply);
            tell_host_byte(&reply, byte)
        }
        Err(Memory) => unreachable!(),
    }
}

/// Asks a session for bytes.
fn load_over(
    alloc: Global,
    held: &mut Held,
    h: u64,
    bytes: &mut [u8],
    refusal: &mut RefusalFact,
) -> u8
    requires kept { IsKept held.old }
    requires access { IsAccess (length bytes.old) }
    ensures kept { IsKept held.new }
    ensures told { IsReplyTold (commands.Load record { h = h; len = length bytes.old }) (λ reply. TellsBytes reply result bytes.old bytes.new)
        refusal.new held.old held.new ⊎ HasRunOut result refusal.old refusal.new (bytes.new ≡ bytes.old) held.old held.new }
{
    let load = Load {
        h,
        len: bytes.len() as u32,
    };
    match held.ask(alloc, &Command::Load(load)) {
        Ok(reply) => {
            *refusal = refusal_of(&reply);
            tell_bytes(&reply, bytes)
        }
        Err(Memory) => Status::Memory.code(),
    }
}

/// Gives a session bytes to put.
fn store_over(alloc: Global, held: &mut Held, h: u64, bytes: &[u8], refusal: &mut RefusalFact) -> u8
    requires kept { IsKept held.old }
    requires access { IsAccess (length bytes.now) }
    ensures kept { IsKept held.new }
    ensures told { IsReplyTold (commands.Store record { h = h; bytes = bytes.now }) (λ reply. TellsStored reply result)
        refusal.new held.old held.new ⊎ HasRunOut result refusal.old refusal.new (Unit {0}) held.old held.new }
{
    let own = match Vec::from_slice(alloc, bytes) {
        Ok(own) => own,
        Err(_) => return Status::Memory.code(),
    };
    let store = Store {
        h,
        bytes: FixedList::new(own),
    };
    match held.ask(alloc, &Command::Store(store)) {
        Ok(reply) => {
            *refusal = refusal_of(&reply);
            tell_stored(&reply)
        }
        Err(Memory) => unreachable!(),
    }
}
