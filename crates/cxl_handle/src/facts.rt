//! Replies of a session as records of numbers and bytes.

ghost use Rattle.std.specs.Prelude.{◌≡◌, map};
ghost use Rattle.cxl_handle.specs.Replies.{bare, with_two, refusal_of, name_of, via_of, place_of, host_byte_of, TellsPlace, TellsHostByte, TellsStored, TellsBytes, HasLoaded};

use cxl_enc::Name;
use cxl_held::Status;
use cxl_reply::{Downed, Reply, Upped, Via};

/// A name: its bytes from the front, and zeros behind them.
#[repr(C)]
#[derive(Clone, Copy)]
pub struct NameFact {
    /// How many of the bytes are the name, 1 to 15.
    pub len: u8,
    pub bytes: [u8; 15],
}

/// A port on an address's way.
#[repr(C)]
#[derive(Clone, Copy)]
pub struct ViaFact {
    pub node: u32,
    pub decoder: u16,
    /// The place in the decoder's target list.
    pub entry: u16,
}

/// Where a host address goes.
#[repr(C)]
#[derive(Clone, Copy)]
pub struct PlaceFact {
    /// The device address.
    pub dpa: u64,
    /// The endpoint's node number.
    pub endpoint: u32,
    pub slot: u32,
    /// Its place among the window's targets.
    pub position: u32,
    /// How many of `via` are ports on its way, from the bridge down; the others are zero.
    pub via_count: u32,
    pub via: [ViaFact; 5],
    /// Of the region that holds it.
    pub region: NameFact,
}

/// Which host address goes to a device byte.
#[repr(C)]
#[derive(Clone, Copy)]
pub struct HostByteFact {
    pub hpa: u64,
    /// Of the region that holds it.
    pub region: NameFact,
}

/// Why a command was refused, by the number of the reply; 0 where it was not.
#[repr(C)]
#[derive(Clone, Copy)]
pub struct RefusalFact {
    pub kind: u32,
    /// How many numbers the reply tells, 0 or 2; they are 0 where it tells none.
    pub count: u32,
    pub first: u64,
    pub second: u64,
}

/// The refusal that a reply is.
pub(crate) fn refusal_of(reply: &Reply) -> RefusalFact
    ensures { result ≡ refusal_of reply.now }
{
    match reply {
        Reply::BadLine(_) => bare(1),
        Reply::Busy(_) => bare(2),
        Reply::NameTaken(_) => bare(3),
        Reply::NoRegion(_) => bare(4),
        Reply::NoEndpoint(_) => bare(5),
        Reply::RegionsFull => bare(6),
        Reply::Full(lack) => with_two(7, u64::from(lack.need), u64::from(lack.free)),
        Reply::Locked(spot) => with_two(8, u64::from(spot.node), u64::from(spot.decoder)),
        Reply::NotLast(spot) => with_two(9, u64::from(spot.node), u64::from(spot.decoder)),
        Reply::Unmapped => bare(10),
        Reply::CrossesEnd => bare(11),
        Reply::Refused(_) => bare(12),
        Reply::NoSet => bare(13),
        Reply::SameRegion(_) => bare(14),
        Reply::SizesDiffer(sizes) => with_two(15, sizes.from, sizes.to),
        Reply::PoisonShort => bare(16),
        Reply::PoisonCount(list) => with_two(17, u64::from(list.said), u64::from(list.room)),
        Reply::BusUndone => bare(18),
        Reply::BusPending(job) => with_two(19, u64::from(job.done), u64::from(job.total)),
        Reply::BusRead => bare(20),
        Reply::NothingPending => bare(21),
        _ => bare(0),
    }
}

/// A refusal that tells no number.
fn bare(kind: u32) -> RefusalFact
    ensures { result ≡ bare kind }
{
    RefusalFact {
        kind,
        count: 0,
        first: 0,
        second: 0,
    }
}

/// A refusal that tells two.
fn with_two(kind: u32, first: u64, second: u64) -> RefusalFact
    ensures { result ≡ with_two kind first second }
{
    RefusalFact {
        kind,
        count: 2,
        first,
        second,
    }
}

/// Tells where a host address goes, with status 0; or leaves the record, with 8.
pub(crate) fn tell_place(reply: &Reply, place: &mut PlaceFact) -> u8
    ensures { TellsPlace reply.now result place.old place.new }
{
    match reply {
        Reply::Down(downed) => {
            *place = place_of(downed);
            0
        }
        _ => Status::Refused.code(),
    }
}

/// Tells which host address goes to a device byte, with status 0; or leaves the record, with 8.
pub(crate) fn tell_host_byte(reply: &Reply, byte: &mut HostByteFact) -> u8
    ensures { TellsHostByte reply.now result byte.old byte.new }
{
    match reply {
        Reply::Up(upped) => {
            *byte = host_byte_of(upped);
            0
        }
        _ => Status::Refused.code(),
    }
}

/// Tells bytes that were read, of which there are as many as asked, with status 0; or leaves the room, with 8.
pub(crate) fn tell_bytes(reply: &Reply, bytes: &mut [u8]) -> u8
    requires { HasLoaded bytes.old reply.now }
    ensures { TellsBytes reply.now result bytes.old bytes.new }
{
    match reply {
        Reply::Loaded(loaded) => {
            bytes.copy_from_slice(loaded.items());
            0
        }
        _ => Status::Refused.code(),
    }
}

/// Whether bytes were written, as a status.
pub(crate) fn tell_stored(reply: &Reply) -> u8
    ensures { TellsStored reply.now result }
{
    match reply {
        Reply::Stored(_) => 0,
        _ => Status::Refused.code(),
    }
}

/// Where a host address goes, as a record.
fn place_of(downed: &Downed) -> PlaceFact
    ensures { result ≡ place_of downed.now }
{
    PlaceFact {
        dpa: downed.dpa,
        endpoint: downed.endpoint,
        slot: downed.slot,
        position: downed.position,
        via_count: u32::from(downed.len),
        via: via_of(&downed.via),
        region: name_of(&downed.name),
    }
}

/// The ports on an address's way, as records.
fn via_of(via: &[Via; 5]) -> [ViaFact; 5]
    ensures { result ≡ map via_of via.now }
{
    via.map(|port| ViaFact {
        node: port.node,
        decoder: u16::from(port.decoder),
        entry: u16::from(port.entry),
    })
}

/// Which host address goes to a device byte, as a record.
fn host_byte_of(upped: &Upped) -> HostByteFact
    ensures { result ≡ host_byte_of upped.now }
{
    HostByteFact {
        hpa: upped.h,
        region: name_of(&upped.name),
    }
}

/// A name as a record.
fn name_of(name: &Name) -> NameFact
    ensures { result ≡ name_of name.now }
{
    let own = name.bytes();
    let mut bytes = [0; 15];
    bytes[..own.len()].copy_from_slice(own);
    NameFact {
        len: own.len() as u8,
        bytes,
    }
}
