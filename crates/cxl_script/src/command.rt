//! The commands of a script, a variant for each.

use cxl_enc::{FixedList, MemKind, Name};

/// What a line of a script asks for.
#[derive(Drop)]
pub enum Command {
    /// Make a region.
    Create(Create),
    /// End a region, by its name.
    Destroy(Name),
    /// Tell a region and its registers, by its name.
    Show(Name),
    /// Where a host address goes.
    Down(u64),
    /// Which host address goes to a byte of a device.
    Up(Up),
    /// Read bytes.
    Load(Load),
    /// Write bytes.
    Store(Store),
    /// Which host bytes a device's poison list touches.
    Poison(Poison),
    /// Begin to make a region, with no register written yet.
    BeginCreate(Create),
    /// Begin to end a region, by its name.
    BeginDestroy(Name),
    /// Make so many register writes of the job that was begun: 1 to 1,000,000.
    Step(u32),
    /// Undo the job that was begun.
    Abort,
    /// The device bytes that a range of host bytes lies on. It has 1 to 65,536 bytes.
    Range(Reach),
    /// How many bytes of a range lie on each slot. It has 1 to 2^52 bytes.
    Spread(Reach),
    /// Give a region the bytes of another.
    Copy(Pair),
    /// Give a region the bytes of another, and leave that one zero.
    Move(Pair),
}

/// A region to be made: over named endpoints, or over a number of endpoints that are to be picked.
#[derive(Drop)]
pub struct Create {
    pub name: Name,
    pub kind: MemKind,
    /// In bytes.
    pub size: u64,
    /// The granularity code, where one is stated.
    pub gran: Option<u8>,
    /// None exactly where `ways` is stated.
    pub endpoints: FixedList<Name>,
    /// How many endpoints are to be picked, 1 to 16, where that is stated.
    pub ways: Option<u8>,
}

/// A byte of an endpoint's device.
#[derive(Clone, Copy)]
pub struct Up {
    pub endpoint: Name,
    /// The device address.
    pub dpa: u64,
}

/// Bytes to be read.
#[derive(Clone, Copy)]
pub struct Load {
    /// The first host address.
    pub h: u64,
    /// In bytes, 1 to 256.
    pub len: u32,
}

/// Bytes to be written.
#[derive(Drop)]
pub struct Store {
    /// The first host address.
    pub h: u64,
    /// 1 to 256 of them.
    pub bytes: FixedList<u8>,
}

/// The poison list of an endpoint, as its device gave it.
#[derive(Drop)]
pub struct Poison {
    pub endpoint: Name,
    /// At least one.
    pub bytes: FixedList<u8>,
}

/// A range of host bytes.
#[derive(Clone, Copy)]
pub struct Reach {
    /// The first host address.
    pub h: u64,
    /// In bytes.
    pub len: u64,
}

/// Two regions, by their names.
#[derive(Clone, Copy)]
pub struct Pair {
    pub from: Name,
    pub to: Name,
}
