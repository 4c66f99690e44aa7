//! What replies tell, a struct for each reply that tells more than one thing.

use cxl_enc::{FixedList, Name};
use cxl_model::{Extent, Found, PoisonList, Poisoned};

/// A region that was made.
#[derive(Clone, Copy, PartialEq, Eq)]
pub struct Named {
    pub name: Name,
    /// The index of its window.
    pub window: u32,
    /// The first host address.
    pub base: u64,
    /// In bytes.
    pub size: u64,
    /// The granularity code.
    pub gran: u8,
    pub ways: u8,
}

/// A region with its registers.
#[derive(Drop)]
pub struct Shown {
    pub name: Name,
    pub found: Found,
    /// One for each node of the region, in rising order.
    pub rows: FixedList<ShownRow>,
}

/// The words of a decoder from base low to tail high.
#[derive(Clone, Copy, PartialEq, Eq)]
pub struct ShownRow {
    pub node: u32,
    pub decoder: u8,
    pub words: [u32; 7],
}

/// Where a host address goes.
#[derive(Clone, Copy, PartialEq, Eq)]
pub struct Downed {
    pub h: u64,
    /// Of the region that holds it.
    pub name: Name,
    pub slot: u32,
    /// Its place among the window's targets.
    pub position: u32,
    /// How many of `via` are ports on its way; the others are zero.
    pub len: u8,
    pub via: [Via; 5],
    /// The endpoint's node number.
    pub endpoint: u32,
    /// The device address.
    pub dpa: u64,
}

/// A port on an address's way.
#[derive(Clone, Copy, PartialEq, Eq)]
pub struct Via {
    pub node: u32,
    pub decoder: u8,
    /// The place in the decoder's target list.
    pub entry: u8,
}

/// Which host address goes to a device byte.
#[derive(Clone, Copy, PartialEq, Eq)]
pub struct Upped {
    pub h: u64,
    /// Of the region that holds it.
    pub name: Name,
}

/// A poison list, and the host bytes that each of its records touches.
#[derive(Drop)]
pub struct Report {
    /// The endpoint's node number.
    pub endpoint: u32,
    pub list: PoisonList,
    /// One for each record.
    pub pieces: FixedList<Poisoned>,
    /// Of the live regions, in the order in which they were made.
    pub names: FixedList<Name>,
}

/// A job that was begun.
#[derive(Clone, Copy, PartialEq, Eq)]
pub struct Begun {
    /// Of the region that it makes or ends.
    pub name: Name,
    /// How many register writes it has.
    pub writes: u32,
}

/// How far a job is, in register writes.
#[derive(Clone, Copy, PartialEq, Eq)]
pub struct Progress {
    pub done: u32,
    pub total: u32,
}

/// The frames that are needed, and those that are free.
#[derive(Clone, Copy, PartialEq, Eq)]
pub struct Lack {
    pub need: u32,
    pub free: u32,
}

/// A decoder of a node.
#[derive(Clone, Copy, PartialEq, Eq)]
pub struct Spot {
    pub node: u32,
    pub decoder: u8,
}

/// The records that a poison list says it has, and those for which it has room.
#[derive(Clone, Copy, PartialEq, Eq)]
pub struct Counted {
    pub said: u32,
    pub room: u32,
}

/// A job that the bus stopped, and how far it is, in register writes.
#[derive(Clone, Copy, PartialEq, Eq)]
pub struct Pending {
    /// Of the region that it makes or ends.
    pub name: Name,
    pub done: u32,
    pub total: u32,
}

/// The device bytes that a range lies on.
#[derive(Drop)]
pub struct Extents {
    /// In rising host order.
    pub extents: FixedList<Extent>,
    /// The endpoint of each slot.
    pub endpoints: FixedList<u32>,
}

/// How many bytes of a range lie on each slot.
#[derive(Drop)]
pub struct Spread {
    /// By slot; 0 past the ways.
    pub bytes: [u64; 16],
    /// The endpoint of each slot.
    pub endpoints: FixedList<u32>,
}

/// A region was given the bytes of another.
#[derive(Clone, Copy, PartialEq, Eq)]
pub struct Carried {
    pub from: Name,
    pub to: Name,
    /// How many pieces of 256 bytes `from` had.
    pub pieces: u32,
}

/// The sizes of two regions, in bytes.
#[derive(Clone, Copy, PartialEq, Eq)]
pub struct Sizes {
    pub from: u64,
    pub to: u64,
}
