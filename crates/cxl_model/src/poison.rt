//! A poison list, its records, and the pieces of regions that they touch.

use cxl_enc::FixedList;

/// A poison list. (CXL Get Poison List output.)
#[derive(Drop)]
pub struct PoisonList {
    /// More records than these are there.
    pub more: bool,
    /// When the device's list overflowed, where it did.
    pub overflow: Option<u64>,
    /// The device is scanning for more.
    pub scanning: bool,
    pub records: FixedList<Entry>,
}

/// A record of a poison list. (CXL media error record.)
#[derive(Clone, Copy, PartialEq, Eq)]
pub struct Entry {
    /// The first device address, a multiple of 64.
    pub dpa: u64,
    /// How many units of 64 bytes.
    pub units: u32,
    /// The code of what found it.
    pub source: u8,
}

/// The host bytes that a poison record touches.
#[derive(Drop)]
pub struct Poisoned {
    /// In the order of the device addresses.
    pub parts: FixedList<Part>,
    /// How many of its bytes lie in no region.
    pub unmapped: u64,
}

/// The host bytes that a poison record touches in one span.
#[derive(Clone, Copy, PartialEq, Eq)]
pub enum Part {
    Run(Run),
    /// In place of more than 64 runs.
    Wide(Wide),
}

/// Host bytes that follow each other.
#[derive(Clone, Copy, PartialEq, Eq)]
pub struct Run {
    /// The first host address.
    pub h: u64,
    /// In bytes.
    pub len: u64,
    /// The place of the region among the live ones.
    pub region: u32,
}

/// The runs of a span, where they are many.
#[derive(Clone, Copy, PartialEq, Eq)]
pub struct Wide {
    /// The first host address of the first run.
    pub first: u64,
    /// That of the last one.
    pub last: u64,
    /// How many runs.
    pub count: u64,
    /// The place of the region among the live ones.
    pub region: u32,
}
