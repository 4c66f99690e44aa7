//! The plan of a region, and why there is none.

use crate::found::Found;
use cxl_enc::{FixedList, Name};
use cxl_regs::Decoder;
use cxl_span::{Room, SpanFault};

/// The registers that a plan gives to one decoder.
#[derive(Clone, Copy, PartialEq, Eq)]
pub struct Row {
    pub node: u32,
    /// The decoder's number.
    pub index: u8,
    pub decoder: Decoder,
}

/// A plan of a new region: the decoders that make it, in rising node order.
#[derive(Drop)]
pub struct Plan {
    pub name: Name,
    pub found: Found,
    pub rows: FixedList<Row>,
}

/// Why there is no plan. The numbers of nodes are the least of which the fault can be said.
#[derive(Debug, Drop)]
pub enum PlanFault {
    /// The endpoint stands in the request twice.
    Repeat(u32),
    /// No region has this number of ways.
    Ways(u32),
    /// The size is 0, no multiple of 256 MiB for each way, or above 2^52.
    Size,
    /// The endpoints under the node do not lie evenly, or its used ports are too many or no power of two.
    Uneven(u32),
    /// Every decoder of the node is committed.
    NoDecoder(u32),
    /// The endpoint has no room for its span.
    Span(u32, SpanFault),
    /// No window is left, with one reason for each window in table order.
    NoWindow(FixedList<Reason>),
    Memory,
}

/// Why a window does not take a region.
#[derive(Clone, Copy, Debug, PartialEq, Eq)]
pub enum Reason {
    /// Its verdict is another than usable.
    Unusable,
    /// Its restrictions do not permit the kind of memory.
    Kind,
    /// Its restrictions fix its configuration.
    Fixed,
    /// Its targets are not exactly the bridges of the endpoints.
    Bridges,
    /// It has more than one way, and another granularity than the stated one.
    Gran,
    /// The node cannot select on the address bits that it would have to.
    Select(u32),
    /// The endpoint cannot have so many ways.
    WaysCap(u32),
    /// The least base that is left, and the window's end, between which there is no room.
    NoBase(Room),
}
