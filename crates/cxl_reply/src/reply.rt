//! The replies, a variant for each.

use crate::details::{
    Begun, Carried, Counted, Downed, Extents, Lack, Named, Pending, Progress, Report, Shown, Sizes,
    Spot, Spread, Upped,
};
use cxl_enc::{FixedList, Name};
use cxl_model::PlanFault;
use cxl_script::BadLine;

/// What a command is answered. (This project's rule.)
#[derive(Drop)]
pub enum Reply {
    Created(Named),
    Destroyed(Name),
    Shown(Shown),
    Down(Downed),
    Up(Upped),
    /// The bytes that were read.
    Loaded(FixedList<u8>),
    /// How many bytes were written.
    Stored(u32),
    Poison(Report),
    Begun(Begun),
    Stepped(Progress),
    Aborted(Name),
    Extents(Extents),
    Spread(Spread),
    Copied(Carried),
    Moved(Carried),
    BadLine(BadLine),
    /// A job is pending, for the region of this name.
    Busy(Name),
    /// A live region has the name.
    NameTaken(Name),
    /// No live region has the name.
    NoRegion(Name),
    /// No endpoint has the name.
    NoEndpoint(Name),
    /// 256 regions are live.
    RegionsFull,
    /// The bytes need more frames than are free.
    Full(Lack),
    /// A decoder of the region has its lock bit set.
    Locked(Spot),
    /// A decoder above one of the region's is committed.
    NotLast(Spot),
    /// No live region holds the address, or the device byte.
    Unmapped,
    /// The bytes begin in a region and end past it.
    CrossesEnd,
    /// There is no plan.
    Refused(PlanFault),
    /// No set of so many endpoints has a plan.
    NoSet,
    /// The two regions are one.
    SameRegion(Name),
    SizesDiffer(Sizes),
    /// A poison list is shorter than its head.
    PoisonShort,
    /// A poison list has fewer records than it says.
    PoisonCount(Counted),
    /// The bus failed, and what was written is undone.
    BusUndone,
    /// The bus failed, and the job is pending.
    BusPending(Pending),
    /// The bus failed at a read.
    BusRead,
    /// No job is pending.
    NothingPending,
}
