//! The job that is pending in a session.

use cxl_apply::Job;
use cxl_enc::Name;
use cxl_model::Found;
use cxl_walk::Kept;

/// What a pending job does.
#[derive(Clone, Copy, PartialEq, Eq)]
pub enum Kind {
    /// It makes a region.
    Creates,
    /// It ends the region that stood at this place among the live ones.
    Releases(u32),
}

/// A pending job, with its region and the routes of that region: so neither its end nor its undoing takes memory.
#[derive(Drop)]
pub struct PendingJob {
    pub kind: Kind,
    pub name: Name,
    pub found: Found,
    pub kept: Kept,
    pub job: Job,
}
