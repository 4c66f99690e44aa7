//! Jobs: the register writes that make or end a region, one event each, and their undoing.
#![tactic(auto)]

mod job;
mod laws;
mod rows;
mod write;

pub use cxl_enc::Memory;
pub use cxl_model::Row;
pub use job::Job;
pub use laws::{
    create_commits_its_rows, jobs_have_few_writes, regions_stay_after_a_create,
    regions_stay_after_a_release, regions_stay_in_a_create, regions_stay_in_a_release,
    release_releases_its_rows, released_image_is_accepted, writes_are_taken_back,
};
pub use write::{Stepped, Write};
