//! The number of the code for how many regions may live; `region_limit` is the one that contracts cite.

/// How many regions live at the most. (This project's rule.)
pub const REGION_LIMIT: usize = 256;
