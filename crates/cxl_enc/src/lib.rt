//! What every crate of `cxlplan` speaks in: the codes of ways and granularity, names, capability
//! words, the bits of words, limits, lists that stay as they were made, how a call says that it failed, and calls that are to
//! fail.
#![tactic(auto)]

mod bits;
mod caps;
mod codes;
mod counters;
mod faults;
mod fixed_list;
mod limits;
mod name;

pub use bits::{
    CAP_HIGH, CAP_LOW, CAP_WAYS3, CAP_WAYS16, CONTROL_COMMIT, CONTROL_COMMITTED, CONTROL_ERROR,
    CONTROL_HOST_ONLY, CONTROL_LOCK, GLOBAL_ENABLE, WINDOW_FIXED, WINDOW_HOST_ONLY, WINDOW_PMEM,
    WINDOW_RAM,
};
pub use caps::{Caps, MemKind, cap_word, has_bit, legal_cap, target_count};
pub use codes::{Factors, chunk_size, code_of, gran_code, gran_of, split, ways_of};
pub use counters::FailingCalls;
pub use faults::{Failed, Memory};
pub use fixed_list::FixedList;
pub use limits::{
    ADDRESS_LIMIT, BRIDGE_LIMIT, FILE_LIMIT, FRAME_LIMIT, NODE_LIMIT, PLACEHOLDER_CAP, UNIT,
};
pub use name::{Name, place_among};
