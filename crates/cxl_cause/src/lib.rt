//! Why a register image breaks a rule: what was found, and what it is compared with.
#![tactic(auto)]

mod blocks;
mod capacity;
mod caps;
mod cause;
mod codes;
mod firsts;
mod laws;
mod lookups;
mod places;
mod reach;
mod sizes;
mod targets;
mod ways;
mod windows;

pub use cause::Cause;
pub use cxl_check::Breach;
pub use laws::{
    causes_stand_where_rules_break, ends_below_are_the_least_bases,
    told_codes_of_ports_keep_the_rule, told_sizes_keep_the_rule, told_thirds_start_ranges,
};
pub use places::{CausedBreach, cause_of, causes};
