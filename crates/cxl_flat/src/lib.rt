//! That the machine of a session behaves as flat memory: the host bytes of its regions lie one to one on device bytes, after
//! each command and between any two register writes.
#![tactic(auto)]

mod flat;
mod memory;

pub use flat::{
    accepted_images_carry_their_regions, lines_ask_for_ranged_commands, machines_are_flat,
    machines_carry_their_regions, openings_carry_their_regions, turns_are_flat,
};
pub use memory::{accesses_are_of_one_memory, reads_keep_bytes};
