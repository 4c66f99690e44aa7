//! How a region's bytes are dealt over its slots, and gathered back.
//!
//! A slot is one endpoint's share of a region. Bytes are dealt in chunks of the granularity, one slot
//! after the other; under XOR arithmetic parities of the address choose in place of its lowest chunk bits.
#![tactic(auto)]

mod laws;
mod steps;
mod weave;

pub use laws::{
    chunks_deal_whole, place_tells_address, region_fills_slots, slot_digits, slots_keep_entries,
    slots_keep_positions,
};
pub use steps::Dealt;
pub use weave::{Weave, deal, gather};
