//! The bytes of its device that each decoder of an endpoint takes, the rules that a block keeps by
//! itself, and where the next span stands.
#![tactic(auto)]

mod allotting;
mod breach;
mod laws;
mod rules;
mod spans;
mod testing;

pub use allotting::{Room, Span, SpanFault, allot};
pub use breach::{BlockBreach, block_breach};
pub use laws::{
    addresses_go_into_spans, committed_stand_first, one_holder, ranges_rise, spans_are_whole,
    spans_follow, spans_lie_in_partitions,
};
pub use spans::{endpoint_place_of, start_of};
pub use testing::breaks_at;
