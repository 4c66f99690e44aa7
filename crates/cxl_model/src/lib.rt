//! What a register image over a tree of nodes means: where its decoders lead an address, which images are
//! accepted, which regions an image has and where their bytes are carried, and which plans are legal. The
//! types that the crates above share stand here too.
#![tactic(auto)]

mod above;
mod chain;
mod dealing;
mod extent;
mod found;
mod host;
mod laws;
mod plan;
mod poison;
mod regions;
mod request;

pub use above::Above;
pub use chain::{Miss, Step};
pub use cxl_enc::{FixedList, MemKind, Memory, Name};
pub use cxl_regs::Range;
pub use cxl_span::{Room, SpanFault};
pub use dealing::{
    carries_where_chain_ends, chain_is_the_dealing, chains_to_spans_are_of_regions,
    routes_are_of_regions, routes_lie_in_ranges, routes_stay,
};
pub use extent::Extent;
pub use found::{Found, Place, slot_on, weave_of};
pub use host::Host;
pub use laws::{
    accepted_image_is_system, accepted_or_breach, accepted_where_whole, breaches_lie_in_images,
    chains_have_one_end, hosts_with_caps_are_systems, one_window, reset_hosts_are_accepted,
};
pub use plan::{Plan, PlanFault, Reason, Row};
pub use poison::{Entry, Part, PoisonList, Poisoned, Run, Wide};
pub use regions::{
    bytes_are_carried_one_to_one, committed_spans_are_of_regions, endpoints_lie_evenly,
    pieces_are_carried_whole, regions_are_listed, regions_lie_in_windows, regions_share_no_byte,
    regions_stay, slots_are_endpoints, weaves_fill_their_regions, whole_ranges_have_one_region,
};
pub use request::Request;
