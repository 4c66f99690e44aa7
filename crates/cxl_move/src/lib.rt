//! The bytes of a region in media: on which device byte each lies, how an access reads and puts them, which pieces a region
//! has there, and how another one is given them.
#![tactic(auto)]

mod blocks;
mod copying;
mod holdings;
mod listing;
mod moving;
mod parts;
mod pieces;
mod putting;
mod scrubbing;
mod side;
mod slots;
mod upward;

pub use copying::copy_bytes;
pub use cxl_model::{Found, Memory};
pub use holdings::{
    blocks_are_pieces, blocks_hold_their_pieces, carried_pieces_are_contents,
    cleared_regions_leave_media, holdings_stand_in_any_order, put_pieces_are_contents,
};
pub use listing::held;
pub use moving::move_bytes;
pub use parts::{DeviceByte, bytes_lie_in_pieces, device_byte, first_part, load_bytes, read_part};
pub use pieces::pieces_are_carried_to_blocks;
pub use putting::{put_one, put_two};
pub use scrubbing::scrub_region;
pub use side::Side;
pub use slots::span_byte;
pub use upward::carried_address;
