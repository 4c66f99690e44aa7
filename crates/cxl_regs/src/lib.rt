//! The HDM decoder registers of one node, as its decoder block keeps them: which word stands at an
//! offset, and what a write to a word does.
#![tactic(auto)]

mod block;
mod decoder;
mod decoders;
mod effect;
mod laws;
mod offsets;
mod reading;
mod rules;
mod words;
mod writing;

pub use block::{Block, copies};
pub use decoder::Decoder;
pub use decoders::MOST_DECODERS;
pub use effect::{CommitRule, Effect};
pub use laws::{write_laws, writes_keep_places};
pub use offsets::{
    BASE_HIGH, BASE_LOW, CONTROL, GLOBAL_CONTROL, RESERVED, SIZE_HIGH, SIZE_LOW, TAIL_HIGH,
    TAIL_LOW, offset_of,
};
pub use reading::Range;
pub use rules::{breaks_order, breaks_rise, codes_ok, decoder_count, select_ok};
pub use words::{decoder_of, words_of, words_stand_for_decoder};
