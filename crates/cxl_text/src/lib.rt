//! Replies, plans, regions and breaches as text.
#![tactic(auto)]

mod digits;
mod findings;
mod fixed;
mod places;
mod plan;
mod poison;
mod refusal;
mod region;
mod short_lines;
mod short_text;
mod slots;
mod targets;
mod text;
mod words;

pub use cxl_enc::Memory;
pub use cxl_model::Found;
pub use cxl_reply::Reply;
pub use findings::{put_breach, put_found};
pub use fixed::fixed_text;
pub use plan::{put_plan, put_tail};
pub use region::put_words;
pub use short_lines::{has_short_text, short};
pub use short_text::ShortText;
pub use targets::put_targets;
pub use text::{put_long, put_reply};
pub use words::{put_address, put_gran};
