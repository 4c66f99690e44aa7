//! What a create line asks: its plan over a host, or why there is none. For the command `plan` and for a session alike.
#![tactic(auto)]

mod endpoints;
mod laws;
mod requests;

pub use cxl_enc::{Memory, Name};
pub use cxl_model::{Host, Plan};
pub use cxl_reply::Reply;
pub use cxl_script::Create;
pub use endpoints::first_unknown;
pub use laws::{answered_lines_can_be_told, answers_hold_of_lines, lines_have_a_plan_or_none};
pub use requests::asked_plan;
