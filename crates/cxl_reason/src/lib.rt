//! Why no set of so many endpoints has a legal plan, window by window.
#![tactic(auto)]

mod answering;
mod counting;
mod gifts;
mod laws;
mod nodes;
mod reason;
mod serving;
mod sizes;
mod terms;
mod windows;

pub use answering::reasons;
pub use laws::reasons_hold_of_all_sets;
pub use reason::SetReason;
